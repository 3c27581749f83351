// Readers of the forms in which a thread is handed over.
#![tactic(auto)]

pub mod listing;
pub mod table;
