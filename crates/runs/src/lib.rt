// Sequences of calls on two folders, with the claim that holds of every one of them.
#![tactic(auto)]

pub mod calls;
mod obeying;
pub mod running;
pub mod scripts;
