// The weighing of two locked states, folders over any kind of thread graph with their summaries, moves and replay.
#![tactic(auto)]

pub mod entries;
pub mod faults;
pub mod folders;
pub mod playing;
pub mod replaying;
pub mod threads;
pub mod weighing;
