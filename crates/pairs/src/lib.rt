// Questions about a pair of locations of two summarised threads.
#![tactic(auto)]

pub mod answers;
pub mod asking;
mod meeting;
mod nearest;
mod writing;
