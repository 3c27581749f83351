// The transcript of a text: what is said of two threads, of a schedule and of a pair of locations, line by line.
#![tactic(auto)]

mod ending;
mod printing;
#[cfg(test)]
mod tests;
mod threads;
mod trace;
mod verdict;

pub use printing::{print_transcript, transcript};
