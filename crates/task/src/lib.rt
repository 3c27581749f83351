// What a replay of a schedule is about, read from a text of four lines, each ended by LF, which the last may lack:
//
//     left 02 00 02 01 03 01 00
//     right 02 01 02 00 03 00 00
//     pair 3 1
//     moves L0 L0 L0 R0
//
// A listing, left or right, has up to 4096 bytes of two hexadecimal digits. The pair is two numbers below 2^32, the
// locations of the left and the right side. Up to 4096 moves follow: `L` and a number up to 255, or `R` and a number up
// to 65279, whose move is 256 more. One space stands before each item, and no other.
#![tactic(auto)]

mod content;
mod fault;
mod items;
mod laws;
mod line;
mod number;
mod pieces;
mod place;
mod reading;
#[cfg(test)]
mod tests;

pub use fault::{TextFault, Wrong};
pub use laws::{
    accepted_texts_say_their_tasks, faults_have_their_reasons, written_tasks_read_back,
};
pub use place::Task;
