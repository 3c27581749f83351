// Locks and lock sets, steps and moves, locked states, the rules by which one thread or two go on, what a
// refusal says, and the theory of what two threads reach together.
#![tactic(auto)]

pub mod alone;
pub mod faults;
pub mod held;
pub mod moves;
pub mod refusals;
pub mod sameness;
pub mod sets;
pub mod states;
pub mod steps;
pub mod theory;
pub mod together;
