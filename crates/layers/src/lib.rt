// Layers over a thread graph: each holds a graph of any kind, and is one.
#![tactic(auto)]

pub mod names;
pub mod renamed;
