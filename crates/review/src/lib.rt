// Review files: two threads and the pairs of locations to be judged, in one run of bytes.
#![tactic(auto)]

mod asking;
pub mod entry;
pub mod file;
pub mod lines;
pub mod report;
