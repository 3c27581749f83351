// One pair of two listings, for callers who have no review file.
mod answering;
mod making;
mod moves;
mod room;

pub use answering::verdict;
pub use room::VerdictRoom;
