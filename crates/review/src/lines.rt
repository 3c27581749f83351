// The lines of a report.
mod fault;
mod laws;
mod line;
pub(crate) mod putting;
mod writing;

pub use fault::LineFault;
pub use laws::{digits_are_their_numbers, moves_are_told};
pub use line::Line;
