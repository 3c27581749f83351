// The report of a review file: what is answered and what is printed of it.
mod asks;
mod error;
mod joining;
mod making;
mod telling;
#[cfg(test)]
mod tests;
mod writing;

pub use error::ReportError;
pub use making::report;
pub use writing::print_report;
