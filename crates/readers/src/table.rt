// An edge table: a number of locations, a start, and a list of records, each of which spells one step.
mod checks;
mod fault;
mod laws;
mod place;
mod record;
mod row;
#[cfg(test)]
mod tests;

pub use fault::TableFault;
pub use laws::tables_say_one_graph;
pub use place::EdgeTable;
pub use record::Record;
