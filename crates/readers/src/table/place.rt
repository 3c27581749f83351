// The place of an edge table. What it holds is a graph within the bounds from the making on.
mod questions;
mod reading;

ghost use Rattle.std.specs.Prelude.{◌≤◌, vec_capacity};
ghost use Rattle.locks.specs.Graphs.{Bounded};
ghost use Rattle.locks.specs.Limits.{most_locations};
ghost use Rattle.readers.specs.Rows.{rows_graph};

use crate::table::row::Row;

// The steps stand by location, so that each is found at once, whatever the order of the records was.
#[derive(Drop)]
pub struct EdgeTable {
    rows: Vec<Row>,
    start: u16,
    ghost room: { most_locations ≤ vec_capacity rows },
    ghost sound: { Bounded (rows_graph start rows.items) },
}
