// Making the place, and reading a table into it.
ghost use Rattle.std.specs.Prelude.{◌≡◌, ◌≤◌, vec_capacity, IfOk};
ghost use Rattle.locks.specs.Limits.{most_locations};
ghost use Rattle.readers.specs.contracts.table.place.questions.EdgeTableThreadGraph.TheImpl.{ghosts as table_ghosts};
ghost use Rattle.readers.specs.Records.{RowsSay};
ghost use Rattle.readers.specs.Rows.{bare, rows_steps};
ghost use Rattle.readers.specs.Tables.{bare_graph, TableReads};
ghost use Rattle.readers.specs.TableRefusals.{AllFit, AllFew};

use crate::table::checks::check;
use crate::table::place::EdgeTable;
use crate::table::row::Row;
use crate::table::{Record, TableFault};
use graph::MOST_LOCATIONS;
use std::alloc::{AllocError, Global};

impl EdgeTable {
    // All memory is had here. The place begins as one location without steps.
    pub fn new(heap: Global) -> Result<EdgeTable, AllocError>
        ensures { IfOk result (λ t. table_ghosts.meaning t ≡ bare_graph) }
    {
        let mut rows = Vec::with_capacity(heap, MOST_LOCATIONS)?;
        rows.push_reserved(Row::empty());
        Ok(EdgeTable { rows, start: 0 })
    }

    // The whole input is checked before the place is touched.
    pub fn read(&mut self, locations: u16, start: u16, records: &[Record]) -> Result<(), TableFault>
        ensures { TableReads locations start records.now (table_ghosts.meaning self.old) result (table_ghosts.meaning self.new) }
    {
        check(locations, start, records)?;
        clear(&mut self.rows, locations);
        fill(&mut self.rows, locations, records);
        self.start = start;
        Ok(())
    }
}

// So many locations, each without steps.
fn clear(rows: &mut Vec<Row>, locations: u16)
    requires few { locations ≤ most_locations }
    requires room { most_locations ≤ vec_capacity rows.old }
    ensures rows { rows_steps rows.new.items ≡ bare locations }
    ensures capacity { vec_capacity rows.new ≡ vec_capacity rows.old }
{
    rows.clear();
    for _ in 0..locations {
        rows.push_reserved(Row::empty());
    }
}

// Into the memory that is there: nothing is allocated.
fn fill(rows: &mut Vec<Row>, locations: u16, records: &[Record])
    requires bare { rows_steps rows.old.items ≡ bare locations }
    requires fit { AllFit locations records.now }
    requires few { AllFew records.now }
    ensures rows { RowsSay locations records.now (rows_steps rows.new.items) }
    ensures capacity { vec_capacity rows.new ≡ vec_capacity rows.old }
{
    for record in records {
        if let Some(step) = record.step(locations) {
            rows[usize::from(record.from)].push(step);
        }
    }
}
