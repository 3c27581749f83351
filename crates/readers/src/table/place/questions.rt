// An edge table as a thread graph.
ghost use Rattle.readers.specs.Tables.{table_graph};

use crate::table::place::EdgeTable;
use graph::ThreadGraph;
use locks::steps::Step;

impl ThreadGraph for EdgeTable {
    ghost meaning = { table_graph };

    ghost bounded = { λ t. t.sound };

    fn locations(&self) -> u16 {
        // They are 512 at most, so the cast loses nothing.
        self.rows.len() as u16
    }

    fn start(&self) -> u16 {
        self.start
    }

    fn step_count(&self, location: u16) -> u8 {
        // They are 16 at most, so the cast loses nothing.
        self.steps(location).len() as u8
    }

    fn step(&self, location: u16, choice: u8) -> Option<Step> {
        self.steps(location).get(usize::from(choice)).copied()
    }
}

impl EdgeTable {
    ghost use Rattle.std.specs.Prelude.{◌≡◌};
    ghost use Rattle.locks.specs.Graphs.{steps_at};

    fn steps(&self, location: u16) -> &[Step]
        ensures { result.now ≡ steps_at (table_graph self.now) location }
    {
        match self.rows.get(usize::from(location)) {
            Some(row) => row.as_slice(),
            None => &[],
        }
    }
}
