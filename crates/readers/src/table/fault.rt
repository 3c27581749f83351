// The faults of a table.
ghost use Rattle.std.specs.Prelude.{◌≡◌};
ghost use Rattle.readers.specs.TableFaults.{number, place, table_refusal};

use locks::refusals::{Part, Refusal};

// Why a table is refused: first its number of locations and its start, then its records, front to back. A record is
// known by its index.
#[derive(Clone, Copy, Debug, PartialEq, Eq)]
pub enum TableFault {
    LocationCount,
    StartMissing,
    // A location or a target outside the graph, an unknown kind or lock, or a plain step whose lock is not 0.
    WrongRecord { at: usize },
    // One step more than a location may have. It is looked for once no record is wrong by itself.
    TooManySteps { at: usize },
}

impl TableFault {
    fn number(self) -> u8
        ensures { result ≡ number self }
    {
        match self {
            TableFault::LocationCount => 8,
            TableFault::StartMissing => 9,
            TableFault::WrongRecord { .. } => 10,
            TableFault::TooManySteps { .. } => 11,
        }
    }

    fn place(self) -> usize
        ensures { result ≡ place self }
    {
        match self {
            TableFault::LocationCount | TableFault::StartMissing => 0,
            TableFault::WrongRecord { at } | TableFault::TooManySteps { at } => at,
        }
    }

    pub fn refusal(self) -> Refusal
        ensures { result ≡ table_refusal self }
    {
        Refusal::from(self)
    }
}

impl From<TableFault> for Refusal {
    ghost from_gives = { λ fault refusal. refusal ≡ table_refusal fault };

    fn from(fault: TableFault) -> Refusal {
        Refusal {
            number: fault.number(),
            place: fault.place(),
            part: Part::Table,
        }
    }
}
