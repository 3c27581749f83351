// What is wrong with a table, if anything is.
ghost use Rattle.std.specs.Prelude.{◌≤◌, MatchOption};
ghost use Rattle.locks.specs.Limits.{most_locations};
ghost use Rattle.readers.specs.TableRefusals.{TableAnswers, AllFit, AllFew, FirstWrong, FirstTooMany};

use crate::table::{Record, TableFault};
use graph::MOST_LOCATIONS;
use locks::steps::MOST_STEPS;

// The first record that spells no step, by its index.
fn first_wrong(locations: u16, records: &[Record]) -> Option<usize>
    ensures { MatchOption result (AllFit locations records.now) (FirstWrong locations records.now) }
{
    for (at, record) in records.iter().enumerate() {
        if record.step(locations).is_none() {
            return Some(at);
        }
    }
    None
}

// The first record that is one too many for its location, by its index.
fn first_too_many(locations: u16, records: &[Record]) -> Option<usize>
    requires few { locations ≤ most_locations }
    requires fit { AllFit locations records.now }
    ensures { MatchOption result (AllFew records.now) (FirstTooMany records.now) }
{
    let mut counts = [0; MOST_LOCATIONS];
    for (at, record) in records.iter().enumerate() {
        let from = usize::from(record.from);
        if counts[from] >= MOST_STEPS {
            return Some(at);
        }
        counts[from] += 1;
    }
    None
}

pub(crate) fn check(locations: u16, start: u16, records: &[Record]) -> Result<(), TableFault>
    ensures { TableAnswers locations start records.now result }
{
    if locations == 0 || usize::from(locations) > MOST_LOCATIONS {
        return Err(TableFault::LocationCount);
    }
    if start >= locations {
        return Err(TableFault::StartMissing);
    }
    if let Some(at) = first_wrong(locations, records) {
        return Err(TableFault::WrongRecord { at });
    }
    match first_too_many(locations, records) {
        Some(at) => Err(TableFault::TooManySteps { at }),
        None => Ok(()),
    }
}
