// What every refusal says.
ghost use Rattle.std.specs.Prelude.{◌≡◌, Some};
ghost use Rattle.locks.specs.Refusals.{part_name, refusal_text};

use std::fmt;

// Which part of the tool refuses.
#[derive(Clone, Copy, Debug, PartialEq, Eq)]
pub enum Part {
    Listing,
    Table,
    Names,
    Summarise,
    Ask,
    Replay,
    File,
    Line,
}

impl Part {
    pub fn name(self) -> &'static str
        ensures { result.now ≡ part_name self }
    {
        match self {
            Part::Listing => "listing",
            Part::Table => "table",
            Part::Names => "names",
            Part::Summarise => "summarise",
            Part::Ask => "ask",
            Part::Replay => "replay",
            Part::File => "file",
            Part::Line => "line",
        }
    }
}

impl fmt::Display for Part {
    ghost output = { λ part. Some (part_name part) };

    fn fmt<W: fmt::Write>(&self, f: &mut fmt::Formatter<W>) -> fmt::Result {
        f.write_str(self.name())
    }
}

// The number of a refusal, where it arose, and the part that refuses. It is a number and no enum: each part has an
// enum of its own faults, and all of them are told as this.
#[derive(Clone, Copy, Debug, PartialEq, Eq)]
pub struct Refusal {
    pub number: u8,
    pub place: usize,
    pub part: Part,
}

impl fmt::Display for Refusal {
    ghost output = { λ refusal. Some (refusal_text refusal) };

    fn fmt<W: fmt::Write>(&self, f: &mut fmt::Formatter<W>) -> fmt::Result {
        write!(
            f,
            "refused {} at {} in {}",
            self.number, self.place, self.part
        )
    }
}
