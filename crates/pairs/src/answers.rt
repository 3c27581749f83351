// What ask answers.
ghost use Rattle.std.specs.Prelude.{◌≡◌};
ghost use Rattle.pairs.specs.Answers.{ask_refusal};

use locks::refusals::{Part, Refusal};
use locks::together::Side;

// Whether both locations of a pair can be occupied at one time. It is no `Option`, whose `None` would not say never.
#[derive(Clone, Copy, Debug, PartialEq, Eq)]
pub enum Verdict {
    // No schedule leads there.
    Never,
    // A shortest schedule has so many moves.
    Reached(usize),
}

// Why ask gives no verdict.
#[derive(Clone, Copy, Debug, PartialEq, Eq)]
pub enum AskFault {
    // This side's folder has no summary.
    NoSummary(Side),
    // This side's graph has no such location.
    NoLocation(Side),
    // The shortest schedule has so many moves, more than the list has places.
    TooShort(usize),
}

impl From<AskFault> for Refusal {
    ghost from_gives = { λ fault refusal. refusal ≡ ask_refusal fault };

    fn from(fault: AskFault) -> Refusal {
        let (number, place) = match fault {
            AskFault::NoSummary(side) => (16, usize::from(side)),
            AskFault::NoLocation(side) => (17, usize::from(side)),
            AskFault::TooShort(length) => (18, length),
        };
        Refusal {
            number,
            place,
            part: Part::Ask,
        }
    }
}

impl AskFault {
    pub fn refusal(self) -> Refusal
        ensures { result ≡ ask_refusal self }
    {
        Refusal::from(self)
    }
}
