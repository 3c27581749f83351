// The fault of names.
ghost use Rattle.std.specs.Prelude.{◌≡◌};
ghost use Rattle.layers.specs.NamesFaults.{names_refusal};

use locks::refusals::{Part, Refusal};

// Why names are refused: at this place stands the first number that is no lock, or that stood before.
#[derive(Clone, Copy, Debug, PartialEq, Eq)]
pub struct NamesFault {
    pub at: usize,
}

impl NamesFault {
    pub fn refusal(self) -> Refusal
        ensures { result ≡ names_refusal self }
    {
        Refusal::from(self)
    }
}

impl From<NamesFault> for Refusal {
    ghost from_gives = { λ fault refusal. refusal ≡ names_refusal fault };

    fn from(fault: NamesFault) -> Refusal {
        Refusal {
            number: 12,
            place: fault.at,
            part: Part::Names,
        }
    }
}
