// How a line is refused that does not fit.
ghost use Rattle.std.specs.Prelude.{◌≡◌};
ghost use Rattle.review.specs.LineFaults.{line_refusal};

use locks::refusals::{Part, Refusal};

// There is too little space for a line. It needs so many bytes, or more than can be counted where this is the
// largest number.
#[derive(Clone, Copy, Debug, PartialEq, Eq)]
pub struct LineFault {
    pub needed: usize,
}

impl LineFault {
    pub fn refusal(self) -> Refusal
        ensures { result ≡ line_refusal self }
    {
        Refusal::from(self)
    }
}

impl From<LineFault> for Refusal {
    ghost from_gives = { λ fault refusal. refusal ≡ line_refusal fault };

    fn from(fault: LineFault) -> Refusal {
        Refusal {
            number: 24,
            place: fault.needed,
            part: Part::Line,
        }
    }
}
