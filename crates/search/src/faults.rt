// Why a graph gets no summary.
ghost use Rattle.std.specs.Prelude.{◌≡◌};
ghost use Rattle.search.specs.Faults.{summarise_refusal};

use locks::faults::Fault;
use locks::refusals::{Part, Refusal};

#[derive(Clone, Copy, Debug, PartialEq, Eq)]
pub enum SummariseFault {
    // The thread alone reaches more locked states than a summary may have.
    TooManyStates,
    // It reaches this fault; the least place of one.
    Reaches(Fault, usize),
}

impl From<SummariseFault> for Refusal {
    ghost from_gives = { λ fault refusal. refusal ≡ summarise_refusal fault };

    fn from(fault: SummariseFault) -> Refusal {
        let (number, place) = match fault {
            SummariseFault::TooManyStates => (13, 0),
            SummariseFault::Reaches(Fault::Nesting, place) => (14, place),
            SummariseFault::Reaches(Fault::Depth, place) => (15, place),
        };
        Refusal {
            number,
            place,
            part: Part::Summarise,
        }
    }
}

impl SummariseFault {
    pub fn refusal(self) -> Refusal
        ensures { result ≡ summarise_refusal self }
    {
        Refusal::from(self)
    }
}
