// What can be wrong with a listing, and how it is refused.
ghost use Rattle.std.specs.Prelude.{◌≡◌};
ghost use Rattle.readers.specs.Faults.{fault, number, listing_refusal};

use crate::listing::Command;
use locks::refusals::{Part, Refusal};

// Why a listing is refused. The middle four are looked for front to back, the last two once the whole run is read.
#[derive(Clone, Copy, Debug, PartialEq, Eq)]
pub enum Wrong {
    NoBytes,
    TooManyCommands,
    // This byte begins no command.
    UnknownCommand(u8),
    // The bytes end within the operands of the command that this byte begins.
    CutOff(u8),
    // The TAKE or GIVE as it stands there, whose lock there is not.
    UnknownLock(Command),
    // The GOTO or EITHER, a target of which is no command of the listing.
    MissingTarget(Command),
    // The last command, which leads on.
    RunsOffTheEnd(Command),
}

// `at` is the offset of the command that is wrong.
#[derive(Clone, Copy, Debug, PartialEq, Eq)]
pub struct ListingFault {
    pub wrong: Wrong,
    pub at: usize,
}

impl Wrong {
    // This fault, of the command at an offset.
    pub(crate) fn at(self, at: usize) -> ListingFault
        ensures { result ≡ fault self at }
    {
        ListingFault { wrong: self, at }
    }

    fn number(self) -> u8
        ensures { result ≡ number self }
    {
        match self {
            Wrong::NoBytes => 1,
            Wrong::UnknownCommand(_) => 2,
            Wrong::CutOff(_) => 3,
            Wrong::TooManyCommands => 4,
            Wrong::UnknownLock(_) => 5,
            Wrong::MissingTarget(_) => 6,
            Wrong::RunsOffTheEnd(_) => 7,
        }
    }
}

impl From<ListingFault> for Refusal {
    ghost from_gives = { λ fault refusal. refusal ≡ listing_refusal fault };

    fn from(fault: ListingFault) -> Refusal {
        Refusal {
            number: fault.wrong.number(),
            place: fault.at,
            part: Part::Listing,
        }
    }
}

impl ListingFault {
    pub fn refusal(self) -> Refusal
        ensures { result ≡ listing_refusal self }
    {
        Refusal::from(self)
    }
}
