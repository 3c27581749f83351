// What can be wrong with a review file, and how it is refused.
ghost use Rattle.std.specs.Prelude.{◌≡◌};
ghost use Rattle.review.specs.FileFaults.{file_refusal, file_offset, of_file, within, within_name};

use crate::file::MOST_BYTES;
use layers::names::NamesFault;
use locks::refusals::{Part, Refusal};
use readers::listing::ListingFault;

// Why a file is refused. The fault of a section is carried whole, with the offset of the section's first byte.
#[derive(Clone, Copy, Debug, PartialEq, Eq)]
pub enum FileFault {
    TooLong,
    // The file ends where a command must stand, or within one: `at` is its length.
    EndsEarly { at: usize },
    // The command byte at this offset may not stand there.
    NotAllowed { at: usize },
    InLeft { fault: ListingFault, place: usize },
    InRight { fault: ListingFault, place: usize },
    InNames { fault: NamesFault, place: usize },
}

// Where a review is at fault: a thread, the names, or the file itself.
#[derive(Clone, Copy, Debug, PartialEq, Eq)]
pub enum Within {
    Left,
    Right,
    Names,
    File,
}

impl Within {
    pub fn name(self) -> &'static str
        ensures { result.now ≡ within_name self }
    {
        match self {
            Within::Left => "left",
            Within::Right => "right",
            Within::Names => "names",
            Within::File => "file",
        }
    }
}

impl FileFault {
    // The fault of a section keeps its own number, place and part.
    pub fn refusal(self) -> Refusal
        ensures { result ≡ file_refusal self }
    {
        Refusal::from(self)
    }

    // Where in the file the fault stands. Values that no file gives may be more than can be counted: then it is the
    // largest number.
    pub fn file_offset(self) -> usize
        ensures { result ≡ file_offset self }
    {
        match self {
            FileFault::TooLong => MOST_BYTES,
            FileFault::EndsEarly { at } | FileFault::NotAllowed { at } => at,
            FileFault::InLeft { fault, place } | FileFault::InRight { fault, place } => {
                place.saturating_add(fault.at)
            }
            FileFault::InNames { fault, place } => place.saturating_add(fault.at),
        }
    }

    pub fn within(self) -> Within
        ensures { result ≡ within self }
    {
        match self {
            FileFault::InLeft { .. } => Within::Left,
            FileFault::InRight { .. } => Within::Right,
            FileFault::InNames { .. } => Within::Names,
            FileFault::TooLong | FileFault::EndsEarly { .. } | FileFault::NotAllowed { .. } => {
                Within::File
            }
        }
    }
}

impl From<FileFault> for Refusal {
    ghost from_gives = { λ fault refusal. refusal ≡ file_refusal fault };

    fn from(fault: FileFault) -> Refusal {
        match fault {
            FileFault::TooLong => of_file(25, MOST_BYTES),
            FileFault::EndsEarly { at } => of_file(23, at),
            FileFault::NotAllowed { at } => of_file(22, at),
            FileFault::InLeft { fault, .. } | FileFault::InRight { fault, .. } => fault.refusal(),
            FileFault::InNames { fault, .. } => fault.refusal(),
        }
    }
}

fn of_file(number: u8, place: usize) -> Refusal
    ensures { result ≡ of_file number place }
{
    Refusal {
        number,
        place,
        part: Part::File,
    }
}
