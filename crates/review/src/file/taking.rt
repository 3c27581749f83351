// Takes one command off the front of some bytes.
ghost use Rattle.std.specs.Prelude.{◌<◌, ◌^◌};
ghost use Rattle.review.specs.Taking.{KindHere, TakesRun, TakesPair, TakesOff};

use crate::file::kind::CommandKind;
use crate::file::{Phase, Section};

#[derive(Clone, Copy, Debug, PartialEq, Eq)]
pub(crate) enum Wrong {
    // The byte begins no command that may stand here.
    NotAllowed,
    // A command must stand here, and the bytes end before it does.
    EndsEarly,
}

// The kind of the command that begins with this byte. Its operands of fixed width are among the `behind` bytes that
// follow, so whoever takes them need not look again.
fn kind_here(phase: Phase, byte: u8, behind: usize) -> Result<CommandKind, Wrong>
    ensures { KindHere phase byte behind result }
{
    match (phase, byte) {
        (Phase::BeforeLeft, 0x10) if behind >= 2 => Ok(CommandKind::Left),
        (Phase::BeforeRight, 0x11) if behind >= 2 => Ok(CommandKind::Right),
        (Phase::AfterRight | Phase::AmongPairs, 0x12) if behind >= 4 => Ok(CommandKind::Pair),
        (Phase::AfterRight, 0x13) if behind >= 8 => Ok(CommandKind::Rename),
        (Phase::AfterRight | Phase::AmongPairs, 0x1f) => Ok(CommandKind::End),
        (Phase::BeforeLeft, 0x10) | (Phase::BeforeRight, 0x11) | (Phase::AmongPairs, 0x12) => {
            Err(Wrong::EndsEarly)
        }
        (Phase::AfterRight, byte) if (0x12..=0x13).contains(&byte) => Err(Wrong::EndsEarly),
        _ => Err(Wrong::NotAllowed),
    }
}

// The section of the command, and the bytes after it. `at` is the offset of the command in its file.
pub(crate) fn take(phase: Phase, bytes: &[u8], at: usize) -> Result<(Section<'_>, &[u8]), Wrong>
    requires { at < 2 ^ 32 }
    ensures { TakesOff phase at bytes.now result }
{
    let [byte, rest @ ..] = bytes else {
        return Err(Wrong::EndsEarly);
    };
    match kind_here(phase, *byte, rest.len())? {
        CommandKind::Left => {
            let (size, rest) = rest.split_first_chunk().unwrap();
            let (bytes, rest) = run(*size, rest)?;
            let place = at + 3;
            Ok((Section::Left { bytes, place }, rest))
        }
        CommandKind::Right => {
            let (size, rest) = rest.split_first_chunk().unwrap();
            let (bytes, rest) = run(*size, rest)?;
            let place = at + 3;
            Ok((Section::Right { bytes, place }, rest))
        }
        CommandKind::Rename => {
            let (numbers, rest) = rest.split_first_chunk().unwrap();
            let place = at + 1;
            Ok((Section::Rename { numbers, place }, rest))
        }
        CommandKind::Pair => {
            let (locations, rest) = rest.split_first_chunk().unwrap();
            Ok((pair(*locations), rest))
        }
        CommandKind::End => Ok((Section::End, rest)),
    }
}

// As many bytes as the size says, and what follows them.
fn run(size: [u8; 2], bytes: &[u8]) -> Result<(&[u8], &[u8]), Wrong>
    ensures { TakesRun size bytes.now result }
{
    let [high, low] = size;
    let count = usize::from(u16::from_be_bytes([high, low]));
    bytes.split_at_checked(count).ok_or(Wrong::EndsEarly)
}

fn pair(locations: [u8; 4]) -> Section<'static>
    ensures { TakesPair locations result }
{
    let [a, b, c, d] = locations;
    Section::Pair {
        left: u16::from_be_bytes([a, b]),
        right: u16::from_be_bytes([c, d]),
    }
}
