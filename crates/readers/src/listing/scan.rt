// Takes commands off the front of the bytes.
ghost use Rattle.std.specs.Prelude.{◌≡◌, ◌+◌, ◌*◌};
ghost use Rattle.readers.specs.Bytes.{Taken};
ghost use Rattle.readers.specs.Flow.{with_known_lock};
ghost use Rattle.readers.specs.Encoding.{highest};

use crate::listing::{Command, Wrong};
use locks::sets::LOCKS;

// The command, where the lock that it takes or gives is one that there is.
fn with_known_lock(command: Command) -> Result<Command, Wrong>
    ensures { result ≡ with_known_lock command }
{
    match command {
        Command::Take(lock) | Command::Give(lock) if lock >= LOCKS => {
            Err(Wrong::UnknownLock(command))
        }
        _ => Ok(command),
    }
}

// The higher byte comes first.
fn target(high: u8, low: u8) -> u16
    ensures { result ≡ 256 * high + low }
{
    u16::from_be_bytes([high, low])
}

// The first command and the bytes behind it.
#[inline]
pub(crate) fn next_command(bytes: &[u8]) -> Result<(Command, &[u8]), Wrong>
    ensures { Taken highest bytes.now result }
{
    match bytes {
        [] => Err(Wrong::NoBytes),
        [0x00, rest @ ..] => Ok((Command::Stop, rest)),
        [0x01, rest @ ..] => Ok((Command::Pass, rest)),
        [0x02, lock, rest @ ..] => Ok((with_known_lock(Command::Take(*lock))?, rest)),
        [0x03, lock, rest @ ..] => Ok((with_known_lock(Command::Give(*lock))?, rest)),
        [0x04, high, low, rest @ ..] => Ok((Command::Goto(target(*high, *low)), rest)),
        [0x05, high, low, other_high, other_low, rest @ ..] => {
            let first = target(*high, *low);
            let second = target(*other_high, *other_low);
            Ok((Command::Either(first, second), rest))
        }
        [byte @ 0x02..=0x05, ..] => Err(Wrong::CutOff(*byte)),
        [byte, ..] => Err(Wrong::UnknownCommand(*byte)),
    }
}
