// What is wrong with a file, in words, for whoever asks for them.
ghost use Rattle.std.specs.Prelude.{◌≡◌, ◌<◌};
ghost use Rattle.review.specs.Lines.{Filled, LineWritten};
ghost use Rattle.review.specs.Words.{with_number, hex_digit, with_byte, command_name, command_words, wrong_words, names_words, file_words};

use crate::file::{FileFault, MOST_BYTES};
use crate::lines::LineFault;
use crate::lines::putting::{put, put_number};
use layers::names::NamesFault;
use locks::sets::LOCKS;
use readers::listing::{Command, MOST_COMMANDS, Wrong};

const HIGHEST_LOCK: u64 = LOCKS as u64 - 1;

impl FileFault {
    // Into the front of the space, without a newline; answers how many bytes they take. The rest of the space stays, and
    // all of it where they do not fit: they are then refused as a line is.
    pub fn write_words(&self, space: &mut [u8]) -> Result<usize, LineFault>
        ensures { LineWritten (file_words self.now) space.old result space.new }
    {
        let needed = self.put_words(&mut []);
        if needed > space.len() {
            return Err(LineFault { needed });
        }
        Ok(self.put_words(space))
    }

    fn put_words(&self, space: &mut [u8]) -> usize
        ensures { Filled space.old (file_words self.now) space.new result }
    {
        match *self {
            FileFault::TooLong => put_between(
                space,
                b"the file has more than ",
                MOST_BYTES as u64,
                b" bytes",
            ),
            FileFault::EndsEarly { .. } => put(space, 0, b"the file ends before its END"),
            FileFault::NotAllowed { .. } => put(
                space,
                0,
                b"no command that may stand here begins with this byte",
            ),
            FileFault::InLeft { fault, .. } | FileFault::InRight { fault, .. } => {
                put_wrong(space, fault.wrong)
            }
            FileFault::InNames { fault, .. } => put_names(space, fault),
        }
    }
}

// A number in the midst of words.
fn put_between(space: &mut [u8], before: &[u8], number: u64, after: &[u8]) -> usize
    ensures { Filled space.old (with_number before.now number after.now) space.new result }
{
    let end = put(space, 0, before);
    let end = put_number(space, end, number);
    put(space, end, after)
}

// A byte in the midst of words.
fn put_byte(space: &mut [u8], before: &[u8], byte: u8, after: &[u8]) -> usize
    ensures { Filled space.old (with_byte before.now byte after.now) space.new result }
{
    let end = put(space, 0, before);
    let end = put(space, end, &[hex_digit(byte / 16), hex_digit(byte % 16)]);
    put(space, end, after)
}

fn hex_digit(digit: u8) -> u8
    requires { digit < 16 }
    ensures { result ≡ hex_digit digit }
{
    if digit < 10 {
        b'0' + digit
    } else {
        b'a' + (digit - 10)
    }
}

fn put_wrong(space: &mut [u8], wrong: Wrong) -> usize
    ensures { Filled space.old (wrong_words wrong) space.new result }
{
    match wrong {
        Wrong::NoBytes => put(space, 0, b"the listing has no bytes"),
        Wrong::TooManyCommands => put_between(
            space,
            b"a listing has at most ",
            MOST_COMMANDS as u64,
            b" commands, and here is one more",
        ),
        Wrong::UnknownCommand(byte) => put_byte(space, b"byte ", byte, b" begins no command"),
        Wrong::CutOff(byte) => put_byte(
            space,
            b"the listing ends within the command that byte ",
            byte,
            b" begins",
        ),
        Wrong::UnknownLock(command) => {
            let end = put_command(space, command);
            let end = put(space, end, b", and locks go from 0 to ");
            put_number(space, end, HIGHEST_LOCK)
        }
        Wrong::MissingTarget(command) => {
            let end = put_command(space, command);
            put(space, end, b", and the listing lacks such a command")
        }
        Wrong::RunsOffTheEnd(command) => {
            let end = put(space, 0, b"the last command is ");
            let end = put(space, end, name(command).as_bytes());
            put(space, end, b", which leads on to another")
        }
    }
}

fn put_names(space: &mut [u8], fault: NamesFault) -> usize
    ensures { Filled space.old (names_words fault) space.new result }
{
    let end = put_between(
        space,
        b"the number at place ",
        fault.at as u64,
        b" stands at an earlier place too, or is above ",
    );
    put_number(space, end, HIGHEST_LOCK)
}

// The command's name, and what it names or where it leads.
fn put_command(space: &mut [u8], command: Command) -> usize
    ensures { Filled space.old (command_words command) space.new result }
{
    let end = put(space, 0, name(command).as_bytes());
    match command {
        Command::Stop | Command::Pass => end,
        Command::Take(lock) | Command::Give(lock) => {
            let end = put(space, end, b" names lock ");
            put_number(space, end, u64::from(lock))
        }
        Command::Goto(target) => {
            let end = put(space, end, b" leads to ");
            put_number(space, end, u64::from(target))
        }
        Command::Either(first, second) => {
            let end = put(space, end, b" leads to ");
            let end = put_number(space, end, u64::from(first));
            let end = put(space, end, b" and ");
            put_number(space, end, u64::from(second))
        }
    }
}

fn name(command: Command) -> &'static str
    ensures { result.now ≡ command_name command }
{
    match command {
        Command::Stop => "STOP",
        Command::Pass => "PASS",
        Command::Take(_) => "TAKE",
        Command::Give(_) => "GIVE",
        Command::Goto(_) => "GOTO",
        Command::Either(_, _) => "EITHER",
    }
}
