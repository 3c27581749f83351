// What can be wrong with the text of a task, and where.
ghost use Rattle.std.specs.Prelude.{◌≡◌, Some};
ghost use Rattle.task.specs.Faults.{fault_text, phrase};

use std::error::Error;
use std::fmt;

#[derive(Clone, Copy, PartialEq, Eq, Debug)]
pub enum Wrong {
    // The text ends where this line must begin.
    Missing,
    // The line does not begin with its word, followed by a space or its end.
    Keyword,
    // An item of a listing is not two hexadecimal digits.
    Byte,
    // Not just two numbers, or one that is malformed or too large.
    Number,
    // A move that is malformed or too large.
    Move,
    // A 4097th byte or move.
    TooMany,
    // Something follows the fourth line.
    Surplus,
}

// The first fault of a text: its line, counted from 1, and what is wrong there.
#[derive(Clone, Copy, PartialEq, Eq, Debug)]
pub struct TextFault {
    pub line: u8,
    pub wrong: Wrong,
}

impl Wrong {
    pub fn what(self) -> &'static str
        ensures { result.now ≡ phrase self }
    {
        match self {
            Wrong::Missing => "the text ends before this line",
            Wrong::Keyword => "the line does not begin with its word",
            Wrong::Byte => "a byte is not two hexadecimal digits",
            Wrong::Number => "not two numbers below 4294967296",
            Wrong::Move => "a move is not L or R with its number",
            Wrong::TooMany => "more than 4096 items",
            Wrong::Surplus => "there is text after the fourth line",
        }
    }

    pub(crate) fn at(self, line: u8) -> TextFault
        ensures { result ≡ record { line = line; wrong = self } }
    {
        TextFault { line, wrong: self }
    }
}

impl fmt::Display for Wrong {
    ghost output = { λ wrong. Some (phrase wrong) };

    fn fmt<W: fmt::Write>(&self, f: &mut fmt::Formatter<W>) -> fmt::Result {
        f.write_str(self.what())
    }
}

impl Error for Wrong {}

impl fmt::Display for TextFault {
    ghost output = { λ fault. Some (fault_text fault) };

    fn fmt<W: fmt::Write>(&self, f: &mut fmt::Formatter<W>) -> fmt::Result {
        let TextFault { line, wrong } = self;
        write!(f, "line {line}: {wrong}")
    }
}

impl Error for TextFault {}
