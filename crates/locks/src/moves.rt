// Moves of a schedule.
ghost use Rattle.std.specs.Prelude.{◌≡◌, Some};
ghost use Rattle.locks.specs.Moves.{number_of, Names, MovesHaveTheirNumbers};
ghost use Rattle.locks.specs.Printed.{move_text};

use crate::steps::MOST_STEPS;
use crate::together::Side;
use std::fmt;

// The number of the right thread's first move.
pub const FIRST_RIGHT: u16 = 256;

const LAST_CHOICE: u16 = MOST_STEPS as u16 - 1;

const LAST_RIGHT: u16 = FIRST_RIGHT + LAST_CHOICE;

// One step of one thread: step `choice` at the location where that thread now is.
#[derive(Clone, Copy, Debug, PartialEq, Eq)]
pub struct Move {
    pub side: Side,
    pub choice: u8,
}

// A number that names no move.
#[derive(Clone, Copy, Debug, PartialEq, Eq)]
pub struct NoMove(pub u16);

// The move that has this number: c for the left thread, 256 + c for the right, c from 0 to 15.
impl TryFrom<u16> for Move {
    type Error = NoMove;

    ghost try_from_gives = { Names };

    fn try_from(number: u16) -> Result<Move, NoMove> {
        let (side, choice) = match number {
            0..=LAST_CHOICE => (Side::Left, number),
            FIRST_RIGHT..=LAST_RIGHT => (Side::Right, number - FIRST_RIGHT),
            _ => return Err(NoMove(number)),
        };
        Ok(Move {
            side,
            choice: choice as u8,
        })
    }
}

impl From<Move> for u16 {
    ghost from_gives = { λ chosen number. number ≡ number_of chosen.side chosen.choice };

    fn from(chosen: Move) -> u16 {
        let choice = u16::from(chosen.choice);
        match chosen.side {
            Side::Left => choice,
            Side::Right => FIRST_RIGHT + choice,
        }
    }
}

// A letter for the thread, and the choice.
impl fmt::Display for Move {
    ghost output = { λ chosen. Some (move_text chosen) };

    fn fmt<W: fmt::Write>(&self, f: &mut fmt::Formatter<W>) -> fmt::Result {
        let letter = match self.side {
            Side::Left => "L",
            Side::Right => "R",
        };
        write!(f, "{letter}{}", self.choice)
    }
}

// A number names a move exactly when it is that move's number.
pub fn moves_have_their_numbers()
    ensures { MovesHaveTheirNumbers }
{}
