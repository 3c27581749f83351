// The replay of a schedule.
ghost use Rattle.std.specs.Prelude.{◌≡◌};
ghost use Rattle.search.specs.Replaying.{replay_refusal, MovesSay, ReplaySays, Replayed};

use crate::playing::MoveFault;
use crate::threads::{Pair, TwoThreads};
use graph::ThreadGraph;
use locks::refusals::{Part, Refusal};
use locks::together::{Configuration, Side};

// Why a schedule does not replay to a pair of locations.
#[derive(Clone, Copy, Debug, PartialEq, Eq)]
pub enum ReplayFault {
    // This side's graph has no such location.
    NoLocation(Side),
    // The move at this place cannot be made.
    Fails(MoveFault, usize),
    // Every move was made, as many as this, and the threads are not at the pair.
    EndsElsewhere(usize),
}

impl From<ReplayFault> for Refusal {
    ghost from_gives = { λ fault refusal. refusal ≡ replay_refusal fault };

    fn from(fault: ReplayFault) -> Refusal {
        let (number, place) = match fault {
            ReplayFault::NoLocation(side) => (17, usize::from(side)),
            ReplayFault::Fails(MoveFault::NoStep, place) => (19, place),
            ReplayFault::Fails(MoveFault::CannotBeTaken, place) => (20, place),
            ReplayFault::EndsElsewhere(moves) => (21, moves),
        };
        Refusal {
            number,
            place,
            part: Part::Replay,
        }
    }
}

impl ReplayFault {
    pub fn refusal(self) -> Refusal
        ensures { result ≡ replay_refusal self }
    {
        Refusal::from(self)
    }
}

impl<'f, L: ThreadGraph, R: ThreadGraph> TwoThreads<'f, L, R> {
    // Whether the schedule replays to the pair, or why not. It needs no summary and changes nothing.
    pub fn replay(&self, pair: Pair, moves: &[u16]) -> Result<(), ReplayFault>
        ensures { Replayed self.now.left self.now.right pair.left pair.right moves.now result }
    {
        self.answer(pair, moves)
    }

    // The answer by its own condition; that no other answer's condition holds is added once, above.
    fn answer(&self, pair: Pair, moves: &[u16]) -> Result<(), ReplayFault>
        ensures { ReplaySays self.now.left self.now.right pair.left pair.right moves.now result }
    {
        if let Some(side) = self.missing(pair) {
            return Err(ReplayFault::NoLocation(side));
        }
        let last = self.make_moves(moves)?;
        if u32::from(last.left.location) == pair.left
            && u32::from(last.right.location) == pair.right
        {
            Ok(())
        } else {
            Err(ReplayFault::EndsElsewhere(moves.len()))
        }
    }

    // The configuration to which the moves lead from both starts, or the first that cannot be made.
    fn make_moves(&self, moves: &[u16]) -> Result<Configuration, ReplayFault>
        ensures { MovesSay self.now.left self.now.right moves.now result }
    {
        let mut reached = self.at_starts();
        for (place, number) in moves.iter().enumerate() {
            reached = self
                .make_move(&reached, *number)
                .map_err(|fault| ReplayFault::Fails(fault, place))?;
        }
        Ok(reached)
    }
}
