// One move of two threads, in any configuration.
ghost use Rattle.std.specs.Prelude.{◌≡◌, true, Some};
ghost use Rattle.locks.specs.Alone.{step_known};
ghost use Rattle.locks.specs.declared.steps.Step.{Step};
ghost use Rattle.locks.specs.Graphs.{step_at};
ghost use Rattle.locks.specs.Schedules.{graph_of};
ghost use Rattle.locks.specs.Together.{position_of};
ghost use Rattle.search.specs.Playing.{Made};

use crate::threads::TwoThreads;
use graph::ThreadGraph;
use locks::moves::Move;
use locks::steps::Step;
use locks::together::{Configuration, Side};

// Why a move cannot be made.
#[derive(Clone, Copy, Debug, PartialEq, Eq)]
pub enum MoveFault {
    // The number names no move, or the move no step.
    NoStep,
    // The step is there and cannot be taken.
    CannotBeTaken,
}

impl<'f, L: ThreadGraph, R: ThreadGraph> TwoThreads<'f, L, R> {
    // What the move with this number makes of a configuration.
    pub fn make_move(&self, from: &Configuration, number: u16) -> Result<Configuration, MoveFault>
        ensures { Made self.now.left self.now.right from.now number result }
    {
        let chosen = Move::try_from(number).map_err(|_| MoveFault::NoStep)?;
        let step = self.chosen_step(from, chosen).ok_or(MoveFault::NoStep)?;
        from.advance(chosen.side, step)
            .ok_or(MoveFault::CannotBeTaken)
    }

    // The step that a move names, where its thread is. An arm for each side: the two graphs differ in type.
    fn chosen_step(&self, from: &Configuration, chosen: Move) -> Option<Step>
        ensures value { result ≡ step_at (graph_of chosen.side self.now.left self.now.right) (position_of chosen.side from.now).location chosen.choice }
        ensures known { (s : Step) → result ≡ Some s → step_known s ≡ true }
    {
        match chosen.side {
            Side::Left => self.left().graph().step(from.left.location, chosen.choice),
            Side::Right => self
                .right()
                .graph()
                .step(from.right.location, chosen.choice),
        }
    }
}
