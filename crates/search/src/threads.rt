// Two threads side by side.
ghost use Rattle.std.specs.Prelude.{◌≡◌, MatchOption};
ghost use Rattle.locks.specs.Graphs.{Bounded};
ghost use Rattle.locks.specs.Schedules.{from_starts};
ghost use Rattle.search.specs.Folders.{contents};
ghost use Rattle.search.specs.Sides.{SideBySide, side_by_side, BothThere, Missing};

use crate::folders::Folder;
use graph::ThreadGraph;
use locks::together::{Configuration, Side};
use std::marker::Model;

// A location of the left thread and one of the right.
#[derive(Clone, Copy, Debug, PartialEq, Eq)]
pub struct Pair {
    pub left: u32,
    pub right: u32,
}

// The folders of two threads. They may be one folder.
#[derive(Drop)]
pub struct TwoThreads<'f, L: ThreadGraph, R: ThreadGraph> {
    left: &'f Folder<L>,
    right: &'f Folder<R>,
}

impl<'f, L: ThreadGraph, R: ThreadGraph> Model for TwoThreads<'f, L, R> {
    ghost Value = { SideBySide };

    ghost view = { λ t. side_by_side L.ThreadGraph.meaning R.ThreadGraph.meaning (contents t.left.now) (contents t.right.now) };
}

impl<'f, L: ThreadGraph, R: ThreadGraph> TwoThreads<'f, L, R> {
    pub fn new(left: &'f Folder<L>, right: &'f Folder<R>) -> TwoThreads<'f, L, R>
        ensures { result ≡ side_by_side L.ThreadGraph.meaning R.ThreadGraph.meaning (contents left.now) (contents right.now) }
    {
        TwoThreads { left, right }
    }

    pub fn left(&self) -> &'f Folder<L>
        ensures graph { L.ThreadGraph.meaning (contents result.now).graph ≡ self.now.left }
        ensures summary { (contents result.now).summary ≡ self.now.lefts }
        ensures bounded { Bounded self.now.left }
    {
        self.left
    }

    pub fn right(&self) -> &'f Folder<R>
        ensures graph { R.ThreadGraph.meaning (contents result.now).graph ≡ self.now.right }
        ensures summary { (contents result.now).summary ≡ self.now.rights }
        ensures bounded { Bounded self.now.right }
    {
        self.right
    }

    // Both threads at their starts, with all locks free.
    pub fn at_starts(&self) -> Configuration
        ensures { result ≡ from_starts self.now.left self.now.right }
    {
        Configuration::at_starts(self.left.graph().start(), self.right.graph().start())
    }

    // The first side whose graph lacks its location of the pair.
    pub fn missing(&self, pair: Pair) -> Option<Side>
        ensures { MatchOption result (BothThere self.now.left self.now.right pair.left pair.right) (Missing self.now.left self.now.right pair.left pair.right) }
    {
        if pair.left >= u32::from(self.left.graph().locations()) {
            Some(Side::Left)
        } else if pair.right >= u32::from(self.right.graph().locations()) {
            Some(Side::Right)
        } else {
            None
        }
    }
}
