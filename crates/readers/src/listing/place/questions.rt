// A listing as a thread graph: the steps of a location are those of its command.
ghost use Rattle.std.specs.Prelude.{◌≡◌, ℕ, ◌<◌, length};
ghost use Rattle.std.specs.List.{slice_get};
ghost use Rattle.readers.specs.Flow.{most};
ghost use Rattle.readers.specs.Graph.{listing_graph, steps_of};
ghost use Rattle.readers.specs.Place.{commands_in};
ghost use Rattle.readers.specs.GraphLaws.{listing_bounded};
ghost use Rattle.readers.specs.FormLaws.{well_formed};

use crate::listing::Command;
use crate::listing::place::Listing;
use graph::ThreadGraph;
use locks::steps::{Kind, Step};

// A thread starts at its first command.
const START: u16 = 0;

impl ThreadGraph for Listing {
    ghost meaning = { λ l. listing_graph (commands_in l) };

    ghost bounded = { λ l. listing_bounded (commands_in l) ((well_formed (commands_in l)).0 l.sound) };

    fn locations(&self) -> u16 {
        // They are 512 at most, so the cast loses nothing.
        self.commands.len() as u16
    }

    fn start(&self) -> u16 {
        START
    }

    fn step_count(&self, location: u16) -> u8 {
        self.command(usize::from(location))
            .map_or(0, Command::step_count)
    }

    fn step(&self, location: u16, choice: u8) -> Option<Step> {
        let command = self.command(usize::from(location))?;
        command.step(location, choice)
    }
}

impl Command {
    fn step_count(self) -> u8
        ensures { (n : ℕ) → result ≡ length (steps_of n self) }
    {
        match self {
            Command::Stop => 0,
            Command::Pass | Command::Take(_) | Command::Give(_) | Command::Goto(_) => 1,
            Command::Either(_, _) => 2,
        }
    }

    fn step(self, location: u16, choice: u8) -> Option<Step>
        requires { location < most }
        ensures { result ≡ slice_get (steps_of location self) choice }
    {
        let next = location + 1;
        let (kind, lock, target) = match (self, choice) {
            (Command::Pass, 0) => (Kind::Plain, 0, next),
            (Command::Take(lock), 0) => (Kind::Take, lock, next),
            (Command::Give(lock), 0) => (Kind::Give, lock, next),
            (Command::Goto(target) | Command::Either(target, _), 0)
            | (Command::Either(_, target), 1) => (Kind::Plain, 0, target),
            _ => return None,
        };
        Some(Step { kind, lock, target })
    }
}
