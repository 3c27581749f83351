// Thread graphs: every kind of graph answers the same four questions.
#![tactic(auto)]

ghost use Rattle.std.specs.Prelude.{length, ◌≡◌};
ghost use Rattle.locks.specs.Graphs.{Graph, Bounded, locations, steps_at, step_at};

use locks::steps::Step;

// How many locations a graph may have.
pub const MOST_LOCATIONS: usize = 512;

pub trait ThreadGraph {
    // what the graph means: its start, and the steps of each location
    ghost meaning: { Self → Graph };

    fn locations(&self) -> u16
        ensures { result ≡ locations (meaning self.now) };

    fn start(&self) -> u16
        ensures { result ≡ (meaning self.now).start };

    // How many steps the location has: none where the graph has no such location.
    fn step_count(&self, location: u16) -> u8
        ensures { result ≡ length (steps_at (meaning self.now) location) };

    // The step with this number, if there is one.
    fn step(&self, location: u16, choice: u8) -> Option<Step>
        ensures { result ≡ step_at (meaning self.now) location choice };

    ghost bounded: { (g : Self) → Bounded (meaning g) };
}
