// A graph whose locks are renamed.
mod laws;
mod questions;

ghost use Rattle.std.specs.Prelude.{◌≡◌};
ghost use Rattle.layers.specs.Naming.{numbers_in};
ghost use Rattle.layers.specs.Numbers.{in_order};

use crate::names::Names;
pub use laws::{renamed_graphs_mean_what_is_renamed, renaming_changes_locks_alone};

// The graph beneath, with the number of each lock in place of the lock. Both parts may be changed at any time.
#[derive(Drop)]
pub struct Renamed<G> {
    pub graph: G,
    pub names: Names,
}

impl<G> Renamed<G> {
    // Each lock has its own number at first.
    pub fn new(graph: G) -> Renamed<G>
        ensures graph { result.graph ≡ graph }
        ensures names { numbers_in result.names ≡ in_order }
    {
        Renamed {
            graph,
            names: Names::new(),
        }
    }
}
