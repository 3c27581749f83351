// What a renaming is, apart from how it is done.
ghost use Rattle.std.specs.Prelude.{◌≡◌};
ghost use Rattle.layers.specs.Naming.{numbers_in};
ghost use Rattle.layers.specs.Renaming.{renamed_graph, RenamingChangesLocksAlone};

use crate::renamed::Renamed;
use graph::ThreadGraph;

// A renamed graph means the renamed meaning of the graph beneath, whatever kind that is of.
pub fn renamed_graphs_mean_what_is_renamed<G: ThreadGraph>()
    ensures { (r : Renamed G) → ⟦<Renamed<G> as ThreadGraph>⟧.meaning r ≡ renamed_graph (numbers_in r.names) (G.meaning r.graph) }
{}

pub fn renaming_changes_locks_alone()
    ensures { RenamingChangesLocksAlone }
{}
