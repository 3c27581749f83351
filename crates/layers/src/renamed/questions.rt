// A renamed graph as a thread graph: the graph beneath is asked, and the lock of a step is renamed.
ghost use Rattle.std.specs.Prelude.{◌≡◌};
ghost use Rattle.layers.specs.Naming.{numbers_in};
ghost use Rattle.layers.specs.Renaming.{renamed_step, renamed_graph};
ghost use Rattle.layers.specs.RenamingLaws.{renamed_bounded};

use crate::names::Names;
use crate::renamed::Renamed;
use graph::ThreadGraph;
use locks::steps::{Kind, Step};

impl<G: ThreadGraph> ThreadGraph for Renamed<G> {
    ghost meaning = { λ r. renamed_graph (numbers_in r.names) (G.meaning r.graph) };

    ghost bounded = { λ r. renamed_bounded (numbers_in r.names) (G.meaning r.graph) r.names.each_once (G.bounded r.graph) };

    fn locations(&self) -> u16 {
        self.graph.locations()
    }

    fn start(&self) -> u16 {
        self.graph.start()
    }

    fn step_count(&self, location: u16) -> u8 {
        self.graph.step_count(location)
    }

    fn step(&self, location: u16, choice: u8) -> Option<Step> {
        let step = self.graph.step(location, choice)?;
        Some(self.names.renamed(step))
    }
}

impl Names {
    // A plain step has no lock to rename.
    fn renamed(self, step: Step) -> Step
        ensures { result ≡ renamed_step (numbers_in self) step }
    {
        let lock = match step.kind {
            Kind::Plain => step.lock,
            Kind::Take | Kind::Give => self.number(step.lock),
        };
        Step { lock, ..step }
    }
}
