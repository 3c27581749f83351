// Making the place of a listing, and reading a listing into it.
ghost use Rattle.std.specs.Prelude.{◌≡◌, [], ◌∷◌, length, IfOk};
ghost use Rattle.readers.specs.declared.listing.command.Command.TheVariants.{Stop};
ghost use Rattle.readers.specs.contracts.listing.place.questions.ListingThreadGraph.TheImpl.{ghosts as listing_ghosts};
ghost use Rattle.readers.specs.Graph.{listing_graph};
ghost use Rattle.readers.specs.Place.{commands_in, command_at};
ghost use Rattle.readers.specs.Saying.{ListingRead};

use crate::listing::command::MOST_COMMANDS;
use crate::listing::passes::{check, fill};
use crate::listing::place::Listing;
use crate::listing::{Command, ListingFault};
use std::alloc::{AllocError, Global};

impl Listing {
    // All memory is had here. The place begins as the one command STOP.
    pub fn new(heap: Global) -> Result<Listing, AllocError>
        ensures { IfOk result (λ l. commands_in l ≡ Stop ∷ []) }
    {
        let mut commands = Vec::with_capacity(heap, MOST_COMMANDS)?;
        commands.push_reserved(Command::Stop);
        Ok(Listing { commands })
    }

    // The whole input is checked before the place is touched.
    pub fn read(&mut self, bytes: &[u8]) -> Result<(), ListingFault>
        ensures reads { ListingRead bytes.now (commands_in self.old) result (commands_in self.new) }
        ensures graph { listing_ghosts.meaning self.new ≡ listing_graph (commands_in self.new) }
    {
        check(bytes)?;
        fill(&mut self.commands, bytes);
        Ok(())
    }

    pub fn command(&self, n: usize) -> Option<Command>
        ensures { result ≡ command_at (commands_in self.now) n }
    {
        self.commands.get(n).copied()
    }

    pub fn len(&self) -> usize
        ensures { result ≡ length (commands_in self.now) }
    {
        self.commands.len()
    }
}
