// What reading means, apart from how it is done.
ghost use Rattle.std.specs.Prelude.{◌≡◌};
ghost use Rattle.readers.specs.contracts.listing.place.questions.ListingThreadGraph.TheImpl.{ghosts as listing_ghosts};
ghost use Rattle.readers.specs.Graph.{listing_graph};
ghost use Rattle.readers.specs.Place.{commands_in};
ghost use Rattle.readers.specs.Saying.{BytesSayOneListing};

use crate::listing::Listing;

// All bytes are a well-formed run of commands, written one after another, or there is a reason to refuse them; and there is one such run or reason only.
pub fn bytes_say_one_listing()
    ensures { BytesSayOneListing }
{}

// What a listing's place means as a thread graph is what its commands mean.
pub fn listings_mean_their_commands()
    ensures { (l : Listing) → listing_ghosts.meaning l ≡ listing_graph (commands_in l) }
{}
