// The room for what one file says.
mod filling;

ghost use Rattle.std.specs.Prelude.{◌≤◌, vec_capacity};
ghost use Rattle.review.specs.Limits.{most_pairs};

use layers::renamed::Renamed;
use readers::listing::Listing;
use search::threads::Pair;

// Two threads and the pairs to be judged. The right thread is renamed, by names in order where the file has no RENAME.
#[derive(Drop)]
pub(crate) struct Content {
    pub(crate) left: Listing,
    pub(crate) right: Renamed<Listing>,
    pub(crate) pairs: Vec<Pair>,
    ghost room: { most_pairs ≤ vec_capacity pairs },
}
