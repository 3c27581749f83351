// The room that a verdict on one pair takes.
ghost use Rattle.std.specs.Prelude.{◌≡◌, length, vec_items};
ghost use Rattle.pairs.specs.Answers.{longest};
ghost use Rattle.runs.specs.Scripts.{written};

use readers::listing::Listing;
use runs::scripts::Script;
use search::folders::Room;

// Places for two listings, room for two summaries and for three calls, and a list for the moves.
#[derive(Drop)]
pub struct VerdictRoom {
    pub(crate) left: Listing,
    pub(crate) right: Listing,
    pub(crate) left_room: Room,
    pub(crate) right_room: Room,
    pub(crate) script: Script<Listing, Listing>,
    pub(crate) list: Vec<u16>,
    ghost no_calls: { length (written script).calls ≡ 0 },
    ghost three_calls: { (written script).most ≡ 3 },
    ghost every_move: { length (vec_items list) ≡ longest },
}
