// Making the room for a verdict.
ghost use Rattle.std.specs.Prelude.{IfOk};
ghost use Rattle.review.specs.SinglePair.{RoomMade};

use crate::entry::VerdictRoom;
use pairs::asking::most_moves;
use readers::listing::Listing;
use runs::scripts::Script;
use search::folders::Room;
use std::alloc::{AllocError, Global};

// Both summaries, and the ask.
const CALLS: usize = 3;

impl VerdictRoom {
    // All memory for a verdict is had here. No shortest schedule has more moves than the list has places.
    pub fn new(heap: Global) -> Result<VerdictRoom, AllocError>
        ensures { IfOk result RoomMade }
    {
        Ok(VerdictRoom {
            left: Listing::new(heap)?,
            right: Listing::new(heap)?,
            left_room: Room::new(heap)?,
            right_room: Room::new(heap)?,
            script: Script::new(heap, CALLS)?,
            list: vec![in heap; 0; most_moves()]?,
        })
    }
}
