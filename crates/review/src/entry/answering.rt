// Whether both locations of a pair can be occupied at one time, from the bytes of two listings on.
ghost use Rattle.readers.specs.Graph.{listing_graph};
ghost use Rattle.readers.specs.Place.{commands_in};
ghost use Rattle.review.specs.SinglePair.{Ran, ListingsSay, GraphsSay};

use crate::asking::{add_ask, add_summaries, summary};
use crate::entry::VerdictRoom;
use crate::entry::moves::write_moves;
use locks::refusals::Refusal;
use pairs::answers::Verdict;
use readers::listing::Listing;
use runs::calls::Answer;
use runs::running::run;
use search::threads::Pair;

// The verdict, or the refusal of the left listing, the right listing, a summary, the left one first, or the ask. The
// moves of a schedule go to the front of the run, two bytes each, the higher first; it has room for half as many as it
// has bytes. The rest of it stays, and all of it on any other answer.
pub fn verdict(
    mut room: VerdictRoom,
    left: &[u8],
    right: &[u8],
    pair: Pair,
    moves: &mut [u8],
) -> Result<Verdict, Refusal>
    ensures { ListingsSay left.now right.now pair moves.old result moves.new }
{
    room.left.read(left)?;
    room.right.read(right)?;
    judge(room, pair, moves)
}

fn judge(room: VerdictRoom, pair: Pair, moves: &mut [u8]) -> Result<Verdict, Refusal>
    ensures { GraphsSay (listing_graph (commands_in room.left)) (listing_graph (commands_in room.right)) pair moves.old result moves.new }
{
    let VerdictRoom {
        left,
        right,
        left_room,
        right_room,
        mut script,
        mut list,
    } = room;
    list.truncate(moves.len() / 2);
    add_summaries(&mut script);
    add_ask(&mut script, pair, list);
    let ran = run(left_room, right_room, left, right, script);
    tell(&ran.answers, moves)
}

// What the answers to both summaries and the ask say.
fn tell(answers: &[Answer<Listing, Listing>], moves: &mut [u8]) -> Result<Verdict, Refusal>
    ensures { Ran answers.now moves.old result moves.new }
{
    summary(answers, 0)?;
    summary(answers, 1)?;
    match answers.get(2) {
        Some(Answer::Asked(Ok(Verdict::Reached(count)), list)) => {
            let written = list.len().min(*count).min(moves.len() / 2);
            write_moves(moves, &list[..written]);
            Ok(Verdict::Reached(*count))
        }
        Some(Answer::Asked(Err(fault), _)) => Err(fault.refusal()),
        _ => Ok(Verdict::Never),
    }
}
