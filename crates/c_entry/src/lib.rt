// The entry for C programs.
#![tactic(auto)]

ghost use Rattle.std.specs.Prelude.{◌≡◌, ◌≢◌};
ghost use Rattle.c_entry.specs.CNumbers.{c_number, no_memory, ByRoom, CAnswers, FewMoves};

#[cfg(test)]
mod tests;

use locks::refusals::Refusal;
use pairs::answers::Verdict;
use review::entry::{VerdictRoom, verdict};
use search::threads::Pair;
use std::alloc::{AllocError, Global};

// The answer where the call is out of memory, which no refusal is.
const NO_MEMORY: i64 = i64::MIN;

// Of two listings and a pair: the count of moves, -1 for never, or -(100 + number) for a refusal. The moves go to the
// front of the run, two bytes each, the higher first. In C a slice is a pointer and a length, and the heap is nothing.
#[unsafe(no_mangle)]
pub extern "C" fn pair_verdict_entry(
    left: &[u8],
    right: &[u8],
    left_location: u32,
    right_location: u32,
    moves: &mut [u8],
    heap: Global,
) -> i64
    ensures { CAnswers left.now right.now left_location right_location moves.old result moves.new }
{
    let pair = Pair {
        left: left_location,
        right: right_location,
    };
    answer(VerdictRoom::new(heap), left, right, pair, moves)
}

// Once the room is there memory is never out.
fn answer(
    room: Result<VerdictRoom, AllocError>,
    left: &[u8],
    right: &[u8],
    pair: Pair,
    moves: &mut [u8],
) -> i64
    ensures { ByRoom room left.now right.now pair moves.old result moves.new }
{
    match room {
        Ok(room) => number(verdict(room, left, right, pair, moves)),
        Err(_) => NO_MEMORY,
    }
}

fn number(answer: Result<Verdict, Refusal>) -> i64
    requires { FewMoves answer }
    ensures value { result ≡ c_number answer }
    ensures told { result ≢ no_memory }
{
    match answer {
        Ok(Verdict::Reached(count)) => count as i64,
        Ok(Verdict::Never) => -1,
        Err(refusal) => -100 - i64::from(refusal.number),
    }
}
