// Writing a line into lent space.
ghost use Rattle.std.specs.Prelude.{◌≡◌, length};
ghost use Rattle.review.specs.Limits.{counted};
ghost use Rattle.review.specs.Lines.{pair_text, reached_text, missing_number, missing_text, refused_text, line_text, Filled, LineWritten};

use crate::file::Within;
use crate::lines::putting::{put, put_moves, put_number};
use crate::lines::{Line, LineFault};
use locks::together::Side;
use pairs::answers::AskFault;
use search::threads::Pair;

impl Line<'_> {
    // Into the front of the space, with its newline; answers how many bytes it took. The rest of the space stays, and
    // all of it where the line does not fit.
    pub fn write(&self, space: &mut [u8]) -> Result<usize, LineFault>
        ensures { LineWritten (line_text self.now) space.old result space.new }
    {
        let needed = self.len();
        if needed > space.len() {
            return Err(LineFault { needed });
        }
        Ok(self.put_in(space))
    }

    // How many bytes it takes, or the largest number where they are more than can be counted.
    pub(crate) fn len(&self) -> usize
        ensures { result ≡ counted (length (line_text self.now)) }
    {
        self.put_in(&mut [])
    }

    fn put_in(&self, space: &mut [u8]) -> usize
        ensures { Filled space.old (line_text self.now) space.new result }
    {
        let end = match *self {
            Line::Reached { pair, moves } => put_reached(space, pair, moves),
            Line::Never { pair } => {
                let end = put_pair(space, pair);
                put(space, end, b"never")
            }
            Line::Missing { pair } => put_missing(space, pair),
            Line::Refused {
                number,
                place,
                within,
            } => put_refused(space, number, place, within),
        };
        put(space, end, b"\n")
    }
}

fn put_reached(space: &mut [u8], pair: Pair, moves: &[u16]) -> usize
    ensures { Filled space.old (reached_text pair moves.now) space.new result }
{
    let end = put_pair(space, pair);
    let end = put(space, end, b"reached ");
    let end = put_number(space, end, moves.len() as u64);
    let end = put(space, end, b":");
    put_moves(space, end, moves)
}

fn put_missing(space: &mut [u8], pair: Pair) -> usize
    ensures { Filled space.old (missing_text pair) space.new result }
{
    let end = put_pair(space, pair);
    let end = put(space, end, b"refused ");
    put_number(space, end, u64::from(missing_number()))
}

// The number of the refusal of a pair for a missing location, which is the same on both sides.
fn missing_number() -> u8
    ensures { result ≡ missing_number }
{
    AskFault::NoLocation(Side::Left).refusal().number
}

fn put_refused(space: &mut [u8], number: u8, place: usize, within: Within) -> usize
    ensures { Filled space.old (refused_text number place within) space.new result }
{
    let end = put(space, 0, b"refused ");
    let end = put_number(space, end, u64::from(number));
    let end = put(space, end, b" at ");
    let end = put_number(space, end, place as u64);
    let end = put(space, end, b" in ");
    put(space, end, within.name().as_bytes())
}

// Both locations, each with a space behind it.
fn put_pair(space: &mut [u8], pair: Pair) -> usize
    ensures { Filled space.old (pair_text pair) space.new result }
{
    let end = put_number(space, 0, u64::from(pair.left));
    let end = put(space, end, b" ");
    let end = put_number(space, end, u64::from(pair.right));
    put(space, end, b" ")
}
