// What the answers about the pairs say, as lines.
ghost use Rattle.std.specs.Prelude.{◌≡◌, ◌<◌, IfOk, length, vec_items};
ghost use Rattle.std.specs.List.{All};
ghost use Rattle.review.specs.Picking.{Picks};
ghost use Rattle.review.specs.Telling.{Tells, AllTell};

use crate::lines::Line;
use layers::renamed::Renamed;
use pairs::answers::Verdict;
use readers::listing::Listing;
use runs::calls::Answer;
use search::threads::Pair;
use std::alloc::{AllocError, Global};

pub(crate) type Right = Renamed<Listing>;

// What became of each pair, from the answers to its asks.
pub(crate) fn lines<'a>(
    heap: Global,
    pairs: &[Pair],
    answers: &'a [Answer<Listing, Right>],
) -> Result<Vec<Line<'a>>, AllocError>
    requires { length pairs.now ≡ length answers.now }
    ensures tell { IfOk result (λ lines. AllTell pairs.now answers.now (vec_items lines)) }
    ensures len { IfOk result (λ lines. length (vec_items lines) ≡ length pairs.now) }
{
    let mut lines = Vec::with_capacity(heap, pairs.len())?;
    for (place, pair) in pairs.iter().enumerate() {
        lines.push_reserved(line_of(*pair, &answers[place]));
    }
    Ok(lines)
}

// The lines at these places.
pub(crate) fn picked<'a>(
    heap: Global,
    lines: &[Line<'a>],
    places: &[usize],
) -> Result<Vec<Line<'a>>, AllocError>
    requires { All (λ n. n < length lines.now) places.now }
    ensures { IfOk result (λ picked. Picks lines.now places.now (vec_items picked)) }
{
    let mut picked = Vec::with_capacity(heap, places.len())?;
    for place in places {
        picked.push_reserved(lines[*place]);
    }
    Ok(picked)
}

fn line_of<'a>(pair: Pair, answer: &'a Answer<Listing, Right>) -> Line<'a>
    ensures { Tells pair answer.now result }
{
    match answer {
        Answer::Asked(Ok(Verdict::Reached(count)), list) => Line::Reached {
            pair,
            moves: &list[..list.len().min(*count)],
        },
        Answer::Asked(Ok(Verdict::Never), _) => Line::Never { pair },
        _ => Line::Missing { pair },
    }
}
