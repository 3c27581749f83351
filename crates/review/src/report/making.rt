// A whole file's report: what is read, asked and told.
ghost use Rattle.std.specs.Prelude.{◌≡◌, ◌+◌, ◌<◌, length, vec_items};
ghost use Rattle.std.specs.List.{All};
ghost use Rattle.review.specs.Reports.{left_graph, right_graph, as_text, OutOfMemoryOr, ReviewAnswers, Reported};
ghost use Rattle.review.specs.Reviews.{review_of};
ghost use Rattle.review.specs.Telling.{Told};

use crate::asking::{script, summary};
use crate::file::Review;
use crate::report::ReportError;
use crate::report::asks::Asks;
use crate::report::joining::joined;
use crate::report::telling::{Right, lines, picked};
use graph::ThreadGraph;
use locks::together::Side;
use pairs::asking::most_moves;
use readers::listing::Listing;
use runs::calls::Answer;
use runs::running::run;
use search::folders::Room;
use std::alloc::Global;

// A line for each pair, or the fault of the file or else of a summary, the left one first.
pub fn report(heap: Global, file: &[u8]) -> Result<Vec<u8>, ReportError>
    ensures { Reported file.now (as_text vec_items result) }
{
    let mut review = Review::blank(heap)?;
    review.read(file)?;
    judge(heap, review)
}

fn judge(heap: Global, review: Review) -> Result<Vec<u8>, ReportError>
    ensures { let r = as_text vec_items result in OutOfMemoryOr r (ReviewAnswers (left_graph (review_of review)) (right_graph (review_of review)) (review_of review).pairs r) }
{
    let (left, right, pairs) = review.into_parts();
    let asks = Asks::of(heap, &pairs, left.locations(), right.locations())?;
    let script = script(heap, &asks.pairs, most_moves())?;
    let ran = run(Room::new(heap)?, Room::new(heap)?, left, right, script);
    tell(heap, &asks, &ran.answers)
}

// The fault of a summary, the left one first, or what became of each pair.
fn tell(
    heap: Global,
    asks: &Asks,
    answers: &[Answer<Listing, Right>],
) -> Result<Vec<u8>, ReportError>
    requires as_many { length answers.now ≡ length asks.now.pairs.items + 2 }
    requires within { All (λ n. n < length asks.now.pairs.items) asks.now.places.items }
    ensures { let r = as_text vec_items result in OutOfMemoryOr r (Told asks.now.pairs.items asks.now.places.items answers.now r) }
{
    if let Err(fault) = summary(answers, 0) {
        return Err(ReportError::Summary {
            side: Side::Left,
            fault,
        });
    }
    if let Err(fault) = summary(answers, 1) {
        return Err(ReportError::Summary {
            side: Side::Right,
            fault,
        });
    }
    let lines = lines(heap, &asks.pairs, &answers[2..])?;
    let text = joined(heap, &picked(heap, &lines, &asks.places)?)?;
    Ok(text)
}
