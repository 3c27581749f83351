// The lines of a report.
use crate::file::Within;
use search::threads::Pair;

// What became of a pair, or why a review is refused.
#[derive(Clone, Copy, Debug)]
pub enum Line<'m> {
    // With the moves of a schedule; any number may stand among them.
    Reached {
        pair: Pair,
        moves: &'m [u16],
    },
    Never {
        pair: Pair,
    },
    // A location of the pair is not in its graph.
    Missing {
        pair: Pair,
    },
    // With the number and the place of the refusal.
    Refused {
        number: u8,
        place: usize,
        within: Within,
    },
}
