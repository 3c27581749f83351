// Which pairs of a review are asked: one that stands there several times, once. Nothing proves that it is just once,
// since nothing but time rests on it.
ghost use Rattle.std.specs.Prelude.{◌≡◌, ◌⊎◌, [], ◌∷◌, ◌++◌, ◌<◌, IfOk, Some, length, vec_items, vec_capacity};
ghost use Rattle.std.specs.List.{slice_get};
ghost use Rattle.review.specs.Picking.{Picks};

use search::threads::Pair;
use std::alloc::{AllocError, Global};

// The pairs that are asked, and for each pair of the review the place of its ask among them.
#[derive(Drop)]
pub(crate) struct Asks {
    pub(crate) pairs: Vec<Pair>,
    pub(crate) places: Vec<usize>,
}

impl Asks {
    // For threads of so many locations.
    pub(crate) fn of(
        heap: Global,
        pairs: &[Pair],
        lefts: u16,
        rights: u16,
    ) -> Result<Asks, AllocError>
        ensures { IfOk result (λ asks. Picks (vec_items asks.pairs) (vec_items asks.places) pairs.now) }
    {
        let mut hints = Hints::new(heap, pairs.len(), lefts, rights)?;
        let mut asked = Vec::with_capacity(heap, pairs.len())?;
        let mut places = Vec::with_capacity(heap, pairs.len())?;
        for pair in pairs {
            places.push_reserved(place_of(*pair, &mut asked, &mut hints));
        }
        Ok(Asks {
            pairs: asked,
            places,
        })
    }
}

// The place of the pair among those that are asked, where it is put if it is new.
fn place_of(pair: Pair, asked: &mut Vec<Pair>, hints: &mut Hints) -> usize
    requires { length asked.old.items < vec_capacity asked.old }
    ensures found { slice_get asked.new.items result ≡ Some pair }
    ensures kept { (asked.new.items ≡ asked.old.items) ⊎ (asked.new.items ≡ asked.old.items ++ pair ∷ []) }
    ensures capacity { vec_capacity asked.new ≡ vec_capacity asked.old }
{
    if let Some(place) = hints.at(pair) {
        if asked.get(place) == Some(&pair) {
            return place;
        }
    }
    let place = asked.len();
    asked.push_reserved(pair);
    hints.note(pair, place);
    place
}

// Where each pair of locations may stand among those that are asked; all pairs with a missing location on one side
// share the place behind its locations. Nothing rests on a hint but time: it is looked at before it is believed.
#[derive(Drop)]
struct Hints {
    lefts: u32,
    rights: u32,
    places: Vec<u16>,
}

impl Hints {
    // A single pair needs none.
    fn new(heap: Global, pairs: usize, lefts: u16, rights: u16) -> Result<Hints, AllocError> {
        let rows = usize::from(lefts) + 1;
        let columns = usize::from(rights) + 1;
        let count = if pairs > 1 {
            rows.saturating_mul(columns)
        } else {
            0
        };
        Ok(Hints {
            lefts: u32::from(lefts),
            rights: u32::from(rights),
            places: vec![in heap; 0; count]?,
        })
    }

    fn at(&self, pair: Pair) -> Option<usize> {
        self.places
            .get(self.index(pair))
            .map(|place| usize::from(*place))
    }

    fn note(&mut self, pair: Pair, place: usize) {
        let index = self.index(pair);
        if let Ok(place) = u16::try_from(place) {
            if index < self.places.len() {
                self.places[index] = place;
            }
        }
    }

    fn index(&self, pair: Pair) -> usize {
        let row = pair.left.min(self.lefts) as usize;
        let column = pair.right.min(self.rights) as usize;
        row.saturating_mul(self.rights as usize + 1)
            .saturating_add(column)
    }
}
