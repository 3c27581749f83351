// A list of at most 4096 items, in memory that is reserved once.
ghost use Rattle.std.specs.Prelude.{◌≡◌, ◌<◌, ◌≤◌, [], ◌∷◌, ◌++◌, length, IfOk, MatchResult};

use crate::fault::Wrong;
use std::alloc::{AllocError, Global};
use std::marker::Model;

// The most bytes of a listing, and the most moves.
const ROOM: usize = 4096;

#[derive(Drop)]
pub(crate) struct Items<T> {
    list: Vec<T>,
}

// Clauses see the items, in their order.
impl<T> Model for Items<T> {
    ghost use Rattle.std.specs.Prelude.{List};
    ghost use Rattle.task.specs.Room.{Reserved};

    ghost Value = { List T };

    ghost view = { λ s. s.list.items };

    ghost invariant = { λ s. Reserved s.list };
}

impl<T: Drop> Items<T> {
    pub(crate) fn new(heap: Global) -> Result<Items<T>, AllocError>
        ensures { IfOk result (λ items. items ≡ []) }
    {
        Ok(Items {
            list: Vec::with_capacity(heap, ROOM)?,
        })
    }

    pub(crate) fn clear(&mut self)
        ensures { self.new ≡ [] }
    {
        self.list.clear();
    }

    pub(crate) fn push(&mut self, item: T) -> Result<(), Wrong>
        ensures { MatchResult result
            (λ _. (length self.old < 4096) × (self.new ≡ self.old ++ item ∷ []))
            (λ wrong. (4096 ≤ length self.old) × (wrong ≡ Wrong.TooMany) × (self.new ≡ self.old)) }
    {
        if self.list.len() >= ROOM {
            return Err(Wrong::TooMany);
        }
        self.list.push_reserved(item);
        Ok(())
    }

    pub(crate) fn as_slice(&self) -> &[T]
        ensures value { result.now ≡ self.now }
        ensures bound { length result.now ≤ 4096 }
    {
        self.list.as_slice()
    }
}
