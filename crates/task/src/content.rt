// The lists and numbers of one task.
ghost use Rattle.std.specs.Prelude.{◌≡◌, IfOk};
ghost use Rattle.task.specs.Contents.{content_of, empty};

use crate::items::Items;
use std::alloc::{AllocError, Global};

#[derive(Drop)]
pub(crate) struct Content {
    pub(crate) left: Items<u8>,
    pub(crate) right: Items<u8>,
    pub(crate) left_location: u32,
    pub(crate) right_location: u32,
    pub(crate) moves: Items<u16>,
}

impl Content {
    pub(crate) fn new(heap: Global) -> Result<Content, AllocError>
        ensures { IfOk result (λ c. content_of c ≡ empty) }
    {
        Ok(Content {
            left: Items::new(heap)?,
            right: Items::new(heap)?,
            left_location: 0,
            right_location: 0,
            moves: Items::new(heap)?,
        })
    }
}
