// A review, whatever files it is given: it holds what the last accepted one says.
ghost use Rattle.std.specs.Prelude.{◌≡◌, IfOk, vec_items};
ghost use Rattle.review.specs.Reviews.{review_of, meaning_of, blank, FileRead};

use crate::file::FileFault;
use crate::file::content::Content;
use layers::renamed::Renamed;
use readers::listing::Listing;
use search::threads::Pair;
use std::alloc::{AllocError, Global};
use std::mem;

// A file is read into the spare content, which is shown only if the whole file was fine.
#[derive(Drop)]
pub struct Review {
    shown: Content,
    spare: Content,
}

impl Review {
    // All memory is had here. Both threads begin as one location without steps, and there are no pairs.
    pub fn blank(heap: Global) -> Result<Review, AllocError>
        ensures { IfOk result (λ r. review_of r ≡ blank) }
    {
        Ok(Review {
            shown: Content::blank(heap)?,
            spare: Content::blank(heap)?,
        })
    }

    // Takes what the file says, whatever the review held before. A refusal leaves the review as it was.
    pub fn read(&mut self, file: &[u8]) -> Result<(), FileFault>
        ensures { FileRead file.now (review_of self.old) result (review_of self.new) }
    {
        self.spare.fill(file)?;
        mem::swap(&mut self.shown, &mut self.spare);
        Ok(())
    }

    // The left thread, the right thread, and the pairs.
    pub fn into_parts(self) -> (Listing, Renamed<Listing>, Vec<Pair>)
        ensures { meaning_of result.0 result.1 (vec_items result.2) ≡ review_of self }
    {
        (self.shown.left, self.shown.right, self.shown.pairs)
    }
}
