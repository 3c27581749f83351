// Making the room for a file's content, and reading a whole file into it.
ghost use Rattle.std.specs.Prelude.{◌≡◌, ◌<◌, length, IfOk};
ghost use Rattle.review.specs.Entering.{Emptied, Entered};
ghost use Rattle.review.specs.Limits.{most_pairs};
ghost use Rattle.review.specs.Reviews.{content_of, blank, filled, FileSays};

use crate::file::content::Content;
use crate::file::{FileFault, MOST_BYTES, Reader, Section};
use layers::names::Names;
use layers::renamed::Renamed;
use readers::listing::Listing;
use search::threads::Pair;
use std::alloc::{AllocError, Global};

// No file has more pairs than this: each takes five bytes.
const MOST_PAIRS: usize = MOST_BYTES / 5 + 1;

impl Content {
    // Both threads begin as one location without steps, and there are no pairs.
    pub(crate) fn blank(heap: Global) -> Result<Content, AllocError>
        ensures { IfOk result (λ c. content_of c ≡ blank) }
    {
        Ok(Content {
            left: Listing::new(heap)?,
            right: Renamed::new(Listing::new(heap)?),
            pairs: Vec::with_capacity(heap, MOST_PAIRS)?,
        })
    }

    // Fills this with what the file says, whatever it held before. After a fault it holds what was read before it.
    pub(crate) fn fill(&mut self, file: &[u8]) -> Result<(), FileFault>
        ensures { FileSays file.now (filled result (content_of self.new)) }
    {
        self.empty();
        let mut reader = Reader::new(file)?;
        while let Some(section) = reader.next_section()? {
            self.enter(section)?;
        }
        Ok(())
    }

    // No pairs, and names in order; the listings are read anew in any case.
    fn empty(&mut self)
        ensures { Emptied (content_of self.new) }
    {
        self.right.names = Names::new();
        self.pairs.clear();
    }

    fn enter(&mut self, section: Section) -> Result<(), FileFault>
        requires { length (content_of self.old).pairs < most_pairs }
        ensures { Entered section.entry (content_of self.old) result (content_of self.new) }
    {
        match section {
            Section::Left { bytes, place } => self
                .left
                .read(bytes)
                .map_err(|fault| FileFault::InLeft { fault, place }),
            Section::Right { bytes, place } => self
                .right
                .graph
                .read(bytes)
                .map_err(|fault| FileFault::InRight { fault, place }),
            Section::Rename { numbers, place } => {
                let names = &mut self.right.names;
                names
                    .set(*numbers)
                    .map_err(|fault| FileFault::InNames { fault, place })
            }
            Section::Pair { left, right } => {
                self.pairs.push_reserved(Pair {
                    left: u32::from(left),
                    right: u32::from(right),
                });
                Ok(())
            }
            Section::End => Ok(()),
        }
    }
}
