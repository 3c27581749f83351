// Opening a file, and taking the next section off it.
ghost use Rattle.review.specs.Readers.{standing, Opens, HandsOut};

use crate::file::reader::Reader;
use crate::file::taking::{Wrong, take};
use crate::file::{FileFault, MOST_BYTES, Phase, Section};

impl<'f> Reader<'f> {
    // The size is judged before anything is looked into.
    pub fn new(file: &'f [u8]) -> Result<Reader<'f>, FileFault>
        ensures { Opens file.now result }
    {
        if file.len() > MOST_BYTES {
            return Err(FileFault::TooLong);
        }
        Ok(Reader {
            rest: file,
            size: file.len(),
            phase: Phase::BeforeLeft,
        })
    }

    // The next section, or nothing behind END. A fault leaves the reader where it stands.
    pub fn next_section(&mut self) -> Result<Option<Section<'f>>, FileFault>
        ensures { HandsOut (standing self.old) result (standing self.new) }
    {
        if self.rest.is_empty() && self.phase == Phase::AfterEnd {
            return Ok(None);
        }
        let at = self.size - self.rest.len();
        match take(self.phase, self.rest, at) {
            Ok((section, rest)) => {
                self.rest = rest;
                self.phase = Phase::after(&section);
                Ok(Some(section))
            }
            Err(Wrong::NotAllowed) => Err(FileFault::NotAllowed { at }),
            Err(Wrong::EndsEarly) => Err(FileFault::EndsEarly { at: self.size }),
        }
    }
}
