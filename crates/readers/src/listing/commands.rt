// The commands of some bytes, front to back, each with its offset.
ghost use Rattle.std.specs.Prelude.{◌≡◌, ◌+◌, ◌<◌, ◌^◌, length};

use crate::listing::scan::next_command;
use crate::listing::{Command, ListingFault};

// Where a command cannot be taken off, its fault comes in its place, and nothing after that.
#[derive(Drop)]
pub(crate) struct Commands<'a> {
    rest: &'a [u8],
    at: usize,
    ghost fits: { at + length rest.now < 2 ^ 63 },
}

impl<'a> Commands<'a> {
    ghost use Rattle.readers.specs.Items.{items_from, items_left};

    pub(crate) fn new(bytes: &'a [u8]) -> Commands<'a>
        ensures { items_left result ≡ items_from 0 0 bytes.now }
    {
        Commands { rest: bytes, at: 0 }
    }
}

impl<'a> Iterator for Commands<'a> {
    ghost use Rattle.std.specs.Iterator.{YieldsFirst, item_count};
    ghost use Rattle.readers.specs.Items.{items_left};

    type Item = (usize, Result<Command, ListingFault>);

    ghost next_gives = { YieldsFirst items_left };

    ghost remaining = { item_count items_left };

    #[inline]
    fn next(&mut self) -> Option<(usize, Result<Command, ListingFault>)> {
        if self.rest.is_empty() {
            return None;
        }
        let at = self.at;
        match next_command(self.rest) {
            Ok((command, rest)) => {
                self.at += self.rest.len() - rest.len();
                self.rest = rest;
                Some((at, Ok(command)))
            }
            Err(wrong) => {
                self.rest = &[];
                Some((at, Err(wrong.at(at))))
            }
        }
    }
}
