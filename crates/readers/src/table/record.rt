// One record of an edge table.
ghost use Rattle.std.specs.Prelude.{◌≡◌};
ghost use Rattle.readers.specs.Records.{Spells};

use locks::sets::LOCKS;
use locks::steps::{Kind, Step};

// A step of the location `from`. The kind is 0 for plain, 1 for take, 2 for give.
#[derive(Clone, Copy, Debug, PartialEq, Eq)]
pub struct Record {
    pub from: u16,
    pub kind: u16,
    pub lock: u16,
    pub to: u16,
}

impl Record {
    // The step that it spells among so many locations, or nothing where it spells none.
    pub(crate) fn step(self, locations: u16) -> Option<Step>
        ensures { Spells locations self result }
    {
        let kind = match self.kind {
            0 => Kind::Plain,
            1 => Kind::Take,
            2 => Kind::Give,
            _ => return None,
        };
        let lock = u8::try_from(self.lock).ok()?;
        let lock_fits = lock < LOCKS && (kind != Kind::Plain || lock == 0);
        if lock_fits && self.from < locations && self.to < locations {
            Some(Step {
                kind,
                lock,
                target: self.to,
            })
        } else {
            None
        }
    }
}
