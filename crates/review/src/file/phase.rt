// Where in a file a reader stands, as far as it decides what may come next.
ghost use Rattle.std.specs.Prelude.{◌≡◌};
ghost use Rattle.review.specs.Commands.{kind_of};
ghost use Rattle.review.specs.Sections.{command_of};
ghost use Rattle.review.specs.Order.{phase_after};

use crate::file::Section;

// What came before, as far as it decides which command may stand next.
#[derive(Clone, Copy, Debug, PartialEq, Eq)]
pub enum Phase {
    BeforeLeft,
    BeforeRight,
    // Both threads are there.
    AfterRight,
    // A renaming or a pair was there.
    AmongPairs,
    AfterEnd,
}

impl Phase {
    pub(crate) fn after(section: &Section) -> Phase
        ensures { result ≡ phase_after (kind_of (command_of section.now)) }
    {
        match section {
            Section::Left { .. } => Phase::BeforeRight,
            Section::Right { .. } => Phase::AfterRight,
            Section::Rename { .. } | Section::Pair { .. } => Phase::AmongPairs,
            Section::End => Phase::AfterEnd,
        }
    }
}
