// The commands of a listing.
ghost use Rattle.std.specs.Prelude.{◌≡◌};
ghost use Rattle.readers.specs.Flow.{inside, goes_on};

use graph::MOST_LOCATIONS;

// A listing has at most so many commands.
pub const MOST_COMMANDS: usize = MOST_LOCATIONS;

#[derive(Clone, Copy, Debug, PartialEq, Eq)]
pub enum Command {
    Stop,
    Pass,
    Take(u8),
    Give(u8),
    Goto(u16),
    Either(u16, u16),
}

impl Command {
    // Each target is one of `count` commands.
    pub(crate) fn leads_inside(self, count: usize) -> bool
        ensures { result ≡ inside count self }
    {
        match self {
            Command::Goto(target) => usize::from(target) < count,
            Command::Either(first, second) => usize::from(first) < count
                && usize::from(second) < count,
            _ => true,
        }
    }

    // The command leads on to the next one.
    pub(crate) fn goes_on(self) -> bool
        ensures { result ≡ goes_on self }
    {
        match self {
            Command::Pass | Command::Take(_) | Command::Give(_) => true,
            Command::Stop | Command::Goto(_) | Command::Either(_, _) => false,
        }
    }
}
