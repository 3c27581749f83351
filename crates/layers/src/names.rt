// Names of locks: which number each lock has instead of its own.
mod fault;
mod laws;
mod setting;
#[cfg(test)]
mod tests;

ghost use Rattle.layers.specs.Numbers.{EachOnce};

pub use fault::NamesFault;
pub use laws::{each_renaming_is_accepted, names_have_each_number_once};
use locks::sets::LOCKS;

// How many names there are: one for each lock.
pub const NAMES: usize = LOCKS as usize;

// The number at place k is the one that lock k has. The numbers 0 to 7 stand there, each once.
#[derive(Clone, Copy, Debug, PartialEq, Eq)]
pub struct Names {
    numbers: [u8; NAMES],
    ghost each_once: { EachOnce numbers },
}
