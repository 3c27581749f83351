// Making names, setting them, and looking them up.
ghost use Rattle.std.specs.Prelude.{◌≡◌};
ghost use Rattle.layers.specs.Numbers.{in_order, number_of};
ghost use Rattle.layers.specs.Naming.{numbers_in, NumbersAnswer, NamesSet};

use crate::names::{NAMES, Names, NamesFault};
use locks::sets::{LOCKS, LockSet};

impl Names {
    // Each lock keeps its own number.
    pub fn new() -> Names
        ensures { numbers_in result ≡ in_order }
    {
        Names {
            numbers: [0, 1, 2, 3, 4, 5, 6, 7],
        }
    }

    // The numbers are checked before any name changes.
    pub fn set(&mut self, numbers: [u8; NAMES]) -> Result<(), NamesFault>
        ensures { NamesSet numbers (numbers_in self.old) result (numbers_in self.new) }
    {
        check(&numbers)?;
        self.numbers = numbers;
        Ok(())
    }

    pub fn numbers(&self) -> &[u8; NAMES]
        ensures { result.now ≡ numbers_in self.now }
    {
        &self.numbers
    }

    // The number that the lock has; what is no lock keeps its own.
    pub fn number(self, lock: u8) -> u8
        ensures { result ≡ number_of (numbers_in self) lock }
    {
        self.numbers.get(usize::from(lock)).copied().unwrap_or(lock)
    }
}

// The first number that is no lock, or that stood before, is the fault.
fn check(numbers: &[u8]) -> Result<(), NamesFault>
    ensures { NumbersAnswer numbers.now result }
{
    let mut seen = LockSet::none();
    for (at, number) in numbers.iter().enumerate() {
        if *number >= LOCKS || seen.has(*number) {
            return Err(NamesFault { at });
        }
        seen = seen.with(*number);
    }
    Ok(())
}
