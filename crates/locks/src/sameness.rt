// What equality says of lock sets, held locks and locked states.
ghost use Rattle.std.specs.Prelude.{◌≡◌, Decides};
ghost use Rattle.locks.specs.Held.{newest_first};
ghost use Rattle.locks.specs.States.{state_of};
ghost use Rattle.locks.specs.contracts.held.HeldPartialEq.TheImpl.{ghosts as held_ghosts};
ghost use Rattle.locks.specs.contracts.held.comparing.HeldLocksPartialEq.TheImpl.{ghosts as locks_ghosts};
ghost use Rattle.locks.specs.contracts.sets.LockSetPartialEq.TheImpl.{ghosts as set_ghosts};
ghost use Rattle.locks.specs.contracts.states.LockedStatePartialEq.TheImpl.{ghosts as state_ghosts};

use crate::held::{Held, HeldLocks};
use crate::sets::LockSet;
use crate::states::LockedState;

// Each is equal to another exactly where the two are the same: the same set, the same lock with the same
// history, the same locks with the same histories in the same order, the same locked state.
pub fn equal_is_the_same()
    ensures sets { (s t : LockSet) → Decides (set_ghosts.eq s t) (s ≡ t) }
    ensures held { (k m : Held) → Decides (held_ghosts.eq k m) (k ≡ m) }
    ensures locks { (g h : HeldLocks) → Decides (locks_ghosts.eq g h) (newest_first g ≡ newest_first h) }
    ensures states { (s t : LockedState) → Decides (state_ghosts.eq s t) (state_of s ≡ state_of t) }
{}
