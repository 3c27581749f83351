// Why a thread alone does not go on.

// What a thread alone must never reach.
#[derive(Clone, Copy, Debug, PartialEq, Eq)]
pub enum Fault {
    // A held lock is given back that is not the last taken.
    Nesting,
    // A fifth lock is taken.
    Depth,
}

// A step that leads to no locked state.
#[derive(Clone, Copy, Debug, PartialEq, Eq)]
pub enum Halt {
    // The step waits for ever.
    Waits,
    Faults(Fault),
}
