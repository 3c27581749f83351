// What the definitions yield for threads that were worked out by hand.
#![tactic(auto)]

ghost use Rattle.worked_threads.specs.Worked.{WorkedThreadsComeOut};

// From the bytes on: shortest schedules and pairs that are never reached, numbers of locked states, refusals.
pub fn worked_threads_come_out()
    ensures { WorkedThreadsComeOut }
{}
