// Prints each type that has a text, at its telling values, a line for each. What the value was made from stands in front
// of the colon.
#![tactic(auto)]

mod refusing;
mod stepping;
mod tasks;

use std::io;

fn main(rt: HostRuntime) -> io::Result<()> {
    run(&rt)
}

fn run(rt: &HostRuntime) -> io::Result<()> {
    stepping::print_sets(rt)?;
    stepping::print_moves(rt)?;
    stepping::print_positions(rt)?;
    stepping::print_configurations(rt)?;
    refusing::print_parts(rt)?;
    refusing::print_numbers(rt)?;
    refusing::print_places(rt)?;
    tasks::print_phrases(rt)?;
    tasks::print_faults(rt)
}
