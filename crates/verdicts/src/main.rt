// Reads a review file from standard input, and prints its report.
#![tactic(auto)]

#[cfg(test)]
mod tests;

use review::report::print_report;
use std::io;

fn main(rt: HostRuntime) -> io::Result<()> {
    print_report(rt.alloc(), rt.stdin(), &mut rt.stdout())
}
