// Reads two threads, a pair and a schedule from standard input, and prints the replay move by move and then the verdict
// on the pair.
#![tactic(auto)]

use transcript::print_transcript;

// What fails is told in the words that `anyhow` prints of it.
fn main(rt: HostRuntime) -> anyhow::Result<()> {
    Ok(print_transcript(rt.alloc(), rt.stdin(), &mut rt.stdout())?)
}
