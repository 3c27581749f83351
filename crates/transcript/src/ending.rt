// How the replay of a schedule ends.
ghost use Rattle.std.specs.Prelude.{◌≡◌, ◌++◌, OnOk, string_bytes};
ghost use Rattle.transcript.specs.Lines.{ended, replay_line};

use search::replaying::ReplayFault;
use search::threads::Pair;
use std::alloc::AllocError;

// The answer to a replay of so many moves.
pub(crate) fn write_ending(
    written: &mut String,
    pair: Pair,
    moves: usize,
    answer: Result<(), ReplayFault>,
) -> Result<(), AllocError>
    ensures { OnOk result (string_bytes written.new ≡ string_bytes written.old ++ ended (replay_line pair moves answer)) }
{
    match answer {
        Ok(()) => writeln!(
            written,
            "replays to {} {}, moves {moves}",
            pair.left, pair.right
        ),
        Err(fault) => writeln!(written, "{}", fault.refusal()),
    }
}
