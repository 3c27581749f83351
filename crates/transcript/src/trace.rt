// The moves of a schedule, one by one.
ghost use Rattle.std.specs.Prelude.{◌≡◌, ◌++◌, Some, Err, MatchOption, OnOk, string_bytes};
ghost use Rattle.locks.specs.Moves.{move_named};
ghost use Rattle.locks.specs.Schedules.{Makes};
ghost use Rattle.search.specs.declared.playing.MoveFault.{MoveFault};
ghost use Rattle.search.specs.Playing.{Made};
ghost use Rattle.transcript.specs.Lines.{ended, start_line, move_line, Adds};
ghost use Rattle.transcript.specs.Tracing.{Traced};

use graph::ThreadGraph;
use locks::moves::Move;
use locks::together::Configuration;
use search::threads::TwoThreads;
use std::alloc::AllocError;

// Where both threads are at first, and after each move up to the first that cannot be made.
pub(crate) fn write_trace<L: ThreadGraph, R: ThreadGraph>(
    written: &mut String,
    threads: &TwoThreads<'_, L, R>,
    moves: &[u16],
) -> Result<(), AllocError>
    ensures { OnOk result (Adds (Traced threads.now.left threads.now.right moves.now) (string_bytes written.old) (string_bytes written.new)) }
{
    let mut reached = threads.at_starts();
    write_start(written, reached)?;
    for number in moves {
        let Some((chosen, next)) = made(threads, &reached, *number) else {
            return Ok(());
        };
        reached = next;
        write_move(written, chosen, reached)?;
    }
    Ok(())
}

// The move with this number and where it leads, if it can be made.
fn made<L: ThreadGraph, R: ThreadGraph>(
    threads: &TwoThreads<'_, L, R>,
    from: &Configuration,
    number: u16,
) -> Option<(Move, Configuration)>
    ensures { MatchOption result ((f : MoveFault) × Made threads.now.left threads.now.right from.now number (Err f)) (λ m. (move_named number ≡ Some m.0) × Makes threads.now.left threads.now.right from.now number m.1) }
{
    let chosen = Move::try_from(number).ok()?;
    let next = threads.make_move(from, number).ok()?;
    Some((chosen, next))
}

fn write_start(written: &mut String, start: Configuration) -> Result<(), AllocError>
    ensures { OnOk result (string_bytes written.new ≡ string_bytes written.old ++ ended (start_line start)) }
{
    writeln!(written, "start: {start}")
}

fn write_move(written: &mut String, chosen: Move, reached: Configuration) -> Result<(), AllocError>
    ensures { OnOk result (string_bytes written.new ≡ string_bytes written.old ++ ended (move_line chosen reached)) }
{
    writeln!(written, "{chosen}: {reached}")
}
