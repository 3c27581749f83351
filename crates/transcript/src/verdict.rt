// What is answered of a pair of locations.
ghost use Rattle.std.specs.Prelude.{◌≡◌, ◌++◌, length, OnOk, string_bytes};
ghost use Rattle.locks.specs.Moves.{move_named};
ghost use Rattle.pairs.specs.Asking.{NeverTooShort};
ghost use Rattle.transcript.specs.Lines.{AddsLine, ended, moves_text, spaced_move, pair_line};
ghost use Rattle.transcript.specs.Threads.{SummaryTried};
ghost use Rattle.transcript.specs.Verdicts.{PairLine, moves_of};

use graph::ThreadGraph;
use locks::moves::Move;
use pairs::answers::{AskFault, Verdict};
use pairs::asking::{ask, most_moves};
use search::threads::{Pair, TwoThreads};
use std::alloc::{AllocError, Global};

// Whether both locations can be occupied at one time, with a shortest schedule.
pub(crate) fn write_verdict<L: ThreadGraph, R: ThreadGraph>(
    heap: Global,
    written: &mut String,
    threads: &TwoThreads<'_, L, R>,
    pair: Pair,
) -> Result<(), AllocError>
    requires left { SummaryTried threads.now.left threads.now.lefts }
    requires right { SummaryTried threads.now.right threads.now.rights }
    ensures { OnOk result (AddsLine (PairLine threads.now.left threads.now.right pair) (string_bytes written.old) (string_bytes written.new)) }
{
    let mut list = vec![in heap; 0; most_moves()]?;
    write_asked(written, threads, pair, &mut list)
}

// The same with a list that every shortest schedule fits.
fn write_asked<L: ThreadGraph, R: ThreadGraph>(
    written: &mut String,
    threads: &TwoThreads<'_, L, R>,
    pair: Pair,
    list: &mut [u16],
) -> Result<(), AllocError>
    requires left { SummaryTried threads.now.left threads.now.lefts }
    requires right { SummaryTried threads.now.right threads.now.rights }
    requires room { NeverTooShort (length list.old) }
    ensures { OnOk result (AddsLine (PairLine threads.now.left threads.now.right pair) (string_bytes written.old) (string_bytes written.new)) }
{
    let answer = ask(threads, pair, list);
    write_answer(written, pair, answer, list)
}

// The answer to an ask, whose moves stand at the front of the list.
fn write_answer(
    written: &mut String,
    pair: Pair,
    answer: Result<Verdict, AskFault>,
    list: &[u16],
) -> Result<(), AllocError>
    ensures { OnOk result (string_bytes written.new ≡ string_bytes written.old ++ ended (pair_line pair answer (moves_of answer list.now))) }
{
    match answer {
        Ok(Verdict::Never) => writeln!(written, "{} {} never", pair.left, pair.right),
        Ok(Verdict::Reached(length)) => {
            write!(written, "{} {} reached {length}:", pair.left, pair.right)?;
            write_moves(written, &list[..length.min(list.len())])?;
            written.push('\n')
        }
        Err(fault) => writeln!(written, "{}", fault.refusal()),
    }
}

// Each move after a space.
fn write_moves(written: &mut String, moves: &[u16]) -> Result<(), AllocError>
    ensures { OnOk result (string_bytes written.new ≡ string_bytes written.old ++ moves_text moves.now) }
{
    for number in moves {
        write_move(written, *number)?;
    }
    Ok(())
}

// A number that names no move is left out.
fn write_move(written: &mut String, number: u16) -> Result<(), AllocError>
    ensures { OnOk result (string_bytes written.new ≡ string_bytes written.old ++ spaced_move (move_named number)) }
{
    match Move::try_from(number) {
        Ok(chosen) => write!(written, " {chosen}"),
        Err(_) => Ok(()),
    }
}
