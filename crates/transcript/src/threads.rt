// What is said of each of two threads.
ghost use Rattle.std.specs.Prelude.{◌≡◌, ◌++◌, IfOk, OnOk, string_bytes};
ghost use Rattle.readers.specs.contracts.listing.place.questions.ListingThreadGraph.TheImpl.{ghosts as listing_ghosts};
ghost use Rattle.readers.specs.Graph.{listing_graph};
ghost use Rattle.readers.specs.Place.{commands_in};
ghost use Rattle.search.specs.Folders.{contents};
ghost use Rattle.task.specs.Places.{task_of};
ghost use Rattle.transcript.specs.Lines.{ended, side_name, listing_line, states_text, thread_line, Adds, AddsLine};
ghost use Rattle.transcript.specs.Threads.{LineBySummary, SummaryTried};
ghost use Rattle.transcript.specs.Transcripts.{PlayedAndJudged, TaskSays};

use crate::ending::write_ending;
use crate::trace::write_trace;
use crate::verdict::write_verdict;
use graph::ThreadGraph;
use locks::together::Side;
use readers::listing::{Listing, ListingFault};
use search::faults::SummariseFault;
use search::folders::{Folder, Room};
use search::threads::{Pair, TwoThreads};
use std::alloc::{AllocError, Global};
use task::Task;

// After a refused listing nothing more is written.
pub(crate) fn write_task(heap: Global, written: &mut String, task: &Task) -> Result<(), AllocError>
    ensures { OnOk result (Adds (TaskSays (task_of task.now)) (string_bytes written.old) (string_bytes written.new)) }
{
    let mut left = Listing::new(heap)?;
    if let Err(fault) = left.read(task.left()) {
        return write_refused(written, Side::Left, fault);
    }
    let left = summarised(heap, written, Side::Left, left)?;
    let mut right = Listing::new(heap)?;
    if let Err(fault) = right.read(task.right()) {
        return write_refused(written, Side::Right, fault);
    }
    let right = summarised(heap, written, Side::Right, right)?;
    write_played(heap, written, &TwoThreads::new(&left, &right), task)
}

// The moves of the schedule, how its replay ends, and what is answered of the pair.
fn write_played<L: ThreadGraph, R: ThreadGraph>(
    heap: Global,
    written: &mut String,
    threads: &TwoThreads<'_, L, R>,
    task: &Task,
) -> Result<(), AllocError>
    requires left { SummaryTried threads.now.left threads.now.lefts }
    requires right { SummaryTried threads.now.right threads.now.rights }
    ensures { OnOk result (Adds (PlayedAndJudged threads.now.left threads.now.right (task_of task.now)) (string_bytes written.old) (string_bytes written.new)) }
{
    let pair = Pair {
        left: task.left_location(),
        right: task.right_location(),
    };
    let moves = task.moves();
    write_trace(written, threads, moves)?;
    write_ending(written, pair, moves.len(), threads.replay(pair, moves))?;
    write_verdict(heap, written, threads, pair)
}

// The folder of a thread, summarised where no refusal applies, and the line about it. A refusal does not end a
// transcript: a replay needs no summary.
fn summarised(
    heap: Global,
    written: &mut String,
    side: Side,
    listing: Listing,
) -> Result<Folder<Listing>, AllocError>
    ensures graph { IfOk result (λ folder. listing_ghosts.meaning (contents folder).graph ≡ listing_graph (commands_in listing)) }
    ensures line { IfOk result (λ folder. AddsLine (LineBySummary side (listing_graph (commands_in listing)) (contents folder).summary) (string_bytes written.old) (string_bytes written.new)) }
{
    let locations = listing.locations();
    let mut folder = Folder::open(Room::new(heap)?, listing);
    write_thread(written, side, locations, folder.summarise())?;
    Ok(folder)
}

fn write_thread(
    written: &mut String,
    side: Side,
    locations: u16,
    summary: Result<usize, SummariseFault>,
) -> Result<(), AllocError>
    ensures { OnOk result (string_bytes written.new ≡ string_bytes written.old ++ ended (thread_line side locations summary)) }
{
    write!(written, "{}: locations {locations}, ", name_of(side))?;
    write_states(written, summary)
}

fn write_states(
    written: &mut String,
    summary: Result<usize, SummariseFault>,
) -> Result<(), AllocError>
    ensures { OnOk result (string_bytes written.new ≡ string_bytes written.old ++ ended (states_text summary)) }
{
    match summary {
        Ok(states) => writeln!(written, "locked states {states}"),
        Err(fault) => writeln!(written, "{}", fault.refusal()),
    }
}

fn write_refused(written: &mut String, side: Side, fault: ListingFault) -> Result<(), AllocError>
    ensures { OnOk result (string_bytes written.new ≡ string_bytes written.old ++ ended (listing_line side fault)) }
{
    writeln!(written, "{}: {}", name_of(side), fault.refusal())
}

fn name_of(side: Side) -> &'static str
    ensures { result.now ≡ side_name side }
{
    match side {
        Side::Left => "left",
        Side::Right => "right",
    }
}
