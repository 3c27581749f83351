// Threads as edge tables: what no listing can be, what a listing is too, and the same with their locks renamed.
use crate::sequence::BLANK;
use crate::{pair, threads};
use graph::ThreadGraph;
use layers::names::Names;
use layers::renamed::Renamed;
use pairs::answers::{AskFault, Verdict};
use pairs::asking::ask;
use search::folders::{Folder, Room};
use search::threads::{Pair, TwoThreads};
use std::alloc::Global;

pub(crate) fn tables(rt: &HostRuntime) -> anyhow::Result<()> {
    late_steps(rt)?;
    three_ways(rt)?;
    alike(rt, &threads::INNER_ONE, &threads::INNER_ZERO)?;
    alike(rt, &threads::TWO_WAYS, &threads::INNER_ZERO)?;
    renamed(rt)
}

// The threads of listings, with each step behind others that are never taken, and locations that nothing leads to in
// front.
fn late_steps(rt: &HostRuntime) -> anyhow::Result<()> {
    let heap = rt.alloc();
    let straight = threads::table(heap, &threads::STRAIGHT, &[10, 11, 12, 13, 14, 15], 9)?;
    let zero = threads::table(heap, &threads::INNER_ZERO, &[15, 14, 13], 1)?;
    judge(rt, "late steps", straight, zero, pair(15, 4))?;
    let ways = threads::table(heap, &threads::TWO_WAYS, &[14; 6], 3)?;
    let zero = threads::table(heap, &threads::INNER_ZERO, &[10, 11, 12], 1)?;
    judge(rt, "late ways", ways, zero, pair(8, 4))?;
    let one = threads::table(heap, &threads::INNER_ONE, &[15; 3], 2)?;
    let zero = threads::table(heap, &threads::INNER_ZERO, &[12; 3], 5)?;
    judge(rt, "late steps", one, zero, pair(5, 8))?;
    count(
        rt,
        "late nesting fault",
        threads::table(heap, &threads::OUTER_GIVEN_FIRST, &[13; 3], 1)?,
    )?;
    count(
        rt,
        "late depth fault",
        threads::table(heap, &threads::FIVE_TAKEN, &[15; 5], 2)?,
    )
}

fn three_ways(rt: &HostRuntime) -> anyhow::Result<()> {
    let heap = rt.alloc();
    count(rt, "three ways", threads::three_ways(heap)?)?;
    let other = threads::listing(heap, &threads::INNER_ZERO_TWICE)?;
    judge(
        rt,
        "three ways",
        threads::three_ways(heap)?,
        other,
        pair(0, 4),
    )
}

// Of all pairs of locations, and of those with one location too many, how many have the same answer for two listings
// and for the edge tables of the same graphs.
fn alike(rt: &HostRuntime, left: &[u8], right: &[u8]) -> anyhow::Result<()> {
    let heap = rt.alloc();
    let lefts = summarised(heap, threads::listing(heap, left)?)?;
    let rights = summarised(heap, threads::listing(heap, right)?)?;
    let left_tables = summarised(heap, threads::table(heap, left, &[], 0)?)?;
    let right_tables = summarised(heap, threads::table(heap, right, &[], 0)?)?;
    let mut pairs = 0u32;
    let mut same = 0u32;
    for left in 0..u32::from(lefts.graph().locations()) + 1 {
        for right in 0..u32::from(rights.graph().locations()) + 1 {
            let pair = Pair { left, right };
            pairs = pairs.saturating_add(1);
            if answer(&lefts, &rights, pair) == answer(&left_tables, &right_tables, pair) {
                same = same.saturating_add(1);
            }
        }
    }
    println!(rt; "listings and tables: {same} of {pairs} pairs alike")?;
    Ok(())
}

fn renamed(rt: &HostRuntime) -> anyhow::Result<()> {
    let heap = rt.alloc();
    let swapped = [1, 0, 2, 3, 4, 5, 6, 7];
    let one = threads::table(heap, &threads::INNER_ONE, &[], 0)?;
    let zero = under(threads::table(heap, &threads::INNER_ZERO, &[], 0)?, swapped)?;
    judge(rt, "renamed", one, zero, pair(3, 1))?;
    let one = threads::table(heap, &threads::INNER_ONE, &[], 0)?;
    let zero = under(threads::table(heap, &threads::INNER_ZERO, &[], 0)?, swapped)?;
    judge(rt, "renamed twice", one, under(zero, swapped)?, pair(3, 1))?;
    let one = under(
        threads::listing(heap, &threads::INNER_ONE)?,
        [4, 6, 0, 1, 2, 3, 5, 7],
    )?;
    let zero = threads::table(heap, &threads::INNER_ZERO, &[], 0)?;
    judge(rt, "renamed apart", one, zero, pair(3, 3))?;
    // Lock 0 has the number 1; by the inverse it would have 2.
    let one = under(
        threads::listing(heap, &threads::INNER_ONE)?,
        [1, 2, 0, 3, 4, 5, 6, 7],
    )?;
    let zero = threads::table(heap, &threads::INNER_ZERO, &[], 0)?;
    judge(rt, "renamed in a ring", one, zero, pair(1, 1))
}

// The graph with other names for its locks.
fn under<G: ThreadGraph + Drop>(graph: G, numbers: [u8; 8]) -> anyhow::Result<Renamed<G>> {
    let mut names = Names::new();
    if let Err(fault) = names.set(numbers) {
        anyhow::bail!("{}", fault.refusal());
    }
    Ok(Renamed { graph, names })
}

fn summarised<G: ThreadGraph + Drop>(heap: Global, graph: G) -> anyhow::Result<Folder<G>> {
    let mut folder = Folder::open(Room::new(heap)?, graph);
    if let Err(fault) = folder.summarise() {
        anyhow::bail!("{}", fault.refusal());
    }
    Ok(folder)
}

// How many locked states the thread alone reaches, or why there is no summary.
pub(crate) fn count<G: ThreadGraph + Drop>(
    rt: &HostRuntime,
    name: &str,
    graph: G,
) -> anyhow::Result<()> {
    let mut folder = Folder::open(Room::new(rt.alloc())?, graph);
    match folder.summarise() {
        Ok(states) => println!(rt; "{name}: {states}")?,
        Err(fault) => println!(rt; "{name}: {}", fault.refusal())?,
    }
    Ok(())
}

fn answer<L: ThreadGraph, R: ThreadGraph>(
    left: &Folder<L>,
    right: &Folder<R>,
    pair: Pair,
) -> Result<Verdict, AskFault> {
    ask(&TwoThreads::new(left, right), pair, &mut [BLANK; 10])
}

fn judge<L: ThreadGraph + Drop, R: ThreadGraph + Drop>(
    rt: &HostRuntime,
    name: &str,
    left: L,
    right: R,
    pair: Pair,
) -> anyhow::Result<()> {
    let heap = rt.alloc();
    let left = summarised(heap, left)?;
    let right = summarised(heap, right)?;
    let mut list = [BLANK; 10];
    print!(rt; "{name}: {} {} ", pair.left, pair.right)?;
    match ask(&TwoThreads::new(&left, &right), pair, &mut list) {
        Ok(Verdict::Never) => println!(rt; "never")?,
        Ok(Verdict::Reached(moves)) => println!(rt; "reached {moves}, {list:?}")?,
        Err(fault) => println!(rt; "{}", fault.refusal())?,
    }
    Ok(())
}
