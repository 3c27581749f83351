// Summaries and replays of worked threads, a sequence of calls on two folders, and edge tables. With an argument, how
// long summaries of heavy threads take.
#![tactic(auto)]

mod sequence;
mod tables;
mod threads;
mod timing;

use locks::sets::LockSet;
use readers::listing::Listing;
use search::folders::{Folder, Room};
use search::threads::{Pair, TwoThreads};
use std::env;

fn main(rt: HostRuntime) -> anyhow::Result<()> {
    run(&rt)
}

fn run(rt: &HostRuntime) -> anyhow::Result<()> {
    if env::args(rt)?.count() > 1 {
        return timing::times(rt);
    }
    count(rt, "two ways", &threads::TWO_WAYS)?;
    count(rt, "outer lock given first", &threads::OUTER_GIVEN_FIRST)?;
    count(rt, "five locks taken", &threads::FIVE_TAKEN)?;
    count(rt, "four locks taken", &threads::FOUR_TAKEN)?;
    count(rt, "given and never taken", &threads::GIVEN_UNTAKEN)?;
    count(rt, "taken twice", &threads::TAKEN_TWICE)?;
    heavy(rt)?;
    entries_at(rt, &threads::TWO_WAYS, 5)?;
    replays(rt)?;
    sequence::sequence(rt)?;
    tables::tables(rt)
}

fn replays(rt: &HostRuntime) -> anyhow::Result<()> {
    let a = &threads::INNER_ONE;
    let b = &threads::INNER_ZERO;
    replayed(rt, a, b, pair(3, 1), &[0, 0, 0, 256])?;
    replayed(
        rt,
        &threads::TWO_WAYS,
        b,
        pair(5, 3),
        &[256, 256, 256, 0, 1],
    )?;
    replayed(rt, a, b, pair(0, 0), &[])?;
    replayed(rt, a, b, pair(9, 0), &[])?;
    replayed(rt, a, b, pair(0, 9), &[])?;
    replayed(rt, a, b, pair(3, 1), &[0, 1])?;
    replayed(rt, a, b, pair(3, 1), &[16])?;
    replayed(rt, a, b, pair(3, 1), &[256, 0, 0])?;
    replayed(rt, a, b, pair(3, 1), &[0])
}

pub(crate) fn pair(left: u32, right: u32) -> Pair {
    Pair { left, right }
}

fn replayed(
    rt: &HostRuntime,
    left: &[u8],
    right: &[u8],
    pair: Pair,
    moves: &[u16],
) -> anyhow::Result<()> {
    let left = folder(rt, left)?;
    let right = folder(rt, right)?;
    print!(rt; "{} {} by {moves:?}: ", pair.left, pair.right)?;
    match TwoThreads::new(&left, &right).replay(pair, moves) {
        Ok(()) => println!(rt; "replays")?,
        Err(fault) => println!(rt; "{}", fault.refusal())?,
    }
    Ok(())
}

fn heavy(rt: &HostRuntime) -> anyhow::Result<()> {
    let heap = rt.alloc();
    count(
        rt,
        "four ways, 2 plain steps first",
        threads::four_ways(heap, 2, 254)?.as_slice(),
    )?;
    count(
        rt,
        "four ways, 3 plain steps first",
        threads::four_ways(heap, 3, 254)?.as_slice(),
    )?;
    count(rt, "wide", threads::wide(heap)?.as_slice())?;
    count(rt, "crowded", threads::crowded(heap, 5, 16)?.as_slice())?;
    count(rt, "tangled", &threads::TANGLED)?;
    count(rt, "too crowded", threads::crowded(heap, 7, 1)?.as_slice())
}

fn folder(rt: &HostRuntime, bytes: &[u8]) -> anyhow::Result<Folder<Listing>> {
    let heap = rt.alloc();
    Ok(Folder::open(Room::new(heap)?, threads::listing(heap, bytes)?))
}

fn count(rt: &HostRuntime, name: &str, bytes: &[u8]) -> anyhow::Result<()> {
    tables::count(rt, name, threads::listing(rt.alloc(), bytes)?)
}

// The entries of one location: distance, and each held lock with its history.
fn entries_at(rt: &HostRuntime, bytes: &[u8], location: u32) -> anyhow::Result<()> {
    let mut folder = folder(rt, bytes)?;
    let _ = folder.summarise();
    for (_, entry) in folder.entries_at(location) {
        print!(rt; "location {location} at distance {}:", entry.distance)?;
        for held in entry.state.held.as_slice() {
            print!(rt; " {} after", held.lock)?;
            if held.history != LockSet::none() {
                print!(rt; " {}", held.history)?;
            }
        }
        println!(rt; "")?;
    }
    Ok(())
}
