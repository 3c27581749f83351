// How long summaries of heavy threads take. They are not the threads of the list that is compared, and have names of
// one word, as a table of times reads them.
use crate::{tables, threads};
use graph::ThreadGraph;
use readers::table::Record;
use search::folders::{Folder, Room};
use std::time::Instant;

// How often a summary is made to time it.
const ROUNDS: u32 = 2000;

pub(crate) fn times(rt: &HostRuntime) -> anyhow::Result<()> {
    let heap = rt.alloc();
    time(
        rt,
        "four-ways",
        threads::four_ways(heap, 2, 254)?.as_slice(),
    )?;
    time(rt, "wide", threads::wide(heap)?.as_slice())?;
    time(rt, "crowded", threads::crowded(heap, 5, 16)?.as_slice())?;
    time(rt, "tangled", &threads::TANGLED)?;
    time(rt, "too-crowded", threads::crowded(heap, 7, 1)?.as_slice())?;
    one_location(rt)
}

// As a listing, the number of its states, and as an edge table.
fn time(rt: &HostRuntime, name: &str, bytes: &[u8]) -> anyhow::Result<()> {
    let heap = rt.alloc();
    let (listed, states) = timed(rt, threads::listing(heap, bytes)?)?;
    let (tabled, _) = timed(rt, threads::table(heap, bytes, &[], 0)?)?;
    println!(rt; "{name} {listed} {states} {tabled}")?;
    Ok(())
}

// Each lock is taken and given back by a step that leads back to the start: no listing can have that.
fn one_location(rt: &HostRuntime) -> anyhow::Result<()> {
    let heap = rt.alloc();
    let mut records = Vec::new(heap);
    for kind in 1..3u16 {
        for lock in 0..8u16 {
            records.push(Record {
                from: 0,
                kind,
                lock,
                to: 0,
            })?;
        }
    }
    let (tabled, states) = timed(rt, threads::read(heap, 1, 0, records.as_slice())?)?;
    println!(rt; "one-location - {states} {tabled}")?;
    Ok(())
}

// Nanoseconds for one summary, on the average, and the number of its states: 0 where it is refused.
fn timed<G: ThreadGraph + Drop>(rt: &HostRuntime, graph: G) -> anyhow::Result<(u128, usize)> {
    let mut folder = Folder::open(Room::new(rt.alloc())?, graph);
    let start = Instant::now(rt)?;
    let mut states = 0;
    for _ in 0..ROUNDS {
        states = folder.summarise().unwrap_or(0);
    }
    Ok((start.elapsed(rt)?.as_nanos() / u128::from(ROUNDS), states))
}
