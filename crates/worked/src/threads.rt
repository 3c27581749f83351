// Worked threads, as listings and as edge tables.
use graph::ThreadGraph;
use locks::steps::{MOST_STEPS, Step};
use readers::listing::Listing;
use readers::table::{EdgeTable, Record};
use std::alloc::{AllocError, Global};

// Two ways into location 5: with lock 0 held, once with an empty history and once after lock 1.
pub(crate) const TWO_WAYS: [u8; 15] = [
    0x02, 0, 0x05, 0, 2, 0, 5, 0x02, 1, 0x03, 1, 0x04, 0, 5, 0x00,
];

// Lock 0 is held while lock 1 is taken and given back, and the other way round.
pub(crate) const INNER_ONE: [u8; 7] = [0x02, 0, 0x02, 1, 0x03, 1, 0x00];

pub(crate) const INNER_ZERO: [u8; 7] = [0x02, 1, 0x02, 0, 0x03, 0, 0x00];

pub(crate) const OUTER_GIVEN_FIRST: [u8; 7] = [0x02, 0, 0x02, 1, 0x03, 0, 0x00];

pub(crate) const FIVE_TAKEN: [u8; 11] = [0x02, 0, 0x02, 1, 0x02, 2, 0x02, 3, 0x02, 4, 0x00];

pub(crate) const FOUR_TAKEN: [u8; 9] = [0x02, 0, 0x02, 1, 0x02, 2, 0x02, 3, 0x00];

pub(crate) const GIVEN_UNTAKEN: [u8; 3] = [0x03, 0, 0x00];

pub(crate) const TAKEN_TWICE: [u8; 5] = [0x02, 0, 0x02, 0, 0x00];

// Locks 1 and 2 are held while lock 0 is taken and given back.
pub(crate) const INNER_ZERO_TWICE: [u8; 9] = [0x02, 1, 0x02, 2, 0x02, 0, 0x03, 0, 0x00];

// A way without forks, that takes and gives two locks.
pub(crate) const STRAIGHT: [u8; 11] = [0x02, 0, 0x02, 1, 0x03, 1, 0x01, 0x03, 0, 0x01, 0x00];

// Three ways into location 0 with lock 0 held: after lock 1, after lock 2, and one step further after lock 3. Each row is
// a record: from, kind (0 plain, 1 take, 2 give), lock, to. The start is location 7 of 8.
const THREE_WAYS: [(u16, u16, u16, u16); 9] = [
    (3, 2, 3, 2),
    (7, 1, 0, 6),
    (6, 1, 1, 5),
    (5, 2, 1, 0),
    (6, 1, 2, 4),
    (2, 0, 0, 0),
    (6, 1, 3, 3),
    (4, 2, 2, 0),
    (1, 0, 0, 0),
];

// Thirteen commands that lead into one another: many states at each of few locations.
pub(crate) const TANGLED: [u8; 50] = [
    0x05, 0, 12, 0, 5, 0x02, 4, 0x05, 0, 6, 0, 3, 0x02, 5, 0x05, 0, 11, 0, 10, 0x02, 6, 0x05, 0, 8,
    0, 9, 0x05, 0, 2, 0, 8, 0x02, 3, 0x05, 0, 4, 0, 3, 0x02, 1, 0x05, 0, 7, 0, 1, 0x05, 0, 11, 0,
    10,
];

// `passes` plain steps, then lock 0 or not and lock 1 or not, then `shared` locations, each reached in
// four ways: passes + 6 + 4 * shared states.
pub(crate) fn four_ways(heap: Global, passes: u8, shared: u8) -> Result<Vec<u8>, AllocError> {
    let mut bytes = Vec::new(heap);
    for _ in 0..passes {
        bytes.push(0x01)?;
    }
    for lock in 0..2u8 {
        let take = passes.saturating_add(lock * 2 + 1);
        bytes.extend_from_slice(&[0x05, 0, take, 0, take.saturating_add(1)])?;
        bytes.extend_from_slice(&[0x02, lock])?;
    }
    for _ in 1..shared {
        bytes.push(0x01)?;
    }
    bytes.push(0x00)?;
    Ok(bytes)
}

// Lock 0 taken or not, then 509 plain steps: two states at nearly each of 512 locations.
pub(crate) fn wide(heap: Global) -> Result<Vec<u8>, AllocError> {
    let mut bytes = Vec::new(heap);
    bytes.extend_from_slice(&[0x05, 0, 1, 0, 2, 0x02, 0])?;
    for _ in 0..509 {
        bytes.push(0x01)?;
    }
    bytes.push(0x00)?;
    Ok(bytes)
}

// Lock 0 is held while locks 1 to `most` are taken and given back in any order: every set of them is a
// history of lock 0 at the first choice, and at `tail` locations behind the last.
pub(crate) fn crowded(heap: Global, most: u8, tail: u8) -> Result<Vec<u8>, AllocError> {
    let mut bytes = Vec::new(heap);
    bytes.extend_from_slice(&[0x02, 0])?;
    for lock in 1..most.saturating_add(1) {
        let choice = lock.saturating_mul(4).saturating_sub(3);
        let next = choice.saturating_add(4);
        bytes.extend_from_slice(&[0x05, 0, choice.saturating_add(1), 0, next])?;
        bytes.extend_from_slice(&[0x02, lock, 0x03, lock, 0x04, 0, 1])?;
    }
    for _ in 1..tail {
        bytes.push(0x01)?;
    }
    bytes.push(0x00)?;
    Ok(bytes)
}

// The graph of a worked thread.
pub(crate) fn listing(heap: Global, bytes: &[u8]) -> anyhow::Result<Listing> {
    let mut listing = Listing::new(heap)?;
    if let Err(fault) = listing.read(bytes) {
        anyhow::bail!("{}", fault.refusal());
    }
    Ok(listing)
}

pub(crate) fn three_ways(heap: Global) -> anyhow::Result<EdgeTable> {
    let mut records = Vec::new(heap);
    for (from, kind, lock, to) in THREE_WAYS {
        records.push(Record {
            from,
            kind,
            lock,
            to,
        })?;
    }
    read(heap, 8, 7, records.as_slice())
}

// The graph of a listing as an edge table, by its answers: `before` locations without steps in front, and at each
// location as many steps first as `idle` says, which give back what is never taken.
pub(crate) fn table(
    heap: Global,
    bytes: &[u8],
    idle: &[u8],
    before: u16,
) -> anyhow::Result<EdgeTable> {
    let listing = listing(heap, bytes)?;
    let mut records = Vec::new(heap);
    // Step by step and not location by location: the order of records matters at each location alone.
    for number in 0..MOST_STEPS {
        for location in 0..listing.locations() {
            let first = idle.get(usize::from(location)).copied().unwrap_or(0);
            if number < first {
                records.push(idle_record(location, before))?;
            } else if let Some(step) = listing.step(location, number - first) {
                records.push(record(location, step, before))?;
            }
        }
    }
    let locations = listing.locations().saturating_add(before);
    let start = listing.start().saturating_add(before);
    read(heap, locations, start, records.as_slice())
}

fn idle_record(location: u16, before: u16) -> Record {
    let here = location.saturating_add(before);
    Record {
        from: here,
        kind: 2,
        lock: 7,
        to: here,
    }
}

fn record(location: u16, step: Step, before: u16) -> Record {
    Record {
        from: location.saturating_add(before),
        kind: u16::from(u8::from(step.kind)),
        lock: u16::from(step.lock),
        to: step.target.saturating_add(before),
    }
}

pub(crate) fn read(
    heap: Global,
    locations: u16,
    start: u16,
    records: &[Record],
) -> anyhow::Result<EdgeTable> {
    let mut table = EdgeTable::new(heap)?;
    if let Err(fault) = table.read(locations, start, records) {
        anyhow::bail!("{}", fault.refusal());
    }
    Ok(table)
}
