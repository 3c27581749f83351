// The parts of the tool, and refusals.
use locks::refusals::{Part, Refusal};
use std::io;

const PARTS: [Part; 8] = [
    Part::Listing,
    Part::Table,
    Part::Names,
    Part::Summarise,
    Part::Ask,
    Part::Replay,
    Part::File,
    Part::Line,
];

const PLACES: [usize; 16] = [
    0,
    1,
    9,
    10,
    99,
    100,
    512,
    2046,
    8191,
    32768,
    65536,
    4294967295,
    4294967296,
    9223372036854775807,
    9223372036854775808,
    18446744073709551615,
];

pub(crate) fn print_parts(rt: &HostRuntime) -> io::Result<()> {
    for (index, part) in PARTS.into_iter().enumerate() {
        println!(rt; "part {index}: {part}")?;
    }
    Ok(())
}

// Each number in each part.
pub(crate) fn print_numbers(rt: &HostRuntime) -> io::Result<()> {
    for number in 1..=25 {
        for (index, part) in PARTS.into_iter().enumerate() {
            let refusal = Refusal {
                number,
                place: 0,
                part,
            };
            println!(rt; "refusal {number} 0 {index}: {refusal}")?;
        }
    }
    Ok(())
}

// Some places in each part.
pub(crate) fn print_places(rt: &HostRuntime) -> io::Result<()> {
    for place in PLACES {
        for (index, part) in PARTS.into_iter().enumerate() {
            let refusal = Refusal {
                number: 255,
                place,
                part,
            };
            println!(rt; "refusal 255 {place} {index}: {refusal}")?;
        }
    }
    Ok(())
}
