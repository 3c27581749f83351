// Reads worked listings, and prints the reports of worked files.
#![tactic(auto)]

use readers::listing::Listing;
use review::file::Review;
use review::lines::Line;
use review::report::print_report;
use search::threads::Pair;
use std::str;

// Two threads, and three pairs.
const FILE: [u8; 36] = [
    0x10, 0, 7, 0x02, 0, 0x02, 1, 0x03, 1, 0x00, 0x11, 0, 7, 0x02, 1, 0x02, 0, 0x03, 0, 0x00, 0x12,
    0, 3, 0, 1, 0x12, 0, 3, 0, 3, 0x12, 0, 9, 0, 0, 0x1f,
];

// Both threads have one location, and a pair stands in front of a renaming.
const RENAME_BEHIND_A_PAIR: [u8; 14] = [0x10, 0, 1, 0x00, 0x11, 0, 1, 0x00, 0x12, 0, 0, 0, 0, 0x13];

const BYTE_BEHIND_END: [u8; 10] = [0x10, 0, 1, 0x00, 0x11, 0, 1, 0x00, 0x1f, 0];

const NAME_TWICE: [u8; 18] = [
    0x10, 0, 1, 0x00, 0x11, 0, 1, 0x00, 0x13, 3, 3, 1, 2, 4, 5, 6, 7, 0x1f,
];

// Lock 0 is given back before lock 1, which was taken after it.
const OUTER_GIVEN_FIRST: [u8; 15] = [
    0x10, 0, 7, 0x02, 0, 0x02, 1, 0x03, 0, 0x00, 0x11, 0, 1, 0x00, 0x1f,
];

// The right thread takes five locks.
const FIVE_TAKEN: [u8; 19] = [
    0x10, 0, 1, 0x00, 0x11, 0, 11, 0x02, 0, 0x02, 1, 0x02, 2, 0x02, 3, 0x02, 4, 0x00, 0x1f,
];

fn main(rt: HostRuntime) -> anyhow::Result<()> {
    run(&rt)
}

fn run(rt: &HostRuntime) -> anyhow::Result<()> {
    read(rt, "take 7", &[0x02, 7, 0x00])?;
    read(rt, "take 8", &[0x02, 8, 0x00])?;
    read(rt, "goto 0", &[0x04, 0, 0])?;
    read(rt, "goto 1", &[0x04, 0, 1])?;
    read(rt, "pass", &[0x01])?;
    read(rt, "512 stops", &[0x00; 512])?;
    read(rt, "513 stops", &[0x00; 513])?;
    read(rt, "no bytes", &[])?;
    read(rt, "another byte", &[0x00, 0x06])?;
    read(rt, "take cut off", &[0x00, 0x02])?;
    tell(rt, "two threads", &FILE)?;
    tell(rt, "no bytes", &[])?;
    tell(rt, "right first", &[0x11])?;
    tell(rt, "section cut short", &[0x10, 0, 7, 0x02])?;
    tell(rt, "section of no bytes", &[0x10, 0, 0])?;
    tell(rt, "rename behind a pair", &RENAME_BEHIND_A_PAIR)?;
    tell(rt, "byte behind end", &BYTE_BEHIND_END)?;
    tell(rt, "name twice", &NAME_TWICE)?;
    tell(rt, "outer given first", &OUTER_GIVEN_FIRST)?;
    tell(rt, "five taken", &FIVE_TAKEN)?;
    tell(rt, "32768 bytes", &[0x00; 32768])?;
    tell(rt, "32769 bytes", &[0x00; 32769])?;
    write(rt, "line of 10 bytes", &mut [0; 10])?;
    write(rt, "line of 9 bytes", &mut [0; 9])?;
    explain_all(rt)
}

// Each way in which a file can be wrong, in words.
fn explain_all(rt: &HostRuntime) -> anyhow::Result<()> {
    let mut many = [0; 516];
    many[..3].copy_from_slice(&[0x10, 2, 1]);
    explain(rt, "no bytes", &[0x10, 0, 0])?;
    explain(rt, "513 stops", &many)?;
    explain(rt, "another byte", &[0x10, 0, 2, 0x00, 0x06])?;
    explain(rt, "take cut off", &[0x10, 0, 2, 0x00, 0x02])?;
    explain(rt, "take 8", &[0x10, 0, 3, 0x02, 8, 0x00])?;
    explain(
        rt,
        "give 255",
        &[0x10, 0, 1, 0x00, 0x11, 0, 4, 0x01, 0x03, 255, 0x00],
    )?;
    explain(rt, "goto 1", &[0x10, 0, 3, 0x04, 0, 1])?;
    explain(rt, "either 0 511", &[0x10, 0, 5, 0x05, 0, 0, 1, 255])?;
    explain(rt, "pass", &[0x10, 0, 1, 0x01])?;
    explain(rt, "name twice", &NAME_TWICE)?;
    explain(rt, "section cut short", &[0x10, 0, 7, 0x02])?;
    explain(rt, "byte behind end", &BYTE_BEHIND_END)?;
    explain(rt, "32769 bytes", &[0x00; 32769])
}

fn read(rt: &HostRuntime, name: &str, bytes: &[u8]) -> anyhow::Result<()> {
    let mut listing = Listing::new(rt.alloc())?;
    match listing.read(bytes) {
        Ok(()) => println!(rt; "{name}: read")?,
        Err(fault) => println!(rt; "{name}: {}", fault.refusal())?,
    }
    Ok(())
}

// The report of a file, behind a line with its name.
fn tell(rt: &HostRuntime, name: &str, file: &[u8]) -> anyhow::Result<()> {
    println!(rt; "{name}:")?;
    print_report(rt.alloc(), file, &mut rt.stdout())?;
    Ok(())
}

fn write(rt: &HostRuntime, name: &str, space: &mut [u8]) -> anyhow::Result<()> {
    let line = Line::Never {
        pair: Pair { left: 3, right: 3 },
    };
    match line.write(space) {
        Ok(count) => println!(rt; "{name}: {count}")?,
        Err(fault) => println!(rt; "{name}: {}", fault.refusal())?,
    }
    Ok(())
}

// What is wrong with a file, and where in the file.
fn explain(rt: &HostRuntime, name: &str, file: &[u8]) -> anyhow::Result<()> {
    let mut review = Review::blank(rt.alloc())?;
    let Err(fault) = review.read(file) else {
        println!(rt; "{name}: nothing is wrong")?;
        return Ok(());
    };
    let mut space = [0; 80];
    let words = match fault.write_words(&mut space) {
        Ok(count) => str::from_utf8(&space[..count])?,
        Err(_) => "words that do not fit",
    };
    let side = fault.within().name();
    println!(rt; "{name}: at {} in {side}: {words}", fault.file_offset())?;
    Ok(())
}
