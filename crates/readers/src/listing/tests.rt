use crate::listing::{Command, Listing, ListingFault, Wrong};
use std::test::Fail;

// The number and the place of a refusal, or nothing where the bytes were read.
fn refusal(answer: Result<(), ListingFault>) -> Option<(u8, usize)> {
    let refusal = answer.err()?.refusal();
    Some((refusal.number, refusal.place))
}

// What is wrong, or nothing where the bytes were read.
fn wrong(answer: Result<(), ListingFault>) -> Option<Wrong> {
    Some(answer.err()?.wrong)
}

#[test]
fn faults_tell_what_stands_there(rt: HostRuntime) -> Result<(), Fail> {
    let mut listing = Listing::new(rt.alloc())?;
    assert_eq!(rt;
        wrong(listing.read(&[0x00, 0x06])),
        Some(Wrong::UnknownCommand(0x06))
    );
    assert_eq!(rt;
        wrong(listing.read(&[0x05, 0x00, 0x00])),
        Some(Wrong::CutOff(0x05))
    );
    assert_eq!(rt;
        wrong(listing.read(&[0x03, 0x08])),
        Some(Wrong::UnknownLock(Command::Give(8)))
    );
    assert_eq!(rt;
        wrong(listing.read(&[0x00, 0x04, 0x00, 0x02])),
        Some(Wrong::MissingTarget(Command::Goto(2)))
    );
    assert_eq!(rt;
        wrong(listing.read(&[0x02, 0x07])),
        Some(Wrong::RunsOffTheEnd(Command::Take(7)))
    );
    Ok(())
}

#[test]
fn locks_end_at_seven(rt: HostRuntime) -> Result<(), Fail> {
    let mut listing = Listing::new(rt.alloc())?;
    assert_eq!(rt; refusal(listing.read(&[0x02, 0x07, 0x00])), None);
    assert_eq!(rt; refusal(listing.read(&[0x02, 0x08, 0x00])), Some((5, 0)));
    Ok(())
}

#[test]
fn targets_are_commands(rt: HostRuntime) -> Result<(), Fail> {
    let mut listing = Listing::new(rt.alloc())?;
    assert_eq!(rt; refusal(listing.read(&[0x04, 0x00, 0x00])), None);
    assert_eq!(rt; refusal(listing.read(&[0x04, 0x00, 0x01])), Some((6, 0)));
    Ok(())
}

#[test]
fn no_run_ends_with_a_pass(rt: HostRuntime) -> Result<(), Fail> {
    let mut listing = Listing::new(rt.alloc())?;
    assert_eq!(rt; refusal(listing.read(&[0x01])), Some((7, 0)));
    Ok(())
}

#[test]
fn commands_are_512_at_most(rt: HostRuntime) -> Result<(), Fail> {
    let mut listing = Listing::new(rt.alloc())?;
    assert_eq!(rt; refusal(listing.read(&[0x00; 512])), None);
    assert_eq!(rt; listing.len(), 512);
    assert_eq!(rt; refusal(listing.read(&[0x00; 513])), Some((4, 512)));
    Ok(())
}
