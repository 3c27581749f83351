// Lock sets, moves, and where threads are.
use locks::moves::Move;
use locks::sets::{LOCKS, LockSet};
use locks::together::{Configuration, Position, Side};
use std::io;

const CHOICES: [u8; 22] = [
    0, 1, 2, 3, 4, 5, 6, 7, 8, 9, 10, 11, 12, 13, 14, 15, 16, 99, 100, 199, 200, 255,
];

const LOCATIONS: [u16; 11] = [0, 1, 9, 10, 11, 99, 100, 510, 511, 512, 65535];

// No lock, lock 0, lock 7, locks 0 and 7, locks 1, 2, 5 and 7, all locks.
const BITS: [u8; 6] = [0, 1, 128, 129, 166, 255];

// The set of the locks whose bits stand in a number.
fn set_of(bits: u8) -> LockSet {
    let mut set = LockSet::none();
    for lock in 0..LOCKS {
        if (bits >> lock) % 2 == 1 {
            set = set.with(lock);
        }
    }
    set
}

pub(crate) fn print_sets(rt: &HostRuntime) -> io::Result<()> {
    for bits in 0..=255 {
        println!(rt; "set {bits}: {}", set_of(bits))?;
    }
    Ok(())
}

pub(crate) fn print_moves(rt: &HostRuntime) -> io::Result<()> {
    for choice in CHOICES {
        let left = Move {
            side: Side::Left,
            choice,
        };
        let right = Move {
            side: Side::Right,
            choice,
        };
        println!(rt; "move left {choice}: {left}")?;
        println!(rt; "move right {choice}: {right}")?;
    }
    Ok(())
}

pub(crate) fn print_positions(rt: &HostRuntime) -> io::Result<()> {
    for location in LOCATIONS {
        for bits in BITS {
            let position = Position {
                location,
                held: set_of(bits),
            };
            println!(rt; "position {location} {bits}: {position}")?;
        }
    }
    Ok(())
}

pub(crate) fn print_configurations(rt: &HostRuntime) -> io::Result<()> {
    for left in BITS {
        for right in BITS {
            let both = Configuration {
                left: Position {
                    location: 511,
                    held: set_of(left),
                },
                right: Position {
                    location: 10,
                    held: set_of(right),
                },
            };
            println!(rt; "configuration 511 {left} 10 {right}: {both}")?;
        }
    }
    Ok(())
}
