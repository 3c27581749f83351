// What can be wrong with the text of a task.
use std::io;
use task::{TextFault, Wrong};

const WRONGS: [Wrong; 7] = [
    Wrong::Missing,
    Wrong::Keyword,
    Wrong::Byte,
    Wrong::Number,
    Wrong::Move,
    Wrong::TooMany,
    Wrong::Surplus,
];

pub(crate) fn print_phrases(rt: &HostRuntime) -> io::Result<()> {
    for (index, wrong) in WRONGS.into_iter().enumerate() {
        println!(rt; "wrong {index}: {wrong}")?;
    }
    Ok(())
}

pub(crate) fn print_faults(rt: &HostRuntime) -> io::Result<()> {
    for line in [1, 2, 3, 4, 5, 10, 255] {
        for (index, wrong) in WRONGS.into_iter().enumerate() {
            println!(rt; "fault {line} {index}: {}", TextFault { line, wrong })?;
        }
    }
    Ok(())
}
