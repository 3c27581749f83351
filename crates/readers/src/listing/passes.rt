// Passes over a whole listing: what is wrong with it, and its commands into their place.
ghost use Rattle.std.specs.Prelude.{◌≡◌, ◌≤◌, length, Ok, vec_capacity};
ghost use Rattle.readers.specs.Flow.{end_at, flow};
ghost use Rattle.readers.specs.Reading.{given, broken, run, refusal};

use crate::listing::command::MOST_COMMANDS;
use crate::listing::commands::Commands;
use crate::listing::{Command, ListingFault, Wrong};

// The number of commands, where the bytes are a run of them.
fn count_commands(bytes: &[u8]) -> Result<usize, ListingFault>
    ensures { result ≡ given (broken 0 0 0 bytes.now) (length (run 0 bytes.now)) }
{
    // Counted by hand, since the limit is asked before a command is looked into.
    let mut count = 0;
    for (at, command) in Commands::new(bytes) {
        if count >= MOST_COMMANDS {
            return Err(Wrong::TooManyCommands.at(at));
        }
        command?;
        count += 1;
    }
    Ok(count)
}

// What a run that ends with this command is refused for.
fn end_at(command: Command, at: usize) -> Result<(), ListingFault>
    ensures { result ≡ end_at at command }
{
    if command.goes_on() {
        return Err(Wrong::RunsOffTheEnd(command).at(at));
    }
    Ok(())
}

// Where the commands lead can be judged once they are counted.
fn check_flow(bytes: &[u8], count: usize) -> Result<(), ListingFault>
    ensures { result ≡ flow count (Ok tt) 0 (run 0 bytes.now) }
{
    let mut end = Ok(());
    for (at, command) in Commands::new(bytes) {
        let Ok(command) = command else { break };
        if !command.leads_inside(count) {
            return Err(Wrong::MissingTarget(command).at(at));
        }
        end = end_at(command, at);
    }
    end
}

pub(crate) fn check(bytes: &[u8]) -> Result<(), ListingFault>
    ensures { result ≡ refusal bytes.now }
{
    if bytes.is_empty() {
        return Err(Wrong::NoBytes.at(0));
    }
    let count = count_commands(bytes)?;
    check_flow(bytes, count)
}

// Into the memory that is there: nothing is allocated.
pub(crate) fn fill(commands: &mut Vec<Command>, bytes: &[u8])
    requires { length (run 0 bytes.now) ≤ vec_capacity commands.old }
    ensures items { commands.new.items ≡ run 0 bytes.now }
    ensures capacity { vec_capacity commands.new ≡ vec_capacity commands.old }
{
    commands.clear();
    for (_, command) in Commands::new(bytes) {
        let Ok(command) = command else { break };
        commands.push_reserved(command);
    }
}
