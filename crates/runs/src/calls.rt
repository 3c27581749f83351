// Calls on two folders, and their answers.
use pairs::answers::{AskFault, Verdict};
use search::entries::Entry;
use search::faults::SummariseFault;
use search::replaying::ReplayFault;

// One of the two folders.
#[derive(Clone, Copy, Debug, PartialEq, Eq)]
pub enum WhichFolder {
    First,
    Second,
}

// A location of one of the folders. Any number may stand here.
#[derive(Clone, Copy, Debug, PartialEq, Eq)]
pub struct Site {
    pub folder: WhichFolder,
    pub location: u32,
}

// A pair of locations. Both sides may be of one folder: two copies of its thread.
#[derive(Clone, Copy, Debug, PartialEq, Eq)]
pub struct Question {
    pub left: Site,
    pub right: Site,
}

// What is to be done with one folder or two. The first folder is over graphs of the kind A, the second over graphs of
// the kind B.
#[derive(Drop)]
pub enum Call<A, B> {
    ExchangeFirst(A),
    ExchangeSecond(B),
    Summarise(WhichFolder),
    Entry(WhichFolder, usize),
    // With the list for the moves.
    Ask(Question, Vec<u16>),
    // With the schedule.
    Replay(Question, Vec<u16>),
}

// Each is the answer to the call of its kind. A graph is the one that was replaced; lists and schedules
// come back.
#[derive(Drop)]
pub enum Answer<A, B> {
    ExchangedFirst(A),
    ExchangedSecond(B),
    Summarised(Result<usize, SummariseFault>),
    Entry(Option<Entry>),
    Asked(Result<Verdict, AskFault>, Vec<u16>),
    Replayed(Result<(), ReplayFault>, Vec<u16>),
}
