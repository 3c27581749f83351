// One call on two folders, made by the call of its name.
ghost use Rattle.std.specs.Prelude.{◌≡◌};
ghost use Rattle.search.specs.Folders.{contents};
ghost use Rattle.runs.specs.Obeying.{Obeys, AskedOf, ReplayedOf};

use crate::calls::WhichFolder::{First, Second};
use crate::calls::{Answer, Call, Question};
use graph::ThreadGraph;
use pairs::answers::{AskFault, Verdict};
use pairs::asking::ask;
use search::folders::Folder;
use search::replaying::ReplayFault;
use search::threads::{Pair, TwoThreads};

pub(crate) fn obey<A: ThreadGraph, B: ThreadGraph>(
    first: &mut Folder<A>,
    second: &mut Folder<B>,
    call: Call<A, B>,
) -> Answer<A, B>
    ensures { Obeys A.ThreadGraph.meaning B.ThreadGraph.meaning (contents first.old) (contents second.old) call result (contents first.new) (contents second.new) }
{
    match call {
        Call::ExchangeFirst(graph) => Answer::ExchangedFirst(first.exchange(graph)),
        Call::ExchangeSecond(graph) => Answer::ExchangedSecond(second.exchange(graph)),
        Call::Summarise(First) => Answer::Summarised(first.summarise()),
        Call::Summarise(Second) => Answer::Summarised(second.summarise()),
        Call::Entry(First, n) => Answer::Entry(first.entry(n)),
        Call::Entry(Second, n) => Answer::Entry(second.entry(n)),
        Call::Ask(question, mut list) => {
            let answer = ask_of(first, second, question, &mut list);
            Answer::Asked(answer, list)
        }
        Call::Replay(question, moves) => {
            let answer = replay_of(first, second, question, &moves);
            Answer::Replayed(answer, moves)
        }
    }
}

// Asks the folders that the question names. Each case is of a type of its own, here and in the replay below.
fn ask_of<A: ThreadGraph, B: ThreadGraph>(
    first: &Folder<A>,
    second: &Folder<B>,
    question: Question,
    list: &mut [u16],
) -> Result<Verdict, AskFault>
    ensures { AskedOf A.ThreadGraph.meaning B.ThreadGraph.meaning (contents first.now) (contents second.now) question list.old result list.new }
{
    let pair = question.pair();
    match (question.left.folder, question.right.folder) {
        (First, First) => ask(&TwoThreads::new(first, first), pair, list),
        (First, Second) => ask(&TwoThreads::new(first, second), pair, list),
        (Second, First) => ask(&TwoThreads::new(second, first), pair, list),
        (Second, Second) => ask(&TwoThreads::new(second, second), pair, list),
    }
}

// Replays on the folders that the question names.
fn replay_of<A: ThreadGraph, B: ThreadGraph>(
    first: &Folder<A>,
    second: &Folder<B>,
    question: Question,
    moves: &[u16],
) -> Result<(), ReplayFault>
    ensures { ReplayedOf A.ThreadGraph.meaning B.ThreadGraph.meaning (contents first.now) (contents second.now) question moves.now result }
{
    let pair = question.pair();
    match (question.left.folder, question.right.folder) {
        (First, First) => TwoThreads::new(first, first).replay(pair, moves),
        (First, Second) => TwoThreads::new(first, second).replay(pair, moves),
        (Second, First) => TwoThreads::new(second, first).replay(pair, moves),
        (Second, Second) => TwoThreads::new(second, second).replay(pair, moves),
    }
}

impl Question {
    fn pair(self) -> Pair
        ensures { result ≡ record { left = self.left.location; right = self.right.location } }
    {
        Pair {
            left: self.left.location,
            right: self.right.location,
        }
    }
}
