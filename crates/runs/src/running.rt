// A sequence of calls on two folders, from their opening on.
ghost use Rattle.std.specs.Prelude.{◌≡◌};
ghost use Rattle.search.specs.Folders.{contents, unsummarised};
ghost use Rattle.runs.specs.Scripts.{written};
ghost use Rattle.runs.specs.Running.{RunRight};
ghost use Rattle.runs.specs.Rules.{InForceIsTheLastExchange, SameStatesSameAnswers};

use crate::calls::Answer;
use crate::obeying::obey;
use crate::scripts::Script;
use graph::ThreadGraph;
use search::folders::{Folder, Room};

// The answers, in the order of the calls, and the two folders as they then are.
#[derive(Drop)]
pub struct Outcome<A, B> {
    pub first: Folder<A>,
    pub second: Folder<B>,
    pub answers: Vec<Answer<A, B>>,
}

// Opens two folders and makes the calls of the script in order, whatever each answers.
pub fn run<A: ThreadGraph, B: ThreadGraph>(
    first_room: Room,
    second_room: Room,
    first: A,
    second: B,
    script: Script<A, B>,
) -> Outcome<A, B>
    ensures right { RunRight A.ThreadGraph.meaning B.ThreadGraph.meaning first second (written script).calls result }
    ensures in_force { InForceIsTheLastExchange }
    ensures same { SameStatesSameAnswers }
{
    make_calls(
        Folder::open(first_room, first),
        Folder::open(second_room, second),
        script,
    )
}

fn make_calls<A: ThreadGraph, B: ThreadGraph>(
    mut first: Folder<A>,
    mut second: Folder<B>,
    script: Script<A, B>,
) -> Outcome<A, B>
    requires { (contents first ≡ unsummarised (contents first).graph) × (contents second ≡ unsummarised (contents second).graph) }
    ensures { RunRight A.ThreadGraph.meaning B.ThreadGraph.meaning (contents first).graph (contents second).graph (written script).calls result }
{
    let Script {
        calls,
        mut answers,
        most: _,
    } = script;
    // No `for` loop: that would have to let go of what is left of the calls, and a graph need not be of a type that
    // may be dropped.
    let mut rest = calls.into_iter();
    while let Some(call) = rest.next() {
        answers.push_reserved(obey(&mut first, &mut second, call));
    }
    rest.destroy_empty();
    Outcome {
        first,
        second,
        answers,
    }
}
