// Which calls a review makes, and which faults of summaries their answers tell.
ghost use Rattle.std.specs.Prelude.{◌≡◌, ◌+◌, ◌<◌, ◌≤◌, [], ◌∷◌, ◌++◌, length, replicate, vec_items, IfOk};
ghost use Rattle.runs.specs.declared.calls.Call.TheVariants as code;
ghost use Rattle.runs.specs.declared.calls.WhichFolder.TheVariants as which;
ghost use Rattle.runs.specs.Scripts.{written};
ghost use Rattle.review.specs.Asking.{question_of, more_calls, ScriptSays, SummaryTold};

use runs::calls::{Answer, Call, Question, Site, WhichFolder};
use runs::scripts::Script;
use search::faults::SummariseFault;
use search::threads::Pair;
use std::alloc::{AllocError, Global};

// Both summaries, and then each pair, with a list of so many places.
pub(crate) fn script<A: Drop, B: Drop>(
    heap: Global,
    pairs: &[Pair],
    places: usize,
) -> Result<Script<A, B>, AllocError>
    ensures { IfOk result (λ s. ScriptSays s pairs.now (replicate places 0)) }
{
    let mut script = Script::new(heap, pairs.len() + 2)?;
    add_summaries(&mut script);
    for pair in pairs {
        let list = vec![in heap; 0; places]?;
        add_ask(&mut script, *pair, list);
    }
    Ok(script)
}

// Both summaries, in a script that has room for two calls more.
pub(crate) fn add_summaries<A: Drop, B: Drop>(script: &mut Script<A, B>)
    requires { length (written script.old).calls + 2 ≤ (written script.old).most }
    ensures { written script.new ≡ more_calls (written script.old) (code.Summarise which.First ∷ code.Summarise which.Second ∷ []) }
{
    add(script, Call::Summarise(WhichFolder::First));
    add(script, Call::Summarise(WhichFolder::Second));
}

// A pair with the list for its moves, in a script that has room for a call more.
pub(crate) fn add_ask<A: Drop, B: Drop>(script: &mut Script<A, B>, pair: Pair, list: Vec<u16>)
    requires { length (written script.old).calls < (written script.old).most }
    ensures { written script.new ≡ more_calls (written script.old) (code.Ask (question_of pair) list ∷ []) }
{
    add(script, Call::Ask(question(pair), list));
}

fn add<A: Drop, B: Drop>(script: &mut Script<A, B>, call: Call<A, B>)
    requires { length (written script.old).calls < (written script.old).most }
    ensures { written script.new ≡ more_calls (written script.old) (call ∷ []) }
{
    // There is room, so the call does not come back.
    let _ = script.add(call);
}

// The left location is of the first folder, the right one of the second.
fn question(pair: Pair) -> Question
    ensures { result ≡ question_of pair }
{
    Question {
        left: Site {
            folder: WhichFolder::First,
            location: pair.left,
        },
        right: Site {
            folder: WhichFolder::Second,
            location: pair.right,
        },
    }
}

// That the summary which this answer is of was accepted, or its fault.
pub(crate) fn summary<A, B>(answers: &[Answer<A, B>], place: usize) -> Result<(), SummariseFault>
    ensures { SummaryTold answers.now place result }
{
    match answers.get(place) {
        Some(Answer::Summarised(Err(fault))) => Err(*fault),
        _ => Ok(()),
    }
}
