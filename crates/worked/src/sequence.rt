// A sequence of calls on two folders with worked threads, refused ones among them, and each answer.
use crate::threads;
use graph::ThreadGraph;
use pairs::answers::Verdict;
use readers::listing::Listing;
use runs::calls::{Answer, Call, Question, Site, WhichFolder};
use runs::running::run;
use runs::scripts::Script;
use search::entries::Entry;
use search::folders::Room;
use std::alloc::Global;
use std::io;

// What stands in the lists before an ask, so that a place that was written can be told from one that was not.
pub(crate) const BLANK: u16 = 999;

pub(crate) fn sequence(rt: &HostRuntime) -> anyhow::Result<()> {
    let heap = rt.alloc();
    let mut calls = Vec::new(heap);
    before_summaries(heap, &mut calls)?;
    with_summaries(heap, &mut calls)?;
    on_one_folder(heap, &mut calls)?;
    after_exchanges(heap, &mut calls)?;
    let mut script = Script::new(heap, calls.len())?;
    for (number, call) in calls.into_iter().enumerate() {
        print!(rt; "call {number}: ")?;
        print_call(rt, &call)?;
        if script.add(call).is_err() {
            anyhow::bail!("there is no room for call {number}");
        }
    }
    let ran = run(
        Room::new(heap)?,
        Room::new(heap)?,
        threads::listing(heap, &threads::INNER_ONE)?,
        threads::listing(heap, &threads::INNER_ZERO)?,
        script,
    );
    for (number, answer) in ran.answers.iter().enumerate() {
        print!(rt; "answer {number}: ")?;
        print_answer(rt, answer)?;
    }
    Ok(())
}

type Calls = Vec<Call<Listing, Listing>>;

fn before_summaries(heap: Global, calls: &mut Calls) -> anyhow::Result<()> {
    calls.push(ask(heap, first(9), second(1), 4)?)?;
    calls.push(Call::Entry(WhichFolder::First, 0))?;
    calls.push(replay(heap, first(3), second(1), &[0, 0, 0, 256])?)?;
    calls.push(Call::Summarise(WhichFolder::First))?;
    calls.push(ask(heap, first(9), second(1), 4)?)?;
    calls.push(Call::Summarise(WhichFolder::Second))?;
    Ok(())
}

fn with_summaries(heap: Global, calls: &mut Calls) -> anyhow::Result<()> {
    calls.push(ask(heap, first(9), second(9), 4)?)?;
    calls.push(ask(heap, first(0), second(9), 4)?)?;
    calls.push(ask(heap, first(0), second(0), 4)?)?;
    calls.push(ask(heap, first(3), second(1), 3)?)?;
    calls.push(ask(heap, first(3), second(1), 4)?)?;
    calls.push(ask(heap, first(1), second(3), 6)?)?;
    calls.push(ask(heap, first(3), second(3), 4)?)?;
    calls.push(ask(heap, first(2), second(1), 4)?)?;
    calls.push(ask(heap, second(1), first(3), 4)?)?;
    calls.push(replay(heap, first(3), second(1), &[0, 0, 16])?)?;
    calls.push(replay(heap, first(3), second(1), &[0, 0, 256])?)?;
    calls.push(replay(heap, first(3), second(1), &[0, 0])?)?;
    calls.push(replay(heap, first(3), second(4), &[])?)?;
    calls.push(Call::Summarise(WhichFolder::Second))?;
    calls.push(Call::Entry(WhichFolder::Second, 3))?;
    calls.push(Call::Entry(WhichFolder::Second, 4))?;
    Ok(())
}

// Two copies of one thread.
fn on_one_folder(heap: Global, calls: &mut Calls) -> anyhow::Result<()> {
    calls.push(ask(heap, first(1), first(0), 2)?)?;
    calls.push(ask(heap, first(1), first(1), 2)?)?;
    calls.push(ask(heap, second(0), second(2), 2)?)?;
    calls.push(replay(heap, first(1), first(0), &[0])?)?;
    Ok(())
}

fn after_exchanges(heap: Global, calls: &mut Calls) -> anyhow::Result<()> {
    calls.push(Call::ExchangeFirst(threads::listing(heap, &threads::TWO_WAYS)?))?;
    calls.push(Call::Entry(WhichFolder::First, 0))?;
    calls.push(ask(heap, first(5), second(3), 5)?)?;
    calls.push(Call::Summarise(WhichFolder::First))?;
    calls.push(ask(heap, first(5), second(3), 5)?)?;
    calls.push(replay(heap, first(5), second(3), &[256, 256, 256, 0, 1])?)?;
    calls.push(Call::ExchangeSecond(threads::listing(heap, &threads::OUTER_GIVEN_FIRST)?))?;
    calls.push(Call::Summarise(WhichFolder::Second))?;
    calls.push(ask(heap, first(5), second(3), 5)?)?;
    calls.push(Call::ExchangeSecond(threads::listing(heap, &threads::FIVE_TAKEN)?))?;
    calls.push(Call::Summarise(WhichFolder::Second))?;
    calls.push(ask(heap, second(0), first(0), 5)?)?;
    calls.push(Call::ExchangeFirst(threads::listing(
        heap,
        threads::crowded(heap, 7, 1)?.as_slice(),
    )?))?;
    calls.push(Call::Summarise(WhichFolder::First))?;
    Ok(())
}

fn first(location: u32) -> Site {
    Site {
        folder: WhichFolder::First,
        location,
    }
}

fn second(location: u32) -> Site {
    Site {
        folder: WhichFolder::Second,
        location,
    }
}

fn ask(
    heap: Global,
    left: Site,
    right: Site,
    places: usize,
) -> anyhow::Result<Call<Listing, Listing>> {
    let list = vec![in heap; BLANK; places]?;
    Ok(Call::Ask(Question { left, right }, list))
}

fn replay(
    heap: Global,
    left: Site,
    right: Site,
    moves: &[u16],
) -> anyhow::Result<Call<Listing, Listing>> {
    let mut schedule = Vec::new(heap);
    schedule.extend_from_slice(moves)?;
    Ok(Call::Replay(Question { left, right }, schedule))
}

fn folder_name(which: WhichFolder) -> &'static str {
    match which {
        WhichFolder::First => "first",
        WhichFolder::Second => "second",
    }
}

fn print_call(rt: &HostRuntime, call: &Call<Listing, Listing>) -> io::Result<()> {
    match call {
        Call::ExchangeFirst(graph) => println!(rt;
            "exchange first for {} locations",
            graph.locations()
        ),
        Call::ExchangeSecond(graph) => println!(rt;
            "exchange second for {} locations",
            graph.locations()
        ),
        Call::Summarise(which) => println!(rt; "summarise {}", folder_name(*which)),
        Call::Entry(which, n) => println!(rt; "entry {n} of {}", folder_name(*which)),
        Call::Ask(question, list) => {
            print_question(rt, "ask", question)?;
            println!(rt; "list of {}", list.len())
        }
        Call::Replay(question, moves) => {
            print_question(rt, "replay", question)?;
            println!(rt; "{:?}", moves.as_slice())
        }
    }
}

fn print_question(rt: &HostRuntime, name: &str, question: &Question) -> io::Result<()> {
    let left = question.left;
    let right = question.right;
    print!(rt;
        "{name} left {} {}, right {} {}: ",
        folder_name(left.folder),
        left.location,
        folder_name(right.folder),
        right.location
    )
}

fn print_answer(rt: &HostRuntime, answer: &Answer<Listing, Listing>) -> io::Result<()> {
    match answer {
        Answer::ExchangedFirst(graph) | Answer::ExchangedSecond(graph) => println!(rt;
            "{} locations come back",
            graph.locations()
        ),
        Answer::Summarised(Ok(states)) => println!(rt; "{states} locked states"),
        Answer::Summarised(Err(fault)) => println!(rt; "{}", fault.refusal()),
        Answer::Entry(None) => println!(rt; "nothing"),
        Answer::Entry(Some(entry)) => print_entry(rt, entry),
        Answer::Asked(Ok(Verdict::Never), list) => println!(rt; "never, {:?}", list.as_slice()),
        Answer::Asked(Ok(Verdict::Reached(moves)), list) => println!(rt;
            "reached {moves}, {:?}",
            list.as_slice()
        ),
        Answer::Asked(Err(fault), list) => println!(rt;
            "{}, {:?}",
            fault.refusal(),
            list.as_slice()
        ),
        Answer::Replayed(Ok(()), _) => println!(rt; "replays"),
        Answer::Replayed(Err(fault), _) => println!(rt; "{}", fault.refusal()),
    }
}

fn print_entry(rt: &HostRuntime, entry: &Entry) -> io::Result<()> {
    println!(rt;
        "location {} at distance {}, by step {} of entry {}",
        entry.state.location, entry.distance, entry.choice, entry.parent
    )
}
