// The verdict on one pair with each kind of answer, and the number that a C program gets.
use crate::pair_verdict_entry;
use locks::refusals::{Part, Refusal};
use pairs::answers::Verdict;
use review::entry::{VerdictRoom, verdict};
use search::threads::Pair;
use std::alloc::{AllocError, Global};
use std::process::Abort;
use std::test::Fail;

// Takes locks 0 and 1, gives 1 back, and stops.
const LEFT: [u8; 7] = [0x02, 0, 0x02, 1, 0x03, 1, 0x00];

// Takes locks 1 and 0, gives 0 back, and stops.
const RIGHT: [u8; 7] = [0x02, 1, 0x02, 0, 0x03, 0, 0x00];

// The one shortest schedule to locations 3 and 1 of these: three moves of the left thread, and one of the right.
const MOVES: [u8; 8] = [0, 0, 0, 0, 0, 0, 1, 0];

// Gives lock 0 back before lock 1, which it took later.
const OUTER_GIVEN_FIRST: [u8; 7] = [0x02, 0, 0x02, 1, 0x03, 0, 0x00];

const FIVE_TAKEN: [u8; 11] = [0x02, 0, 0x02, 1, 0x02, 2, 0x02, 3, 0x02, 4, 0x00];

const UNKNOWN_COMMAND: [u8; 2] = [0x00, 0x06];

// What each byte of the run of moves is before the call.
const UNTOUCHED: u8 = 0xee;

// A question about two listings, and the size of the run of moves.
#[derive(Clone, Copy)]
struct Question<'a> {
    left: &'a [u8],
    right: &'a [u8],
    pair: Pair,
    size: usize,
}

// A run for as many moves as there may be.
fn about<'a>(left: &'a [u8], right: &'a [u8], pair: (u32, u32)) -> Question<'a> {
    let (a, b) = pair;
    Question {
        left,
        right,
        pair: Pair { left: a, right: b },
        size: 4_092,
    }
}

// Both the verdict and the number; at the front of the run these bytes stand then, and the rest of it is as it was.
fn check(
    rt: &impl Abort,
    heap: Global,
    question: Question,
    answer: Result<Verdict, Refusal>,
    number: i64,
    front: &[u8],
) -> Result<(), Fail> {
    let Question {
        left,
        right,
        pair,
        size,
    } = question;
    let mut run = vec![in heap; UNTOUCHED; size]?;
    let mut run_of_c = vec![in heap; UNTOUCHED; size]?;
    let mut after = vec![in heap; UNTOUCHED; size]?;
    assert!(rt; front.len() <= after.len());
    after[..front.len()].copy_from_slice(front);
    let name = format!(in heap; "{} and {}, {size} bytes", pair.left, pair.right)?;
    let given = verdict(VerdictRoom::new(heap)?, left, right, pair, &mut run);
    assert_eq!(rt; given, answer, "{name}");
    assert_eq!(rt; run.as_slice(), after.as_slice(), "{name}");
    let given = pair_verdict_entry(left, right, pair.left, pair.right, &mut run_of_c, heap);
    assert_eq!(rt; given, number, "{name}");
    assert_eq!(rt; run_of_c.as_slice(), after.as_slice(), "{name}");
    Ok(())
}

fn refused(number: u8, place: usize, part: Part) -> Result<Verdict, Refusal> {
    Err(Refusal {
        number,
        place,
        part,
    })
}

// So many steps without a lock, one after another.
fn steps(heap: Global, count: usize) -> Result<Vec<u8>, AllocError> {
    let mut listing = vec![in heap; 0x01; count]?;
    listing.push(0x00)?;
    Ok(listing)
}

// Takes lock 0 or not, and lock 1 or not, and then goes so many steps: each location there has four locked states.
fn four_ways(heap: Global, count: usize) -> Result<Vec<u8>, AllocError> {
    let mut listing = Vec::new(heap);
    listing.extend_from_slice(&[0x05, 0, 1, 0, 2, 0x02, 0])?;
    listing.extend_from_slice(&[0x05, 0, 3, 0, 4, 0x02, 1])?;
    listing.extend_from_slice(&steps(heap, count)?)?;
    Ok(listing)
}

// Where the run has room for a schedule it stands at its front, an odd last byte stays, and else nothing is written.
#[test]
fn moves_stand_where_they_have_room(rt: HostRuntime) -> Result<(), Fail> {
    let pair = about(&LEFT, &RIGHT, (3, 1));
    for size in [4_092, 9, 8] {
        let question = Question { size, ..pair };
        check(
            &rt,
            rt.alloc(),
            question,
            Ok(Verdict::Reached(4)),
            4,
            &MOVES,
        )?;
    }
    for size in [7, 1, 0] {
        let question = Question { size, ..pair };
        check(
            &rt,
            rt.alloc(),
            question,
            refused(18, 4, Part::Ask),
            -118,
            &[],
        )?;
    }
    let starts = about(&LEFT, &RIGHT, (0, 0));
    for size in [4_092, 1, 0] {
        let question = Question { size, ..starts };
        check(&rt, rt.alloc(), question, Ok(Verdict::Reached(0)), 0, &[])?;
    }
    Ok(())
}

#[test]
fn other_answers_write_nothing(rt: HostRuntime) -> Result<(), Fail> {
    let crowded = four_ways(rt.alloc(), 400)?;
    let rows = [
        (
            LEFT.as_slice(),
            RIGHT.as_slice(),
            (3, 3),
            Ok(Verdict::Never),
            -1,
        ),
        (
            &[],
            &UNKNOWN_COMMAND,
            (0, 0),
            refused(1, 0, Part::Listing),
            -101,
        ),
        (
            &UNKNOWN_COMMAND,
            &[],
            (0, 0),
            refused(2, 1, Part::Listing),
            -102,
        ),
        (&LEFT, &[], (0, 0), refused(1, 0, Part::Listing), -101),
        (
            &LEFT,
            &UNKNOWN_COMMAND,
            (0, 0),
            refused(2, 1, Part::Listing),
            -102,
        ),
        (
            &crowded,
            &FIVE_TAKEN,
            (0, 0),
            refused(13, 0, Part::Summarise),
            -113,
        ),
        (
            &OUTER_GIVEN_FIRST,
            &FIVE_TAKEN,
            (0, 0),
            refused(14, 32, Part::Summarise),
            -114,
        ),
        (
            &FIVE_TAKEN,
            &OUTER_GIVEN_FIRST,
            (0, 0),
            refused(15, 64, Part::Summarise),
            -115,
        ),
        (
            &LEFT,
            &crowded,
            (0, 0),
            refused(13, 0, Part::Summarise),
            -113,
        ),
        (
            &LEFT,
            &OUTER_GIVEN_FIRST,
            (0, 0),
            refused(14, 32, Part::Summarise),
            -114,
        ),
        (
            &LEFT,
            &FIVE_TAKEN,
            (0, 0),
            refused(15, 64, Part::Summarise),
            -115,
        ),
        (&LEFT, &RIGHT, (4, 4), refused(17, 0, Part::Ask), -117),
        (&LEFT, &RIGHT, (3, 4), refused(17, 1, Part::Ask), -117),
        (
            &LEFT,
            &RIGHT,
            (0, 4_294_967_295),
            refused(17, 1, Part::Ask),
            -117,
        ),
    ];
    for (left, right, pair, answer, number) in rows {
        check(
            &rt,
            rt.alloc(),
            about(left, right, pair),
            answer,
            number,
            &[],
        )?;
    }
    Ok(())
}

#[test]
fn long_listings_have_long_schedules(rt: HostRuntime) -> Result<(), Fail> {
    let heap = rt.alloc();
    let left = steps(heap, 500)?;
    let stop = [0x00];
    let front = vec![in heap; 0; 1_000]?;
    let answer = Ok(Verdict::Reached(500));
    check(
        &rt,
        rt.alloc(),
        about(&left, &stop, (500, 0)),
        answer,
        500,
        &front,
    )?;
    check(
        &rt,
        rt.alloc(),
        about(&stop, &left, (0, 501)),
        refused(17, 1, Part::Ask),
        -117,
        &[],
    )
}
