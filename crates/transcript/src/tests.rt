// Texts and what is written for each, worked out by hand: a way in which a transcript can end in each.
use crate::print_transcript;
use std::alloc::{AllocError, Global};
use std::io::{ErrorKind, Read, Write};
use std::test::Fail;
use std::{io, str};

// Whole texts and their transcripts.
const TEXTS: [(&str, &str); 17] = [
    // A text with a fault.
    ("", "line 1: the text ends before this line\n"),
    (
        "left\nleft\npair 0 0\nmoves\n",
        "line 2: the line does not begin with its word\n",
    ),
    (
        "left 0\nright\npair 0 0\nmoves\n",
        "line 1: a byte is not two hexadecimal digits\n",
    ),
    (
        "left\nright\npair 3\nmoves\n",
        "line 3: not two numbers below 4294967296\n",
    ),
    (
        "left\nright\npair 0 0\nmoves L0 U0\n",
        "line 4: a move is not L or R with its number\n",
    ),
    (
        "left\nright\npair 0 0\nmoves\n\n",
        "line 5: there is text after the fourth line\n",
    ),
    // A listing that is refused. The right one is not looked at after the left.
    (
        "left\nright 00\npair 0 0\nmoves\n",
        "left: refused 1 at 0 in listing\n",
    ),
    (
        "left 00 01\nright 02 08 00\npair 0 0\nmoves\n",
        "left: refused 7 at 1 in listing\n",
    ),
    (
        "left 00\nright 00 02 08 00\npair 0 0\nmoves\n",
        "left: locations 1, locked states 1\nright: refused 5 at 1 in listing\n",
    ),
    // A left summary that is refused. A replay needs none.
    (
        "left 02 00 02 01 03 00 00\nright 00\npair 3 0\nmoves L0 L0 L0\n",
        "left: locations 4, refused 14 at 32 in summarise\n\
        right: locations 1, locked states 1\n\
        start: left at 0 holding nothing, right at 0 holding nothing\n\
        L0: left at 1 holding 0, right at 0 holding nothing\n\
        L0: left at 2 holding 0 1, right at 0 holding nothing\n\
        L0: left at 3 holding 1, right at 0 holding nothing\n\
        replays to 3 0, moves 3\n\
        refused 16 at 0 in ask\n",
    ),
    // A right one.
    (
        "left 00\nright 02 00 02 01 02 02 02 03 02 04 00\npair 0 5\nmoves R0\n",
        "left: locations 1, locked states 1\n\
        right: locations 6, refused 15 at 64 in summarise\n\
        start: left at 0 holding nothing, right at 0 holding nothing\n\
        R0: left at 0 holding nothing, right at 1 holding 0\n\
        refused 21 at 1 in replay\n\
        refused 16 at 1 in ask\n",
    ),
    // Both, for too many states and for a fault. Which of locks 1 to 7 were taken while lock 0 is held makes 128
    // histories, and six locations come after them.
    (
        "left 02 00 \
        05 00 02 00 04 02 01 03 01 05 00 05 00 07 02 02 03 02 05 00 08 00 0a 02 03 03 03 05 00 0b 00 0d 02 04 03 04 \
        05 00 0e 00 10 02 05 03 05 05 00 11 00 13 02 06 03 06 05 00 14 00 16 02 07 03 07 01 01 01 01 01 00\n\
        right 02 00 02 01 03 00 00\npair 0 0\nmoves\n",
        "left: locations 28, refused 13 at 0 in summarise\n\
        right: locations 4, refused 14 at 32 in summarise\n\
        start: left at 0 holding nothing, right at 0 holding nothing\n\
        replays to 0 0, moves 0\n\
        refused 16 at 0 in ask\n",
    ),
    // One location less: 1,022 states.
    (
        "left 02 00 \
        05 00 02 00 04 02 01 03 01 05 00 05 00 07 02 02 03 02 05 00 08 00 0a 02 03 03 03 05 00 0b 00 0d 02 04 03 04 \
        05 00 0e 00 10 02 05 03 05 05 00 11 00 13 02 06 03 06 05 00 14 00 16 02 07 03 07 01 01 01 01 00\n\
        right 00\npair 0 1\nmoves\n",
        "left: locations 27, locked states 1022\n\
        right: locations 1, locked states 1\n\
        start: left at 0 holding nothing, right at 0 holding nothing\n\
        refused 17 at 1 in replay\n\
        refused 17 at 1 in ask\n",
    ),
    // A thread with a choice, and one whose locks stand in another order than it took them.
    (
        "left 02 00 05 00 02 00 05 02 01 03 01 04 00 05 00\nright 02 01 02 00 03 00 00\npair 5 3\nmoves R0 R0 R0 L0 L1",
        "left: locations 6, locked states 7\n\
        right: locations 4, locked states 4\n\
        start: left at 0 holding nothing, right at 0 holding nothing\n\
        R0: left at 0 holding nothing, right at 1 holding 1\n\
        R0: left at 0 holding nothing, right at 2 holding 0 1\n\
        R0: left at 0 holding nothing, right at 3 holding 1\n\
        L0: left at 1 holding 0, right at 3 holding 1\n\
        L1: left at 5 holding 0, right at 3 holding 1\n\
        replays to 5 3, moves 5\n\
        5 3 reached 5: R0 R0 R0 L0 L1\n",
    ),
    // A shortest schedule of twelve moves.
    (
        "left 00\nright 01 01 01 01 01 01 01 01 01 01 01 01 00\npair 0 12\nmoves\n",
        "left: locations 1, locked states 1\n\
        right: locations 13, locked states 13\n\
        start: left at 0 holding nothing, right at 0 holding nothing\n\
        refused 21 at 0 in replay\n\
        0 12 reached 12: R0 R0 R0 R0 R0 R0 R0 R0 R0 R0 R0 R0\n",
    ),
    // Locations that no listing can have.
    (
        "left 00\nright 00\npair 4294967295 0\nmoves\n",
        "left: locations 1, locked states 1\n\
        right: locations 1, locked states 1\n\
        start: left at 0 holding nothing, right at 0 holding nothing\n\
        refused 17 at 0 in replay\n\
        refused 17 at 0 in ask\n",
    ),
    // A thread that cannot go on: it takes a lock that it holds.
    (
        "left 02 00 02 00 00\nright 00\npair 2 0\nmoves L0 L0\n",
        "left: locations 3, locked states 2\n\
        right: locations 1, locked states 1\n\
        start: left at 0 holding nothing, right at 0 holding nothing\n\
        L0: left at 1 holding 0, right at 0 holding nothing\n\
        refused 20 at 1 in replay\n\
        2 0 never\n",
    ),
];

// Two threads that take locks 0 and 1, one in the other's order.
const THREADS: &str = "left 02 00 02 01 03 01 00\nright 02 01 02 00 03 00 00\n";

// What is written of them before any move.
const STARTS: &str = "left: locations 4, locked states 4\n\
    right: locations 4, locked states 4\n\
    start: left at 0 holding nothing, right at 0 holding nothing\n";

// Pairs and schedules of these threads, and what is written then.
const SCHEDULES: [(&str, &str); 11] = [
    (
        "pair 3 1\nmoves L0 L0 L0 R0\n",
        "L0: left at 1 holding 0, right at 0 holding nothing\n\
        L0: left at 2 holding 0 1, right at 0 holding nothing\n\
        L0: left at 3 holding 0, right at 0 holding nothing\n\
        R0: left at 3 holding 0, right at 1 holding 1\n\
        replays to 3 1, moves 4\n\
        3 1 reached 4: L0 L0 L0 R0\n",
    ),
    (
        "pair 1 3\nmoves\n",
        "refused 21 at 0 in replay\n1 3 reached 4: R0 R0 R0 L0\n",
    ),
    (
        "pair 0 0\nmoves\n",
        "replays to 0 0, moves 0\n0 0 reached 0:\n",
    ),
    (
        "pair 3 3\nmoves\n",
        "refused 21 at 0 in replay\n3 3 never\n",
    ),
    (
        "pair 2 1\nmoves\n",
        "refused 21 at 0 in replay\n2 1 never\n",
    ),
    (
        "pair 9 0\nmoves L0\n",
        "L0: left at 1 holding 0, right at 0 holding nothing\n\
        refused 17 at 0 in replay\n\
        refused 17 at 0 in ask\n",
    ),
    (
        "pair 0 9\nmoves\n",
        "refused 17 at 1 in replay\nrefused 17 at 1 in ask\n",
    ),
    // After a move that cannot be made no other is.
    (
        "pair 3 1\nmoves L0 L1 L0 L0 R0\n",
        "L0: left at 1 holding 0, right at 0 holding nothing\n\
        refused 19 at 1 in replay\n\
        3 1 reached 4: L0 L0 L0 R0\n",
    ),
    (
        "pair 1 0\nmoves L0 L16 R65279\n",
        "L0: left at 1 holding 0, right at 0 holding nothing\n\
        refused 19 at 1 in replay\n\
        1 0 reached 1: L0\n",
    ),
    (
        "pair 3 1\nmoves R0 L0 L0 R0\n",
        "R0: left at 0 holding nothing, right at 1 holding 1\n\
        L0: left at 1 holding 0, right at 1 holding 1\n\
        refused 20 at 2 in replay\n\
        3 1 reached 4: L0 L0 L0 R0\n",
    ),
    (
        "pair 3 1\nmoves L0\n",
        "L0: left at 1 holding 0, right at 0 holding nothing\n\
        refused 21 at 1 in replay\n\
        3 1 reached 4: L0 L0 L0 R0\n",
    ),
];

#[test]
fn each_text_has_its_transcript(rt: HostRuntime) -> Result<(), Fail> {
    for (text, wanted) in TEXTS {
        let written = printed(rt.alloc(), text)?;
        assert_eq!(rt; str::from_utf8(&written)?, wanted, "for {text}");
    }
    Ok(())
}

#[test]
fn each_schedule_has_its_transcript(rt: HostRuntime) -> Result<(), Fail> {
    let heap = rt.alloc();
    for (asked, wanted) in SCHEDULES {
        let text = format!(in heap; "{THREADS}{asked}")?;
        let written = printed(heap, text.as_str())?;
        let wanted = format!(in heap; "{STARTS}{wanted}")?;
        assert_eq!(rt; str::from_utf8(&written)?, wanted.as_str(), "for {asked}");
    }
    Ok(())
}

#[test]
fn an_item_too_many_is_a_fault(rt: HostRuntime) -> Result<(), Fail> {
    let heap = rt.alloc();
    let items = repeated(heap, " 00", 4097)?;
    let text = format!(in heap; "left{items}\n")?;
    let written = printed(heap, text.as_str())?;
    assert!(rt; written.as_slice() == b"line 1: more than 4096 items\n".as_slice());
    Ok(())
}

#[test]
fn the_most_moves_are_traced(rt: HostRuntime) -> Result<(), Fail> {
    let heap = rt.alloc();
    let moves = repeated(heap, " L0", 4096)?;
    let text = format!(in heap; "left 04 00 00\nright 00\npair 0 0\nmoves{moves}\n")?;
    let stays = "left at 0 holding nothing, right at 0 holding nothing\n";
    let trace = repeated(heap, format!(in heap; "L0: {stays}")?.as_str(), 4096)?;
    let line = "locations 1, locked states 1\n";
    let wanted = format!(in heap;
        "left: {line}right: {line}start: {stays}{trace}replays to 0 0, moves 4096\n0 0 reached 0:\n"
    )?;
    let written = printed(heap, text.as_str())?;
    assert!(rt; written.as_slice() == wanted.as_bytes());
    Ok(())
}

#[test]
fn a_long_schedule_is_written_to_its_end(rt: HostRuntime) -> Result<(), Fail> {
    let heap = rt.alloc();
    let passes = repeated(heap, " 01", 511)?;
    let text = format!(in heap; "left{passes} 00\nright 00\npair 511 0\nmoves\n")?;
    let moves = repeated(heap, " L0", 511)?;
    let wanted = format!(in heap; "refused 21 at 0 in replay\n511 0 reached 511:{moves}\n")?;
    let written = printed(heap, text.as_str())?;
    assert!(rt; written.ends_with(wanted.as_bytes()));
    Ok(())
}

// What is printed of a text.
fn printed(heap: Global, text: &str) -> io::Result<Vec<u8>> {
    let mut output = Vec::new(heap);
    print_transcript(heap, text.as_bytes(), &mut output)?;
    Ok(output)
}

fn repeated(heap: Global, piece: &str, times: usize) -> Result<String, AllocError> {
    let mut text = String::new(heap);
    for _ in 0..times {
        text.push_str(piece)?;
    }
    Ok(text)
}

#[test]
fn a_transcript_is_printed_after_what_is_there(rt: HostRuntime) -> Result<(), Fail> {
    let mut output = Vec::from_slice(rt.alloc(), b"before\n")?;
    print_transcript(rt.alloc(), b"right".as_slice(), &mut output)?;
    assert!(rt;
        output.as_slice() == b"before\nline 1: the line does not begin with its word\n".as_slice()
    );
    Ok(())
}

// Reads these bytes, and then fails.
#[derive(Drop)]
struct BreaksOff<'t>(&'t [u8]);

impl Read for BreaksOff<'_> {
    fn read(&mut self, buf: &mut [u8]) -> io::Result<usize> {
        if self.0.is_empty() {
            return Err(io::Error::from(ErrorKind::BrokenPipe));
        }
        self.0.read(buf)
    }
}

// Writes as many bytes as there is room for, and then fails, also where it is flushed.
#[derive(Drop)]
struct FillsUp(usize);

impl Write for FillsUp {
    fn write(&mut self, buf: &[u8]) -> io::Result<usize> {
        if self.0 == 0 {
            return Err(io::Error::from(ErrorKind::StorageFull));
        }
        let taken = buf.len().min(self.0);
        self.0 -= taken;
        Ok(taken)
    }

    fn flush(&mut self) -> io::Result<()> {
        if self.0 == 0 {
            return Err(io::Error::from(ErrorKind::StorageFull));
        }
        Ok(())
    }
}

// A whole text, after which nothing is left to be read but an error.
const WHOLE: &[u8] = b"left 00\nright 00\npair 0 0\nmoves\n";

#[test]
fn an_error_of_the_reader_comes_out(rt: HostRuntime) -> Result<(), Fail> {
    let mut output = Vec::new(rt.alloc());
    let answer = print_transcript(rt.alloc(), BreaksOff(WHOLE), &mut output);
    assert_eq!(rt; failed(answer), Some(ErrorKind::BrokenPipe));
    assert!(rt; output.is_empty());
    Ok(())
}

#[test]
fn an_error_of_the_writer_comes_out(rt: HostRuntime) -> Result<(), Fail> {
    let whole = printed(rt.alloc(), str::from_utf8(WHOLE)?)?.len();
    for room in [0, 1, 40, whole] {
        let answer = print_transcript(rt.alloc(), WHOLE, &mut FillsUp(room));
        assert_eq!(rt; failed(answer), Some(ErrorKind::StorageFull));
    }
    Ok(())
}

fn failed(answer: io::Result<()>) -> Option<ErrorKind> {
    answer.err().map(|error| error.kind())
}
