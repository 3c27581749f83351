use review::report::print_report;
use std::test::Fail;

// Both threads are one STOP.
const NO_PAIRS: [u8; 9] = [0x10, 0, 1, 0x00, 0x11, 0, 1, 0x00, 0x1f];

const BYTE_BEHIND_END: [u8; 10] = [0x10, 0, 1, 0x00, 0x11, 0, 1, 0x00, 0x1f, 0];

// Each thread takes a lock, the left one lock 1, the right one lock 0. The last two pairs have a missing location.
const TWO_TAKES: [u8; 33] = [
    0x10, 0, 3, 0x02, 1, 0x00, 0x11, 0, 3, 0x02, 0, 0x00, 0x12, 0, 1, 0, 0, 0x12, 0, 0, 0, 1, 0x12,
    0, 2, 0, 0, 0x12, 0, 0, 0, 2, 0x1f,
];

// The same threads, but lock 0 of the right one is lock 1, 1 is 2, and 2 is 0: so both take lock 1.
const RENAMED: [u8; 32] = [
    0x10, 0, 3, 0x02, 1, 0x00, 0x11, 0, 3, 0x02, 0, 0x00, 0x13, 1, 2, 0, 3, 4, 5, 6, 7, 0x12, 0, 1,
    0, 1, 0x12, 0, 1, 0, 0, 0x1f,
];

const NAME_TWICE: [u8; 18] = [
    0x10, 0, 1, 0x00, 0x11, 0, 1, 0x00, 0x13, 3, 3, 1, 2, 4, 5, 6, 7, 0x1f,
];

// A thread takes locks 0 and 1 and gives 0 back first.
const OUTER_GIVEN_FIRST: [u8; 15] = [
    0x10, 0, 7, 0x02, 0, 0x02, 1, 0x03, 0, 0x00, 0x11, 0, 1, 0x00, 0x1f,
];

// The right thread takes five locks.
const FIVE_TAKEN: [u8; 19] = [
    0x10, 0, 1, 0x00, 0x11, 0, 11, 0x02, 0, 0x02, 1, 0x02, 2, 0x02, 3, 0x02, 4, 0x00, 0x1f,
];

#[test]
fn each_file_has_its_text(rt: HostRuntime) -> Result<(), Fail> {
    let long = [0; 40_000];
    let rows = [
        ("no pairs", NO_PAIRS.as_slice(), ""),
        (
            "two takes",
            &TWO_TAKES,
            "1 0 reached 1: L0\n0 1 reached 1: R0\n2 0 refused 17\n0 2 refused 17\n",
        ),
        (
            "one lock by another name",
            &RENAMED,
            "1 1 never\n1 0 reached 1: L0\n",
        ),
        ("no bytes", &[], "refused 23 at 0 in file\n"),
        ("right first", &[0x11], "refused 22 at 0 in file\n"),
        (
            "section cut short",
            &[0x10, 0, 7, 0x02],
            "refused 23 at 4 in file\n",
        ),
        (
            "left of no bytes",
            &[0x10, 0, 0],
            "refused 1 at 0 in left\n",
        ),
        (
            "right runs off its end",
            &[0x10, 0, 1, 0x00, 0x11, 0, 2, 0x01, 0x01],
            "refused 7 at 1 in right\n",
        ),
        ("name twice", &NAME_TWICE, "refused 12 at 1 in names\n"),
        (
            "byte behind end",
            &BYTE_BEHIND_END,
            "refused 22 at 9 in file\n",
        ),
        (
            "outer given first",
            &OUTER_GIVEN_FIRST,
            "refused 14 at 32 in left\n",
        ),
        ("five taken", &FIVE_TAKEN, "refused 15 at 64 in right\n"),
        ("32,768 bytes", &long[..32_768], "refused 22 at 0 in file\n"),
        (
            "32,769 bytes",
            &long[..32_769],
            "refused 25 at 32768 in file\n",
        ),
        ("40,000 bytes", &long, "refused 25 at 32768 in file\n"),
    ];
    for (name, file, text) in rows {
        let mut printed = Vec::new(rt.alloc());
        print_report(rt.alloc(), file, &mut printed)?;
        assert_eq!(rt; printed.as_slice(), text.as_bytes(), "{name}");
    }
    Ok(())
}
