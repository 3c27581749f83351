use crate::table::{EdgeTable, Record, TableFault};
use graph::ThreadGraph;
use locks::steps::{Kind, Step};
use std::test::Fail;

// The number and the place of a refusal, or nothing where the table was read.
fn refusal(answer: Result<(), TableFault>) -> Option<(u8, usize)> {
    let refusal = answer.err()?.refusal();
    Some((refusal.number, refusal.place))
}

fn record(from: u16, kind: u16, lock: u16, to: u16) -> Record {
    Record {
        from,
        kind,
        lock,
        to,
    }
}

const PLAIN: Record = Record {
    from: 0,
    kind: 0,
    lock: 0,
    to: 1,
};

#[test]
fn locations_are_512_at_most(rt: HostRuntime) -> Result<(), Fail> {
    let mut table = EdgeTable::new(rt.alloc())?;
    for (locations, start, want) in [
        (0, 0, Some((8, 0))),
        (513, 600, Some((8, 0))),
        (512, 512, Some((9, 0))),
        (1, 1, Some((9, 0))),
        (512, 511, None),
    ] {
        assert_eq!(rt;
            refusal(table.read(locations, start, &[])),
            want,
            "of {locations}"
        );
    }
    assert_eq!(rt; table.locations(), 512);
    assert_eq!(rt; table.start(), 511);
    Ok(())
}

#[test]
fn the_first_wrong_record_is_told(rt: HostRuntime) -> Result<(), Fail> {
    let mut table = EdgeTable::new(rt.alloc())?;
    for wrong in [
        record(2, 0, 0, 1),
        record(0, 0, 0, 2),
        record(0, 3, 0, 1),
        record(0, 1, 8, 1),
        record(0, 2, 256, 1),
        record(0, 0, 1, 1),
    ] {
        let records = [PLAIN, PLAIN, wrong, PLAIN, record(9, 9, 9, 9)];
        assert_eq!(rt;
            refusal(table.read(2, 0, &records)),
            Some((10, 2)),
            "{wrong:?}"
        );
    }
    assert_eq!(rt; table.step_count(0), 0);
    Ok(())
}

#[test]
fn a_location_has_16_steps_at_most(rt: HostRuntime) -> Result<(), Fail> {
    let mut table = EdgeTable::new(rt.alloc())?;
    let mut records = [PLAIN; 19];
    records[3] = record(1, 2, 7, 0);
    assert_eq!(rt; refusal(table.read(2, 1, &records)), Some((11, 17)));
    records[18] = record(0, 0, 0, 2);
    assert_eq!(rt; refusal(table.read(2, 1, &records)), Some((10, 18)));
    records[16] = record(0, 1, 7, 0);
    assert_eq!(rt; refusal(table.read(2, 1, &records[..17])), None);
    assert_eq!(rt; table.step_count(0), 16);
    let last = Step {
        kind: Kind::Take,
        lock: 7,
        target: 0,
    };
    assert_eq!(rt; table.step(0, 15), Some(last));
    assert_eq!(rt; table.step(0, 16), None);
    assert_eq!(rt; table.step_count(1), 1);
    assert_eq!(rt; table.step_count(2), 0);
    Ok(())
}
