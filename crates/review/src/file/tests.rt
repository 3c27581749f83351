use crate::file::{FileFault, Review};
use layers::names::NamesFault;
use std::test::Fail;

// Both threads are STOP, the names are turned, and there is one pair.
const FILE: [u8; 23] = [
    0x10, 0, 1, 0x00, 0x11, 0, 1, 0x00, 0x13, 7, 6, 5, 4, 3, 2, 1, 0, 0x12, 0, 0, 0, 0, 0x1f,
];

#[test]
fn a_refused_file_leaves_its_review(rt: HostRuntime) -> Result<(), Fail> {
    let mut review = Review::blank(rt.alloc())?;
    assert_eq!(rt; review.read(&FILE), Ok(()));

    let mut repeated = FILE;
    repeated[12] = 7;
    let fault = FileFault::InNames {
        fault: NamesFault { at: 3 },
        place: 9,
    };
    assert_eq!(rt; review.read(&repeated), Err(fault));
    assert_eq!(rt; fault.file_offset(), 12);

    let (_, right, pairs) = review.into_parts();
    assert_eq!(rt; *right.names.numbers(), [7, 6, 5, 4, 3, 2, 1, 0]);
    assert_eq!(rt; pairs.len(), 1);
    Ok(())
}
