use crate::names::{Names, NamesFault};
use std::test::Fail;

#[test]
fn each_number_stands_once(rt: HostRuntime) -> Result<(), Fail> {
    let mut names = Names::new();
    let turned = [7, 6, 5, 4, 3, 2, 1, 0];
    assert_eq!(rt; names.set(turned), Ok(()));
    for (numbers, at) in [
        ([0, 0, 0, 0, 0, 0, 0, 0], 1),
        ([8, 0, 1, 2, 3, 4, 5, 6], 0),
        ([0, 1, 2, 3, 4, 5, 6, 255], 7),
        ([1, 2, 3, 4, 5, 6, 7, 1], 7),
        ([1, 2, 1, 2, 9, 6, 7, 1], 2),
    ] {
        assert_eq!(rt; names.set(numbers), Err(NamesFault { at }));
    }
    assert_eq!(rt; *names.numbers(), turned);
    assert_eq!(rt; NamesFault { at: 3 }.refusal().number, 12);
    Ok(())
}
