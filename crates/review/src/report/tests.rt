use crate::report::asks::Asks;
use search::threads::Pair;
use std::test::Fail;

#[test]
fn a_pair_is_asked_once(rt: HostRuntime) -> Result<(), Fail> {
    let one = Pair { left: 1, right: 2 };
    let other = Pair { left: 2, right: 1 };
    let last = Pair { left: 2, right: 2 };
    let missing = Pair {
        left: 3,
        right: 70_000,
    };
    let pairs = [one, other, one, missing, last, other, last, missing, one];
    let asks = Asks::of(rt.alloc(), &pairs, 3, 3)?;
    assert_eq!(rt;
        asks.pairs.as_slice(),
        [one, other, missing, last].as_slice()
    );
    assert_eq!(rt;
        asks.places.as_slice(),
        [0, 1, 0, 2, 3, 1, 3, 2, 0].as_slice()
    );
    Ok(())
}
