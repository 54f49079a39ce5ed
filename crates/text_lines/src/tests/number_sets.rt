//! Sets of vertex numbers, small and large ones.

use crate::number_set::NumberSet;
use std::test::Fail;

#[test]
fn number_sets(rt: HostRuntime) -> Result<(), Fail> {
    let mut set = NumberSet::new(rt.alloc());
    for (number, is_new) in [
        (16_777_216, true),
        (5, true),
        (4_294_967_295, true),
        (5, false),
        (0, true),
        (16_777_217, true),
        (16_777_216, false),
        (16_777_728, true),
        (17_039_360, true),
        (16_777_728, false),
    ] {
        assert_eq!(rt; set.contains(number), !is_new);
        assert_eq!(rt; set.insert(number), Ok(is_new));
        assert!(rt; set.contains(number));
    }
    for number in [
        1,
        4,
        6,
        16_777_215,
        16_777_218,
        16_777_729,
        17_039_872,
        4_294_967_294,
    ] {
        assert!(rt; !set.contains(number));
    }
    assert_eq!(rt; set.len(), 7);
    let sorted = set.sorted(rt.alloc())?;
    let want: [u32; 7] = [
        0,
        5,
        16_777_216,
        16_777_217,
        16_777_728,
        17_039_360,
        4_294_967_295,
    ];
    assert_eq!(rt; sorted.as_slice(), want.as_slice());
    Ok(())
}
