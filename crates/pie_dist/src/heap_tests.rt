use crate::{NearHeap, rows_clear, rows_lower, rows_pop};
use std::test::Fail;

#[test]
fn the_nearest_come_off_first(rt: HostRuntime) -> Result<(), Fail> {
    let mut heap = NearHeap::new(rt.alloc(), 3)?;
    for (place, key) in [(2, 5), (0, 5), (1, 9), (1, 4), (1, 6)] {
        heap.lower(place, key);
    }
    for nearest in [Some((1, 4)), Some((0, 5)), Some((2, 5)), None, None] {
        assert_eq!(rt; heap.pop(), nearest);
    }
    Ok(())
}

#[test]
fn lent_rows_hold_a_heap(rt: HostRuntime) {
    let mut rows = [7; 10];
    rows_clear(&mut rows, 3);
    rows_lower(&mut rows, 3, 2, 5);
    rows_lower(&mut rows, 3, 0, 5);
    rows_lower(&mut rows, 3, 1, u64::MAX);
    for nearest in [Some((0, 5)), Some((2, 5)), Some((1, u64::MAX)), None] {
        assert_eq!(rt; rows_pop(&mut rows, 3), nearest);
    }
    rows_clear(&mut rows, 0);
    assert_eq!(rt; rows_pop(&mut rows, 0), None);
}
