use crate::{Buffer, Hand};
use std::process::Abort;
use std::test::Fail;
use value_order::{NOTHING, Order};

/// Stops where a buffer has other counts: of batches, of tagged ones, of mirrors with a value.
fn check_counts(rt: &impl Abort, buffer: &Buffer, want: (u64, u64, u32)) {
    assert_eq!(rt; (buffer.batches(), buffer.tagged(), buffer.waiting()), want);
}

#[test]
fn takes_the_meet(rt: HostRuntime) -> Result<(), Fail> {
    let table = [
        (Order::Least, 5, 3, 3),
        (Order::Least, 3, 5, 3),
        (Order::Mask, 6, 3, 2),
        (Order::Mask, 1, 2, 0),
    ];
    for (order, first, second, want) in table {
        let mut hand = Hand::new(rt.alloc(), order, 2)?;
        assert!(rt; hand.is_empty());
        hand.lower(1, first);
        hand.lower(1, second);
        assert!(rt; !hand.is_empty());
        assert_eq!(rt; hand.values(), [NOTHING, want].as_slice());
        assert_eq!(rt; hand.mirrors(), [1].as_slice());
    }
    Ok(())
}

#[test]
fn takes_what_was_posted(rt: HostRuntime) -> Result<(), Fail> {
    // two posts untagged and one tagged to mirror 0, one untagged to mirror 1, one tagged to mirror 2
    let untagged = [6, 7, NOTHING, NOTHING];
    let table = [
        (Order::Least, [9, 6, 4], [4, 7, 5, NOTHING]),
        (Order::Mask, [14, 7, 3], [2, 7, 5, NOTHING]),
    ];
    for (order, [first, second, third], all) in table {
        let mut buffer = Buffer::new(rt.alloc(), order, 4)?;
        let mut hand = Hand::new(rt.alloc(), order, 4)?;
        hand.lower(3, 1);
        check_counts(&rt, &buffer, (0, 0, 0));
        assert_eq!(rt; buffer.plain(), [NOTHING; 4].as_slice());

        buffer.begin_batch(false);
        buffer.post(false, 0, first);
        buffer.post(false, 1, 7);
        buffer.begin_batch(false);
        buffer.post(false, 0, second);
        buffer.begin_batch(true);
        buffer.post(true, 0, third);
        buffer.post(true, 2, 5);
        check_counts(&rt, &buffer, (3, 1, 3));
        assert_eq!(rt; buffer.plain(), untagged.as_slice());

        buffer.take(&mut hand);
        assert_eq!(rt; hand.values(), all.as_slice());
        assert_eq!(rt; hand.mirrors(), [0, 1, 2].as_slice());
        check_counts(&rt, &buffer, (0, 0, 0));
        assert_eq!(rt; buffer.plain(), [NOTHING; 4].as_slice());

        buffer.take(&mut hand);
        assert!(rt; hand.is_empty());
        assert!(rt; hand.mirrors().is_empty());
    }
    Ok(())
}

#[test]
fn takes_again_with_the_same_hand(rt: HostRuntime) -> Result<(), Fail> {
    let table = [
        (Order::Least, [6, 3], [NOTHING, 3, 6]),
        (Order::Mask, [6, 3], [NOTHING, 2, 6]),
    ];
    for (order, [first, second], want) in table {
        let mut buffer = Buffer::new(rt.alloc(), order, 3)?;
        let mut hand = Hand::new(rt.alloc(), order, 3)?;
        buffer.begin_batch(false);
        buffer.post(false, 2, first);
        buffer.post(false, 0, second);
        buffer.take(&mut hand);
        assert_eq!(rt; hand.values(), [second, NOTHING, first].as_slice());
        assert_eq!(rt; hand.mirrors(), [2, 0].as_slice());

        // tagged first, then untagged, and what was lowered in the hand itself is gone
        hand.lower(1, 0);
        buffer.begin_batch(true);
        buffer.post(true, 1, second);
        buffer.begin_batch(false);
        buffer.post(false, 1, first);
        buffer.post(false, 2, first);
        check_counts(&rt, &buffer, (2, 1, 2));
        buffer.take(&mut hand);
        assert_eq!(rt; hand.values(), want.as_slice());
        assert_eq!(rt; hand.mirrors(), [1, 2].as_slice());
        assert_eq!(rt; buffer.plain(), [NOTHING; 3].as_slice());
        check_counts(&rt, &buffer, (0, 0, 0));
    }
    Ok(())
}

#[test]
fn folds_the_tagged_batches(rt: HostRuntime) -> Result<(), Fail> {
    let table = [(Order::Least, 12, 10, 10), (Order::Mask, 12, 10, 8)];
    for (order, untagged, tagged, met) in table {
        let mut buffer = Buffer::new(rt.alloc(), order, 3)?;
        buffer.begin_batch(false);
        buffer.post(false, 0, untagged);
        buffer.begin_batch(true);
        buffer.post(true, 0, tagged);
        buffer.begin_batch(true);
        buffer.post(true, 2, tagged);
        check_counts(&rt, &buffer, (3, 2, 2));

        buffer.fold();
        assert_eq!(rt; buffer.plain(), [met, NOTHING, tagged].as_slice());
        check_counts(&rt, &buffer, (3, 0, 2));

        let mut hand = Hand::new(rt.alloc(), order, 3)?;
        buffer.take(&mut hand);
        assert_eq!(rt; hand.values(), [met, NOTHING, tagged].as_slice());
        assert_eq!(rt; hand.mirrors(), [0, 2].as_slice());
    }
    Ok(())
}
