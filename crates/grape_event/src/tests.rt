use crate::repeat::Repeat;
use crate::{Event, Journal, StopCause};
use std::mem::size_of;
use std::test::Fail;

#[test]
fn an_event_is_small() {
    prove!(size_of::<Event>() == 16);
    prove!(size_of::<Repeat>() == 4);
}

#[test]
fn events_are_listed(rt: HostRuntime) -> Result<(), Fail> {
    let table = [
        (Event::Take { worker: 0, lane: 1 }, false),
        (Event::Seal { epoch: 3 }, false),
        (Event::End, true),
        (Event::Ack { worker: 2 }, false),
        (
            Event::Stop {
                cause: StopCause::Disk,
            },
            true,
        ),
    ];
    let mut journal = Journal::new(rt.alloc());
    assert!(rt; !journal.ended());
    assert_eq!(rt; journal.last(), None);
    journal.reserve(table.len() as u64)?;
    let room = journal.spare();
    assert!(rt; room >= table.len() as u64);
    for (count, (event, is_end)) in table.into_iter().enumerate() {
        assert!(rt; journal.spare() == room - count as u64);
        journal.push(event);
        assert_eq!(rt; journal.len(), count as u64 + 1);
        assert_eq!(rt; journal.get(count as u64), Some(event));
        assert_eq!(rt; journal.get(count as u64 + 1), None);
        assert_eq!(rt; journal.last(), Some(event));
        assert_eq!(rt; journal.ended(), is_end);
    }
    Ok(())
}

/// An event of each kind, with these numbers.
fn of_each_kind(worker: u32, other: u32, epoch: u64) -> [Event; 15] {
    [
        Event::Take {
            worker,
            lane: other,
        },
        Event::Give { worker },
        Event::Stretch {
            worker,
            turns: other,
        },
        Event::Hold { worker },
        Event::Flag { worker },
        Event::Ask,
        Event::Ack { worker },
        Event::Nack { worker },
        Event::Begin { epoch },
        Event::Mark { worker },
        Event::Seal { epoch },
        Event::Kept { epoch },
        Event::End,
        Event::Stop {
            cause: StopCause::Disk,
        },
        Event::Stop {
            cause: StopCause::Memory,
        },
    ]
}

/// Pushes each event so many times.
fn push_each(journal: &mut Journal, events: &[Event], times: u64) -> Result<(), Fail> {
    for event in events {
        for _ in 0..times {
            journal.reserve(1)?;
            journal.push(*event);
        }
    }
    Ok(())
}

/// The first place at which the journal doesn't have the event of the list that is listed so many times.
fn first_wrong(journal: &Journal, events: &[Event], times: u64, from: u64) -> Option<u64> {
    let mut place = from;
    for event in events {
        for _ in 0..times {
            if journal.get(place) != Some(*event) {
                return Some(place);
            }
            place = place.saturating_add(1);
        }
    }
    None
}

#[test]
fn small_and_large_numbers_come_back(rt: HostRuntime) -> Result<(), Fail> {
    let rows = [
        (0, 0, 0),
        (63, 64, 127),
        (255, 255, 255),
        (256, 255, 256),
        (255, 256, 1 << 26),
        (1 << 31, 3, (1 << 32) + 5),
        (u32::MAX, u32::MAX, u64::MAX),
    ];
    for times in [1, 2, 300] {
        let mut journal = Journal::new(rt.alloc());
        for (worker, other, epoch) in rows {
            let from = journal.len();
            let events = of_each_kind(worker, other, epoch);
            push_each(&mut journal, &events, times)?;
            assert_eq!(rt; first_wrong(&journal, &events, times, from), None);
        }
        let mut from = 0;
        for (worker, other, epoch) in rows {
            let events = of_each_kind(worker, other, epoch);
            assert_eq!(rt; first_wrong(&journal, &events, times, from), None);
            from = times.saturating_mul(15).saturating_add(from);
        }
        assert_eq!(rt; journal.len(), from);
    }
    Ok(())
}

#[test]
fn a_million_holds_take_little(rt: HostRuntime) -> Result<(), Fail> {
    let mut journal = Journal::new(rt.alloc());
    let hold = Event::Hold { worker: 7 };
    push_each(&mut journal, &[hold], 1_000_000)?;
    assert_eq!(rt; journal.len(), 1_000_000);
    assert!(rt; journal.bytes() < 40_000);
    for place in [0, 255, 256, 16_383, 16_384, 999_999] {
        assert_eq!(rt; journal.get(place), Some(hold));
    }
    assert_eq!(rt; journal.get(1_000_000), None);
    Ok(())
}

#[test]
fn events_that_differ_take_four_bytes(rt: HostRuntime) -> Result<(), Fail> {
    let mut journal = Journal::new(rt.alloc());
    let pair = [
        Event::Take { worker: 3, lane: 1 },
        Event::Give { worker: 3 },
    ];
    for _ in 0..65_536 {
        push_each(&mut journal, &pair, 1)?;
    }
    assert!(rt; journal.bytes() <= 2 * 131_072 * 5);
    for place in 0..131_072 {
        assert_eq!(rt; journal.get(place), Some(pair[place as usize % 2]));
    }
    Ok(())
}
