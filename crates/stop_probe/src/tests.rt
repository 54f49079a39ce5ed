ghost use Rattle.std.specs.Prelude.{◌≡◌};

use crate::Probe;
use grape_event::Event;
use std::test::Fail;

fn take(worker: u32) -> Event {
    Event::Take { worker, lane: 0 }
}

fn give(worker: u32) -> Event {
    Event::Give { worker }
}

fn flag(worker: u32) -> Event {
    Event::Flag { worker }
}

fn ack(worker: u32) -> Event {
    Event::Ack { worker }
}

fn nack(worker: u32) -> Event {
    Event::Nack { worker }
}

/// Makes the call of an event where it is allowed, and says whether it was. There are two workers.
fn play(probe: &mut Probe, event: Event) -> bool
    requires { probe.old.workers ≡ 2 }
    ensures { probe.new.workers ≡ 2 }
{
    match event {
        Event::Take { worker, .. } if worker < 2 => probe.took(worker),
        Event::Flag { worker } if probe.may_flag(worker) => probe.flag(worker),
        Event::Ask if probe.may_ask() => probe.ask(),
        Event::Ack { worker }
            if worker < 2 && probe.may_answer(worker) && !probe.took_since_ask(worker) => {
            probe.ack(worker)
        }
        Event::Nack { worker } if probe.may_answer(worker) => probe.nack(worker),
        Event::End => return probe.may_end(),
        Event::Give { .. } => {}
        _ => return false,
    }
    true
}

/// The first place where an event is allowed and should not be, or the other way round.
fn first_wrong(probe: &mut Probe, rows: &[(Event, bool)]) -> Option<usize>
    requires { probe.old.workers ≡ 2 }
    ensures { probe.new.workers ≡ 2 }
{
    for (place, row) in rows.iter().enumerate() {
        if play(probe, row.0) != row.1 {
            return Some(place);
        }
    }
    None
}

// Worker 1 has mail when it is asked first, so that it answers Nack and all are asked again.
fn asked_twice() -> [(Event, bool); 32] {
    [
        (take(1), true),
        (give(1), true),
        (Event::Ask, false),
        (flag(1), true),
        (flag(1), false),
        (flag(2), false),
        (take(0), true),
        (give(0), true),
        (Event::Ask, false),
        (ack(0), false),
        (flag(0), true),
        (Event::End, false),
        (Event::Ask, true),
        (Event::Ask, false),
        (Event::End, false),
        (ack(2), false),
        (ack(0), true),
        (ack(0), false),
        (nack(0), false),
        (nack(1), true),
        (flag(0), false),
        (ack(1), false),
        (Event::Ask, false),
        (take(1), true),
        (give(1), true),
        (flag(1), true),
        (Event::Ask, true),
        (ack(0), true),
        (Event::End, false),
        (ack(1), true),
        (Event::Ask, false),
        (Event::End, true),
    ]
}

#[test]
fn a_nack_needs_another_ask(rt: HostRuntime) -> Result<(), Fail> {
    let mut probe = Probe::new(2);
    assert_eq!(rt; first_wrong(&mut probe, &asked_twice()), None);
    Ok(())
}

// Worker 1 takes its mail after the Ask, so that it can't answer Ack though it rests without mail.
fn taken_since() -> [(Event, bool); 11] {
    [
        (flag(1), true),
        (take(0), true),
        (give(0), true),
        (flag(0), true),
        (Event::Ask, true),
        (ack(0), true),
        (take(1), true),
        (give(1), true),
        (ack(1), false),
        (nack(1), true),
        (Event::Ask, false),
    ]
}

#[test]
fn a_take_after_the_ask_forbids_an_ack(rt: HostRuntime) -> Result<(), Fail> {
    let mut probe = Probe::new(2);
    assert_eq!(rt; first_wrong(&mut probe, &taken_since()), None);
    assert!(rt; probe.took_since_ask(1) && !probe.took_since_ask(0) && probe.may_flag(1));
    Ok(())
}

#[test]
fn sixty_four_workers(rt: HostRuntime) -> Result<(), Fail> {
    let mut probe = Probe::new(64);
    for worker in 0..64 {
        assert!(rt; !probe.may_ask());
        assert!(rt; probe.may_flag(worker));
        probe.flag(worker);
    }
    assert!(rt; probe.may_ask() && !probe.may_flag(64));
    Ok(())
}
