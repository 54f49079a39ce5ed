//! What is seen in the journals of runs with snapshots.

use grape_event::{Event, Journal};

/// What was seen in runs: snapshots, and Gives of marked workers and of others while a recording was open.
#[derive(Clone, Copy)]
pub(crate) struct Seen {
    pub(crate) snapshots: u32,
    pub(crate) marked: u32,
    pub(crate) unmarked: u32,
}

/// Which workers are marked, as bits, where a recording is open.
fn marks_after(marks: Option<u64>, event: Event) -> Option<u64> {
    match event {
        Event::Begin { .. } => Some(0),
        Event::Seal { .. } => None,
        Event::Mark { worker } => match marks {
            Some(bits) => Some(bits | 1u64.wrapping_shl(worker)),
            None => None,
        },
        _ => marks,
    }
}

/// What is seen in an event, with what was seen before.
fn saw(seen: Seen, marks: Option<u64>, event: Event) -> Seen {
    let mut seen = seen;
    match event {
        Event::Seal { .. } => seen.snapshots = seen.snapshots.saturating_add(1),
        Event::Give { worker } => match marks {
            Some(bits) => {
                if bits & 1u64.wrapping_shl(worker) != 0 {
                    seen.marked = seen.marked.saturating_add(1);
                } else {
                    seen.unmarked = seen.unmarked.saturating_add(1);
                }
            }
            None => {}
        },
        _ => {}
    }
    seen
}

/// What is seen in a journal, with what was seen before.
pub(crate) fn saw_all(seen: Seen, journal: &Journal) -> Seen {
    let mut seen = seen;
    let mut marks = None;
    for place in 0..journal.len() {
        if let Some(event) = journal.get(place) {
            seen = saw(seen, marks, event);
            marks = marks_after(marks, event);
        }
    }
    seen
}
