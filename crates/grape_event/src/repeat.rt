ghost use Rattle.std.specs.Prelude.{◌≡◌, true, false, ◌<◌, ◌≤◌, length, slice_index};
ghost use Rattle.std.specs.Vec.{vec_len, vec_capacity};
ghost use Rattle.grape_event.specs.Packing.{IsFound, IsOneMore, Rise, event_of, wide_at};

use crate::event::Event;
use crate::packed::Packed;

/// An event, and how many more of it follow at once. It takes 4 bytes.
#[derive(Clone, Copy)]
pub struct Repeat {
    pub event: Packed,
    pub more: u8,
}

/// Counts one more of the last event, where its repeat can count it.
pub fn one_more(repeats: &mut Vec<Repeat>) -> bool
    ensures capacity { vec_capacity repeats.new ≡ vec_capacity repeats.old }
    ensures len { vec_len repeats.new ≡ vec_len repeats.old }
    ensures more { result ≡ true → IsOneMore repeats.old.items repeats.new.items }
    ensures full { result ≡ false → repeats.new.items ≡ repeats.old.items }
{
    let Some(repeat) = repeats.pop() else {
        return false;
    };
    if repeat.more == u8::MAX {
        repeats.push_reserved(repeat);
        return false;
    }
    repeats.push_reserved(Repeat {
        event: repeat.event,
        more: repeat.more + 1,
    });
    true
}

/// The repeat in which an event stands, after so many events from the front of the repeats, and how many of the repeat's events
/// come before it. None where there are no more events.
pub fn find(repeats: &[Repeat], left: u64) -> Option<(Repeat, u64)>
    ensures { IsFound repeats.now left result }
{
    let mut rest = left;
    'repeats: for repeat in repeats {
        let more = u64::from(repeat.more);
        if rest <= more {
            return Some((*repeat, rest));
        }
        rest -= more + 1;
    }
    None
}

/// The last of the starts that are at most a place, which isn't before the first one.
pub fn block_of(starts: &[u64], place: u64) -> usize
    requires some { 0 < length starts.now }
    requires first { slice_index starts.now 0 ≤ place }
    ensures within { result < length starts.now }
    ensures start { slice_index starts.now result ≤ place }
{
    let mut low = 0;
    let mut high = starts.len();
    'halves: while high - low > 1 {
        let middle = low + (high - low) / 2;
        if starts[middle] <= place {
            low = middle;
        } else {
            high = middle;
        }
    }
    low
}

/// The wide event that is kept for a place.
fn wide(places: &[u64], wides: &[Event], place: u64) -> Event
    requires paired { length places.now ≡ length wides.now }
    requires rise { Rise places.now }
    ensures { result ≡ wide_at places.now wides.now place }
{
    match places.binary_search(&place) {
        Ok(index) => wides[index],
        Err(_) => Event::End,
    }
}

/// The event of a repeat that begins at a place.
pub fn event_at(repeat: Repeat, places: &[u64], wides: &[Event], place: u64) -> Event
    requires paired { length places.now ≡ length wides.now }
    requires rise { Rise places.now }
    ensures { result ≡ event_of places.now wides.now place repeat }
{
    match repeat.event.unpack() {
        Some(event) => event,
        None => wide(places, wides, place),
    }
}
