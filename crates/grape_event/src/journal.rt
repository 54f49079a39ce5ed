ghost use Rattle.std.specs.Prelude.{◌≡◌, ◌≢◌, ◌+◌, ◌-◌, ◌*◌, ◌^◌, ◌<◌, ◌≤◌, [], ◌∷◌, ◌++◌, ◌↔◌, true, false, length, reverse, slice_get, if◌then◌else◌, ◌==◌, IsNone, IsOk, OnOk, OnErr};
ghost use Rattle.std.specs.Vec.{vec_len, vec_capacity};
ghost use Rattle.grape_event.specs.Journals.{new_journal, has_ended};

use crate::event::Event;
use crate::packed::{Packed, pack};
use crate::repeat::{Repeat, block_of, event_at, find, one_more};
use grape_port::NoMemory;
use std::alloc::Global;
use std::marker::Model;
#[cfg(test)]
use std::mem::size_of;

/// How many repeats there are between two starts.
const BLOCK: usize = 64;

/// The events of a run, oldest first, and room for more. Contracts see the list of events, and how many more there is
/// room for. An event takes 4 bytes, and so do up to 256 equal ones that follow one another; one with a number from 256
/// on takes 28.
#[derive(Drop)]
pub struct Journal {
    repeats: Vec<Repeat>,
    /// The place of the first event of each block of repeats.
    starts: Vec<u64>,
    /// The places of the repeats whose event is wide, and these events.
    places: Vec<u64>,
    wides: Vec<Event>,
    last: Option<Event>,
    count: u64,
    spare: u64,
}

impl Model for Journal {
    ghost use Rattle.std.specs.Prelude.{◌-◌};
    ghost use Rattle.std.specs.Vec.{vec_capacity, vec_len};
    ghost use Rattle.grape_event.specs.JournalList.{JournalList};
    ghost use Rattle.grape_event.specs.Packing.{AreRepeats, HasRoom, IsLast, expand};

    ghost Value = { JournalList };

    ghost view = { λ j. record { events = expand j.places.items j.wides.items 0 j.repeats.items; spare = j.spare } };

    ghost invariant = { λ j.
        AreRepeats j.repeats.items j.starts.items j.places.items j.wides.items j.count
        × IsLast j.last (expand j.places.items j.wides.items 0 j.repeats.items)
        × HasRoom j.spare j.count (vec_len j.repeats, vec_capacity j.repeats) (vec_len j.starts, vec_capacity j.starts) (vec_len j.places, vec_capacity j.places) (vec_len j.wides, vec_capacity j.wides) };
}

/// Notes the place of a repeat where it begins a block.
fn open_block(starts: &mut Vec<u64>, repeats: usize, place: u64)
    requires { repeats ≡ 64 * vec_len starts.old → vec_len starts.old < vec_capacity starts.old }
    ensures items { starts.new.items ≡ (if repeats == 64 * vec_len starts.old then starts.old.items ++ place ∷ [] else starts.old.items) }
    ensures capacity { vec_capacity starts.new ≡ vec_capacity starts.old }
{
    if repeats / BLOCK == starts.len() && repeats % BLOCK == 0 {
        starts.push_reserved(place);
    }
}

/// Whether the last event is this one.
fn is_event(last: Option<Event>, event: Event) -> bool
    ensures { result ≡ true → last ≡ Some event }
{
    match last {
        Some(other) => other == event,
        None => false,
    }
}

/// Keeps a wide event for its place.
fn keep_wide(
    places: &mut Vec<u64>,
    wides: &mut Vec<Event>,
    packed: Packed,
    event: Event,
    place: u64,
)
    requires places { vec_len places.old < vec_capacity places.old }
    requires wides { vec_len wides.old < vec_capacity wides.old }
    ensures wide { packed ≡ Packed.Wide → (places.new.items ≡ places.old.items ++ place ∷ []) × (wides.new.items ≡ wides.old.items ++ event ∷ []) }
    ensures other { packed ≢ Packed.Wide → (places.new.items ≡ places.old.items) × (wides.new.items ≡ wides.old.items) }
    ensures capacities { (vec_capacity places.new ≡ vec_capacity places.old) × (vec_capacity wides.new ≡ vec_capacity wides.old) }
    ensures lens { (vec_len places.new ≤ vec_len places.old + 1) × (vec_len wides.new ≤ vec_len wides.old + 1) }
{
    if let Packed::Wide = packed {
        places.push_reserved(place);
        wides.push_reserved(event);
    }
}

impl Journal {
    /// No events, and no room for any.
    pub fn new(alloc: Global) -> Journal
        ensures { result ≡ new_journal }
    {
        Journal {
            repeats: Vec::new(alloc),
            starts: Vec::new(alloc),
            places: Vec::new(alloc),
            wides: Vec::new(alloc),
            last: None,
            count: 0,
            spare: 0,
        }
    }

    /// Makes room for at least `n` more events. Where there is that room already, and after `NoMemory`, all is as before,
    /// the room too. `NoMemory` comes too where there would be 2^64 events.
    pub fn reserve(&mut self, n: u64) -> Result<(), NoMemory>
        ensures events { self.new.events ≡ self.old.events }
        ensures room { OnOk result (n ≤ self.new.spare) }
        ensures kept { self.old.spare ≤ self.new.spare }
        ensures in_room { n ≤ self.old.spare → IsOk result }
        ensures as_before { n ≤ self.old.spare → self.new ≡ self.old }
        ensures no_memory { OnErr result (self.new ≡ self.old) }
    {
        if n <= self.spare {
            return Ok(());
        }
        if n > u64::MAX - self.count {
            return Err(NoMemory);
        }
        self.repeats.reserve(n as usize)?;
        self.starts.reserve(n as usize / BLOCK + 1)?;
        self.places.reserve(n as usize)?;
        self.wides.reserve(n as usize)?;
        self.spare = n;
        Ok(())
    }

    /// For how many more events there is room.
    pub fn spare(&self) -> u64
        ensures { result ≡ self.now.spare }
    {
        self.spare
    }

    /// Adds an event at the end, into room that is spare. Takes no memory.
    pub fn push(&mut self, event: Event)
        requires { 1 ≤ self.old.spare }
        ensures events { self.new.events ≡ self.old.events ++ event ∷ [] }
        ensures spare { self.new.spare + 1 ≡ self.old.spare }
        ensures short { length self.new.events < 2 ^ 64 }
    {
        if !self.lengthen(event) {
            self.begin_repeat(event);
        }
    }

    /// Counts the event in the last repeat, where it is that repeat's event and can be counted there.
    fn lengthen(&mut self, event: Event) -> bool
        requires { 1 ≤ self.old.spare }
        ensures events { result ≡ true → self.new.events ≡ self.old.events ++ event ∷ [] }
        ensures spare { result ≡ true → self.new.spare + 1 ≡ self.old.spare }
        ensures short { result ≡ true → length self.new.events < 2 ^ 64 }
        ensures other { result ≡ false → self.new ≡ self.old }
    {
        if !is_event(self.last, event) {
            return false;
        }
        if !one_more(&mut self.repeats) {
            return false;
        }
        self.count += 1;
        self.spare -= 1;
        true
    }

    /// Adds an event at the end as a repeat of its own.
    fn begin_repeat(&mut self, event: Event)
        requires { 1 ≤ self.old.spare }
        ensures events { self.new.events ≡ self.old.events ++ event ∷ [] }
        ensures spare { self.new.spare + 1 ≡ self.old.spare }
        ensures short { length self.new.events < 2 ^ 64 }
    {
        open_block(&mut self.starts, self.repeats.len(), self.count);
        let packed = pack(event);
        keep_wide(&mut self.places, &mut self.wides, packed, event, self.count);
        self.repeats.push_reserved(Repeat {
            event: packed,
            more: 0,
        });
        self.last = Some(event);
        self.count += 1;
        self.spare -= 1;
    }

    /// How many events there are.
    pub fn len(&self) -> u64
        ensures { result ≡ length self.now.events }
    {
        self.count
    }

    /// The event at a place, which counts from 0. None comes exactly from the length on.
    pub fn get(&self, place: u64) -> Option<Event>
        ensures event { result ≡ slice_get self.now.events place }
        ensures none { IsNone result ↔ (length self.now.events ≤ place) }
    {
        if place >= self.count {
            return None;
        }
        let block = block_of(&self.starts, place);
        let start = self.starts[block];
        match find(self.repeats.split_at(BLOCK * block).1, place - start) {
            Some((repeat, rest)) => Some(event_at(repeat, &self.places, &self.wides, place - rest)),
            None => None,
        }
    }

    /// The last event, None in an empty journal.
    pub fn last(&self) -> Option<Event>
        ensures event { result ≡ slice_get self.now.events (length self.now.events - 1) }
        ensures none { IsNone result ↔ (self.now.events ≡ []) }
    {
        self.last
    }

    /// Whether the last event is an End or a Stop.
    pub fn ended(&self) -> bool
        ensures { result ≡ has_ended (reverse self.now.events) }
    {
        match self.last {
            Some(event) => event.is_last(),
            None => false,
        }
    }
    /// How many bytes are taken for the events and for more of them.
    #[cfg(test)]
    pub(crate) fn bytes(&self) -> usize {
        let repeats = self.repeats.capacity().saturating_mul(size_of::<Repeat>());
        let places = self
            .starts
            .capacity()
            .saturating_add(self.places.capacity());
        let numbers = places.saturating_mul(size_of::<u64>());
        let wides = self.wides.capacity().saturating_mul(size_of::<Event>());
        repeats.saturating_add(numbers).saturating_add(wides)
    }
}
