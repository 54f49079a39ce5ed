ghost use Rattle.std.specs.Prelude.{◌≡◌, ℕ, ◌+◌, ◌<◌, ◌^◌, ◌↔◌, true, false, length, replicate, slice_set, IfOk, IfSome, IsNone};
ghost use Rattle.pie_core.specs.PlaceSets.{waits, how_many};
ghost use Rattle.pie_core.specs.Worklists.{LosesOne};

use crate::shelves::Shelves;
use grape_port::NoMemory;
use std::alloc::Global;
use std::marker::Model;

/// A set of places that wait. Its memory is taken when it is made: nine bytes a place. The flags and their count say who waits;
/// the shelves say which place is to come next, and are asked no more than that. Contracts see for each place whether it waits.
#[derive(Drop)]
pub(crate) struct Worklist {
    is_listed: Vec<bool>,
    count: usize,
    shelves: Shelves,
}

impl Model for Worklist {
    ghost use Rattle.std.specs.Prelude.{◌≡◌, ◌^◌, ◌<◌, Bool, List, length};
    ghost use Rattle.pie_core.specs.PlaceSets.{how_many};

    ghost Value = { List Bool };

    ghost view = { λ w. w.is_listed.items };

    ghost invariant = { λ w. (w.count ≡ how_many w.is_listed.items) × (w.shelves ≡ length w.is_listed.items) × (length w.is_listed.items < 2 ^ 32) };
}

impl Worklist {
    /// No places, and room for those below `room`. An error comes where memory runs out, or where there are more places
    /// than numbers of 32 bits.
    pub(crate) fn new(alloc: Global, room: usize) -> Result<Worklist, NoMemory>
        ensures { IfOk result (λ list. list ≡ replicate room false) }
    {
        if room > u32::MAX as usize {
            return Err(NoMemory);
        }
        let shelves = Shelves::new(alloc, room)?;
        let is_listed = vec![in alloc; false; room].map_err(|_| NoMemory)?;
        Ok(Worklist {
            is_listed,
            count: 0,
            shelves,
        })
    }

    /// Says how far apart the values are, at most, that wait at one time. It is heeded where no place waits.
    pub(crate) fn space(&mut self, apart: u64)
        ensures { self.new ≡ self.old }
    {
        if self.count == 0 {
            self.shelves.space(apart);
        }
    }

    /// Whether a place waits.
    fn waits(&self, place: u32) -> bool
        ensures { result ≡ waits self.now place }
    {
        let index = place as usize;
        index < self.is_listed.len() && self.is_listed[index]
    }

    /// Adds a place with this value.
    pub(crate) fn push(&mut self, place: u32, value: u64)
        requires { place < length self.old }
        ensures { self.new ≡ slice_set self.old place true }
    {
        if !self.is_listed[place as usize] {
            if self.count == 0 {
                self.shelves.begin(value);
            }
            self.is_listed[place as usize] = true;
            self.count += 1;
            self.shelves.put(place, value);
        }
    }

    /// Says that the value of a place is another one now.
    pub(crate) fn moved(&mut self, place: u32, old: u64, value: u64)
        ensures { self.new ≡ self.old }
    {
        if self.waits(place) {
            self.shelves.move_over(place, old, value);
        }
    }

    /// The place that comes next: the first one on the shelves, where it does wait, as it always should.
    fn next(&mut self) -> Option<u32>
        ensures same { self.new ≡ self.old }
        ensures none { IsNone result → (place : ℕ) → waits self.old place ≡ false }
        ensures one { IfSome result (λ place. waits self.old place ≡ true) }
    {
        if self.count == 0 {
            return None;
        }
        let place = self.shelves.first();
        if self.waits(place) {
            return Some(place);
        }
        first_listed(&self.is_listed)
    }

    /// Takes a place. `None` comes exactly where none waits.
    pub(crate) fn pop(&mut self) -> Option<u32>
        ensures none { IsNone result ↔ ((place : ℕ) → waits self.old place ≡ false) }
        ensures one { LosesOne self.old result self.new }
        ensures fewer { IfSome result (λ place. how_many self.new + 1 ≡ how_many self.old) }
        ensures inside { IfSome result (λ place. place < length self.old) }
    {
        let place = self.next()?;
        self.is_listed[place as usize] = false;
        self.count -= 1;
        self.shelves.take_out(place);
        Some(place)
    }
}

/// The first place whose flag is up.
fn first_listed(is_listed: &[bool]) -> Option<u32>
    requires { length is_listed.now < 2 ^ 32 }
    ensures none { IsNone result → (place : ℕ) → waits is_listed.now place ≡ false }
    ensures one { IfSome result (λ place. waits is_listed.now place ≡ true) }
{
    let place = is_listed.iter().position(|listed| *listed)?;
    Some(place as u32)
}
