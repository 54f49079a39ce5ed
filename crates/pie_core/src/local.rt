ghost use Rattle.std.specs.Prelude.{◌≡◌, ℕ, ◌<◌, ◌≤◌, ◌↔◌, true, false, ◌+◌, length, replicate, IfOk, IfSome, IsNone};
ghost use Rattle.std.specs.Borrow.{sem};
ghost use Rattle.graph_core.specs.Parts.{place_count};
ghost use Rattle.pie_core.specs.PlaceSets.{waits, how_many};
ghost use Rattle.pie_core.specs.Locals.{IsLocal};
ghost use Rattle.pie_core.specs.LocalCalls.{new_local, loaded, settled, with_value, with_waiting, TakesOne, fallen_places};
ghost use Rattle.pie_core.specs.LocalLends.{LendsCounters};

use crate::fallen::Fallen;
use crate::worklist::Worklist;
use grape_port::NoMemory;
use graph_core::{Fragment, Reading};
use std::alloc::Global;
use std::marker::Model;

/// The values of all places of a fragment, and what a program needs to evaluate it: the owned values as they were
/// before, counters of the program's own, and a worklist of owned places. All memory is taken by `new`: no
/// other call has an answer for want of it. Contracts see these four lists.
///
/// It is one word, the lists lie behind it: a worker's values pass from the hub to a lane and back at each Take.
#[derive(Drop)]
pub struct Local {
    lists: Box<Lists>,
}

/// What a `Local` keeps.
#[derive(Drop)]
struct Lists {
    values: Vec<u64>,
    before: Vec<u64>,
    counters: Vec<u64>,
    worklist: Worklist,
    fallen: Fallen,
    greatest_weight: u64,
}

impl Model for Local {
    ghost use Rattle.std.specs.Prelude.{◌≡◌, ◌≤◌, length, vec_len};
    ghost use Rattle.pie_core.specs.FallenPlaces.{ListsFallen};
    ghost use Rattle.pie_core.specs.Locals.{LocalValues};

    ghost Value = { LocalValues };

    ghost view = { λ l. record { values = l.lists.value.values.items; before = l.lists.value.before.items; counters = l.lists.value.counters.items; waiting = l.lists.value.worklist } };

    ghost invariant = { λ l. (length l.lists.value.worklist ≡ vec_len l.lists.value.before) × (vec_len l.lists.value.before ≤ vec_len l.lists.value.values) × ListsFallen l.lists.value.before.items l.lists.value.values.items l.lists.value.fallen };
}

impl Local {
    /// Zeros for each place of the fragment, `counters` zeros for each owned place, and an empty worklist.
    pub fn new(alloc: Global, part: &Fragment, counters: u32) -> Result<Local, NoMemory>
        ensures { IfOk result (λ local. local ≡ new_local (length part.now.owned) (length part.now.mirrors) counters) }
    {
        let owned = part.owned().len();
        let Some(places) = owned.checked_add(part.mirrors().len()) else {
            return Err(NoMemory);
        };
        let Ok(end) = u32::try_from(places) else {
            return Err(NoMemory);
        };
        let Some(count) = owned.checked_mul(counters as usize) else {
            return Err(NoMemory);
        };
        let values = zeros(alloc, places)?;
        let before = zeros(alloc, owned)?;
        let counters = zeros(alloc, count)?;
        let mut worklist = Worklist::new(alloc, owned)?;
        let greatest_weight = u64::from(greatest_weight(part, end));
        worklist.space(greatest_weight);
        let lists = Lists {
            values,
            before,
            counters,
            worklist,
            fallen: Fallen::new(alloc, owned)?,
            greatest_weight,
        };
        Ok(Local {
            lists: Box::new(alloc, lists)?,
        })
    }

    /// Sets the values of all places, and what `before` gives. There are as many values as places.
    pub fn load(&mut self, values: &[u64])
        requires { length values.now ≡ length self.old.values }
        ensures { self.new ≡ loaded self.old values.now }
    {
        let local = &mut *self.lists;
        local.values.copy_from_slice(values);
        local.fallen.give_up();
        local.fallen.settle(&mut local.before, &local.values);
    }

    /// The values of all places: of the owned ones, and then of the mirrors.
    pub fn values(&self) -> &[u64]
        ensures values { result.now ≡ self.now.values }
        ensures local { IsLocal self.now }
    {
        &self.lists.values
    }

    /// The owned values at the last `load` or `settle`.
    pub fn before(&self) -> &[u64]
        ensures { result.now ≡ self.now.before }
    {
        &self.lists.before
    }

    /// Sets what `before` gives to the present owned values.
    pub fn settle(&mut self)
        ensures { self.new ≡ settled self.old }
    {
        let lists = &mut *self.lists;
        lists.fallen.settle(&mut lists.before, &lists.values);
    }

    /// Sets the value of a place.
    pub fn set(&mut self, place: u32, value: u64)
        requires { place < length self.old.values }
        ensures { self.new ≡ with_value self.old place value }
    {
        let lists = &mut *self.lists;
        lists
            .fallen
            .note(&lists.before, &lists.values, place, value);
        let old = lists.values[place as usize];
        lists.values[place as usize] = value;
        lists.worklist.moved(place, old, value);
    }

    /// Puts an owned place on the worklist, where it isn't on it.
    pub fn enqueue(&mut self, place: u32)
        requires { place < length self.old.before }
        ensures added { self.new ≡ with_waiting self.old place }
        ensures local { IsLocal self.new }
    {
        let lists = &mut *self.lists;
        lists.worklist.push(place, lists.values[place as usize]);
    }

    /// Adds each place below `end`, all of them owned.
    pub fn enqueue_below(&mut self, end: u32)
        requires { end ≤ length self.old.before }
        ensures rest { self.new ≡ record self.old { waiting = self.new.waiting } }
        ensures waits { (place : ℕ) → place < end → waits self.new.waiting place ≡ true }
    {
        'list: for place in 0..end {
            self.enqueue(place);
        }
    }

    /// Takes a place from the worklist, and `None` exactly where it is empty. Which one comes isn't said: it is one with a
    /// least value, as nearly as the shelves tell.
    pub fn dequeue(&mut self) -> Option<u32>
        ensures none { IsNone result ↔ ((place : ℕ) → waits self.old.waiting place ≡ false) }
        ensures one { TakesOne self.old result self.new }
        ensures fewer { IfSome result (λ place. how_many self.new.waiting + 1 ≡ how_many self.old.waiting) }
        ensures owned { IfSome result (λ place. place < length self.old.before) }
        ensures local { IsLocal self.new }
    {
        self.lists.worklist.pop()
    }

    /// Says how far apart the values lie that wait at one time, at most. It changes no value and no answer, but which place
    /// comes next: with it the places come off the worklist by rising values, nearly. It is heeded where no place waits.
    pub fn space_shelves(&mut self, apart: u64)
        ensures { self.new ≡ self.old }
    {
        self.lists.worklist.space(apart);
    }

    /// Says how far apart the values lie that wait at first, at most. Those that come later lie within the fragment's greatest
    /// weight of one that waited. Like `space_shelves`, it changes no answer.
    pub fn spread_shelves(&mut self, apart: u64)
        ensures { self.new ≡ self.old }
    {
        let lists = &mut *self.lists;
        lists
            .worklist
            .space(apart.saturating_add(lists.greatest_weight));
    }

    /// Puts the list of the places whose values changed since the last `load` or `settle` in rising order, where few did.
    pub fn gather_fallen(&mut self)
        ensures { self.new ≡ self.old }
    {
        self.lists.fallen.sort();
    }

    /// The owned places whose values aren't those of `before`, in rising order. `None` comes where many changed, or where
    /// the list was not gathered since.
    pub fn fallen(&self) -> Option<&[u32]>
        ensures { IfSome result (λ places. places.now ≡ fallen_places self.now) }
    {
        self.lists.fallen.sorted()
    }

    /// The program's counters, those of the first owned place first.
    pub fn counters(&self) -> &[u64]
        ensures { result.now ≡ self.now.counters }
    {
        &self.lists.counters
    }

    /// The program's counters, to be changed.
    pub fn counters_mut(&mut self) -> &mut [u64]
        ensures* writes_back { sem 𝓛 (LendsCounters self.entry result) }
        ensures value { result.now ≡ self.old.counters }
    {
        &mut self.lists.counters
    }
}

fn zeros(alloc: Global, count: usize) -> Result<Vec<u64>, NoMemory>
    ensures { IfOk result (λ v. v.items ≡ replicate count 0) }
{
    Ok(vec![in alloc; 0; count]?)
}

/// The greatest weight of a reader of a place below `end`, and 0 where there are none.
fn greatest_weight(part: &Fragment, end: u32) -> u32
    requires { end ≤ place_count part.now }
{
    let mut greatest = 0;
    'places: for place in 0..end {
        greatest = greatest_reader(part.readers(place), greatest);
    }
    greatest
}

/// The greatest weight in a row, or `so_far` where that is greater.
fn greatest_reader(row: &[Reading], so_far: u32) -> u32 {
    let mut greatest = so_far;
    'row: for reader in row {
        greatest = greatest.max(reader.weight);
    }
    greatest
}
