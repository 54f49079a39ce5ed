ghost use Rattle.std.specs.Prelude.{◌≡◌, ◌<◌, None, IfOk, length, replicate};
ghost use Rattle.pie_dist.specs.NearHeaps.{IsPopped, lowered};

use crate::rows::{rows_clear, rows_lower, rows_pop};
use grape_port::NoMemory;
use std::alloc::Global;
use std::marker::Model;

/// A heap of places with keys: the least key comes off first, and of equal keys the least place. Contracts see the key of
/// each place that is in. A call takes time in proportion to the logarithm of the room.
#[derive(Drop)]
pub struct NearHeap {
    rows: Vec<u64>,
    room: u32,
}

impl Model for NearHeap {
    ghost use Rattle.std.specs.Prelude.{ℕ, List, Option};

    ghost Value = { List (Option ℕ) };

    ghost use Rattle.pie_dist.specs.NearHeaps.{IsHeap, heap_of};

    ghost view = { λ h. heap_of h.room h.rows.items };

    ghost invariant = { λ h. IsHeap h.room h.rows.items };
}

impl NearHeap {
    /// The empty heap of the places below the room.
    pub fn new(alloc: Global, room: u32) -> Result<NearHeap, NoMemory>
        ensures { IfOk result (λ heap. heap ≡ replicate room None) }
    {
        let mut rows = vec![in alloc; 0; 3 * room as usize + 1]?;
        rows_clear(&mut rows, room);
        Ok(NearHeap { rows, room })
    }

    /// Adds the place, or lowers its key where the new key is smaller. The place lies below the room.
    pub fn lower(&mut self, place: u32, key: u64)
        requires { place < length self.old }
        ensures { self.new ≡ lowered self.old place key }
    {
        rows_lower(&mut self.rows, self.room, place, key);
    }

    /// Takes off the least key, of equal keys that of the least place. None comes exactly where the heap is empty.
    pub fn pop(&mut self) -> Option<(u32, u64)>
        ensures { IsPopped self.old result self.new }
    {
        rows_pop(&mut self.rows, self.room)
    }
}
