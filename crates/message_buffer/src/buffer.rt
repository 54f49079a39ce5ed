ghost use Rattle.std.specs.Prelude.{◌≡◌, ◌≢◌, ◌+◌, ◌-◌, ◌^◌, ◌<◌, ◌≤◌, IfOk, length, replicate, slice_index, slice_set};
ghost use Rattle.message_buffer.specs.HandValues.{HandValues};
ghost use Rattle.message_buffer.specs.Buffers.{new_buffer, with_batch, with_post, batches_in, all_waiting, waiting_in, emptied, folded};

use crate::Hand;
use crate::listed::{enlist, merge, value_of};
use grape_port::NoMemory;
use std::alloc::Global;
use std::marker::Model;
use value_order::{NOTHING, Order, meet};

/// The mail that waits for a worker. What other workers send comes in batches, and each batch is tagged or not. For each
/// class of batches the buffer keeps how many there are, and for each mirror the meet of the values that were posted, so
/// that posting takes no memory however much mail waits. The mirrors with a value are in a list, so that a take costs what
/// was posted and not what the fragment has; the tagged class costs nothing until something is posted in it.
///
/// Contracts see the order, the meets of both classes, `NOTHING` where none came, and the counts of their batches.
#[derive(Drop)]
pub struct Buffer {
    order: Order,
    plain: Vec<u64>,
    tagged: Vec<u64>,
    mirrors: Vec<u32>,
    has_tagged: bool,
    plain_batches: u64,
    tagged_batches: u64,
}

impl Model for Buffer {
    ghost use Rattle.std.specs.Prelude.{◌+◌, ◌^◌, ◌<◌};
    ghost use Rattle.std.specs.Vec.{vec_capacity};
    ghost use Rattle.message_buffer.specs.BufferValues.{BufferValues};
    ghost use Rattle.message_buffer.specs.Listed.{IsKept};

    ghost Value = { BufferValues };

    ghost view = { λ b. record {
      order = b.order;
      plain = b.plain.items;
      tagged = b.tagged.items;
      plain_batches = b.plain_batches;
      tagged_batches = b.tagged_batches;
    } };

    ghost invariant = { λ b. IsKept b.order b.plain.items b.tagged.items b.mirrors.items (vec_capacity b.mirrors) b.has_tagged × (b.plain_batches + b.tagged_batches < 2 ^ 64) };
}

impl Buffer {
    /// An empty buffer for this many mirrors, whose memory is taken at once: 20 bytes a mirror.
    pub fn new(alloc: Global, order: Order, mirrors: u32) -> Result<Buffer, NoMemory>
        ensures { IfOk result (λ buffer. buffer ≡ new_buffer order mirrors) }
    {
        Ok(Buffer {
            order,
            plain: vec![in alloc; NOTHING; mirrors as usize]?,
            tagged: vec![in alloc; NOTHING; mirrors as usize]?,
            mirrors: Vec::with_capacity(alloc, mirrors as usize)?,
            has_tagged: false,
            plain_batches: 0,
            tagged_batches: 0,
        })
    }

    /// Counts one more batch of a class. There are fewer than `u64::MAX` batches.
    pub fn begin_batch(&mut self, tagged: bool)
        requires { batches_in self.old < 2 ^ 64 - 1 }
        ensures { self.new ≡ with_batch tagged self.old }
    {
        if tagged {
            self.tagged_batches += 1;
        } else {
            self.plain_batches += 1;
        }
    }

    /// Adds a value for a mirror to the last batch of a class: the meet of the class is lowered by it. The mirror is one
    /// of the buffer's, and the value isn't `NOTHING`. Takes no memory.
    pub fn post(&mut self, tagged: bool, mirror: u32, value: u64)
        requires mirror { mirror < length self.old.plain }
        requires value { value ≢ NOTHING }
        ensures { self.new ≡ with_post tagged mirror value self.old }
    {
        let place = mirror as usize;
        let before = value_of(
            self.order,
            &self.plain,
            &self.tagged,
            self.has_tagged,
            place,
        );
        enlist(&mut self.mirrors, mirror, before);
        if tagged {
            self.has_tagged = true;
            self.tagged[place] = meet(self.order, self.tagged[place], value);
        } else {
            self.plain[place] = meet(self.order, self.plain[place], value);
        }
    }

    /// Moves all mail of both classes into a hand of the same order and as many mirrors, whatever it held before. Goes
    /// over the mirrors that have a value in one of the two alone, and takes no memory.
    pub fn take(&mut self, hand: &mut Hand)
        requires order { hand.old.order ≡ self.old.order }
        requires mirrors { length hand.old.values ≡ length self.old.plain }
        ensures hand { hand.new ≡ record { order = self.old.order; values = all_waiting self.old } }
        ensures empty { self.new ≡ emptied self.old }
    {
        hand.trade(
            &mut self.plain,
            &mut self.tagged,
            &mut self.mirrors,
            self.has_tagged,
        );
        self.has_tagged = false;
        self.plain_batches = 0;
        self.tagged_batches = 0;
    }

    /// The tagged batches become untagged. Goes over the mirrors with a value, and over none where nothing is tagged.
    pub fn fold(&mut self)
        ensures { self.new ≡ folded self.old }
    {
        merge(
            self.order,
            &mut self.plain,
            &mut self.tagged,
            &self.mirrors,
            self.has_tagged,
        );
        self.has_tagged = false;
        self.plain_batches += self.tagged_batches;
        self.tagged_batches = 0;
    }

    /// For each mirror the meet of the untagged values, `NOTHING` where none came.
    pub fn plain(&self) -> &[u64]
        ensures { result.now ≡ self.now.plain }
    {
        &self.plain
    }

    /// For how many mirrors a value waits, in either class.
    pub fn waiting(&self) -> u32
        ensures { result ≡ waiting_in self.now }
    {
        self.mirrors.len() as u32
    }

    /// How many batches wait, in both classes.
    pub fn batches(&self) -> u64
        ensures { result ≡ batches_in self.now }
    {
        self.plain_batches + self.tagged_batches
    }

    /// How many tagged batches wait.
    pub fn tagged(&self) -> u64
        ensures { result ≡ self.now.tagged_batches }
    {
        self.tagged_batches
    }
}
