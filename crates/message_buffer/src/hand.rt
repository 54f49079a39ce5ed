ghost use Rattle.std.specs.Prelude.{◌≡◌, ◌≢◌, ◌<◌, ◌≤◌, ◌↔◌, IfOk, IsTrue, All, [], length, replicate, slice_index, slice_set, vec_len};
ghost use Rattle.std.specs.Vec.{vec_capacity};
ghost use Rattle.value_order.specs.declared.TheConstants.{NOTHING};
ghost use Rattle.value_order.specs.Order.{meet_of};
ghost use Rattle.message_buffer.specs.Hands.{new_hand, lowered_hand, AreMirrorsOf};
ghost use Rattle.message_buffer.specs.Buffers.{meets_of};
ghost use Rattle.message_buffer.specs.Listed.{IsListed, IsCalm};

use crate::listed::{clear, enlist, merge};
use grape_port::NoMemory;
use std::alloc::Global;
use std::marker::Model;
use std::mem::swap;
use value_order::{NOTHING, Order, meet};

/// What a worker takes into one evaluation: for each mirror of its fragment the meet of the values that came, or
/// `NOTHING` where none came. The mirrors with a value are in a list, so that an evaluation goes through these alone.
/// Contracts see its order and the list of values.
///
/// It is one word, the lists lie behind it: a hand passes from the hub to a lane and back at each Take.
#[derive(Drop)]
pub struct Hand {
    lists: Box<HandLists>,
}

/// What a `Hand` keeps.
#[derive(Drop)]
struct HandLists {
    order: Order,
    values: Vec<u64>,
    mirrors: Vec<u32>,
}

impl Model for Hand {
    ghost use Rattle.std.specs.Vec.{vec_capacity};
    ghost use Rattle.message_buffer.specs.HandValues.{HandValues};
    ghost use Rattle.message_buffer.specs.Listed.{IsListed};

    ghost Value = { HandValues };

    ghost view = { λ h. record { order = h.lists.value.order; values = h.lists.value.values.items } };

    ghost invariant = { λ h. IsListed h.lists.value.values.items h.lists.value.mirrors.items (vec_capacity h.lists.value.mirrors) };
}

impl Hand {
    /// An empty hand for this many mirrors, whose memory is taken at once: 12 bytes a mirror.
    pub fn new(alloc: Global, order: Order, mirrors: u32) -> Result<Hand, NoMemory>
        ensures { IfOk result (λ hand. hand ≡ new_hand order mirrors) }
    {
        let lists = HandLists {
            order,
            values: vec![in alloc; NOTHING; mirrors as usize]?,
            mirrors: Vec::with_capacity(alloc, mirrors as usize)?,
        };
        Ok(Hand {
            lists: Box::new(alloc, lists)?,
        })
    }

    /// The value of a mirror becomes the meet of it and this one. The mirror is one of the hand's, and the value isn't
    /// `NOTHING`.
    pub fn lower(&mut self, mirror: u32, value: u64)
        requires mirror { mirror < length self.old.values }
        requires value { value ≢ NOTHING }
        ensures { self.new ≡ lowered_hand self.old mirror value }
    {
        let lists = &mut *self.lists;
        let place = mirror as usize;
        let before = lists.values[place];
        enlist(&mut lists.mirrors, mirror, before);
        lists.values[place] = meet(lists.order, before, value);
    }

    /// Trades its values and its list, emptied, for those of a buffer's untagged class, and takes the tagged values in.
    pub(crate) fn trade(
        &mut self,
        plain: &mut Vec<u64>,
        tagged: &mut [u64],
        mirrors: &mut Vec<u32>,
        has_tagged: bool,
    )
        requires plain { length plain.old.items ≡ length self.old.values }
        requires tagged { length tagged.old ≡ length self.old.values }
        requires listed { IsListed (meets_of self.old.order plain.old.items tagged.old) mirrors.old.items (vec_capacity mirrors.old) }
        requires calm { IsCalm has_tagged tagged.old }
        ensures hand { self.new ≡ record { order = self.old.order; values = meets_of self.old.order plain.old.items tagged.old } }
        ensures plain { plain.new.items ≡ replicate (length self.old.values) NOTHING }
        ensures tagged { tagged.new ≡ replicate (length self.old.values) NOTHING }
        ensures mirrors { mirrors.new.items ≡ [] }
        ensures room { length self.old.values ≤ vec_capacity mirrors.new }
    {
        let lists = &mut *self.lists;
        clear(&mut lists.values, &lists.mirrors);
        lists.mirrors.clear();
        swap(&mut lists.values, plain);
        swap(&mut lists.mirrors, mirrors);
        merge(
            lists.order,
            &mut lists.values,
            tagged,
            &lists.mirrors,
            has_tagged,
        );
    }

    /// The value of each mirror, `NOTHING` where no message came.
    pub fn values(&self) -> &[u64]
        ensures { result.now ≡ self.now.values }
    {
        &self.lists.values
    }

    /// The mirrors for which a message came, each once, in no order.
    pub fn mirrors(&self) -> &[u32]
        ensures { AreMirrorsOf self.now.values result.now }
    {
        &self.lists.mirrors
    }

    /// Whether no message came at all.
    pub fn is_empty(&self) -> bool
        ensures { IsTrue result ↔ All (λ value. value ≡ NOTHING) self.now.values }
    {
        self.lists.mirrors.is_empty()
    }
}
