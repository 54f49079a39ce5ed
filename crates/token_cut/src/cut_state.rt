ghost use Rattle.std.specs.Prelude.{◌≡◌, ◌<◌, false, IfOk, IsTrue, length};
ghost use Rattle.std.specs.List.{list_all};
ghost use Rattle.token_cut.specs.Parts.{part_at};
ghost use Rattle.token_cut.specs.Shapes.{IsShape, sizes_of};
ghost use Rattle.token_cut.specs.Recording.{new_cut, is_marked, is_complete, after_begin, after_mark, after_late, sealed_of, after_seal};

use crate::part::{Part, copy_parts};
use crate::phase::Phase;
use crate::shape::Shape;
use crate::snapshot::Snapshot;
use grape_port::NoMemory;
use std::alloc::Global;
use std::marker::Model;
use value_order::Order;

/// The recording of a snapshot while work goes on. It is begun with an epoch, takes what each worker is marked with and
/// the late values that come for marked workers, and is sealed once every worker is marked.
///
/// Contracts see the order of the values, the epoch, whether a recording is open, and for each worker whether it is
/// marked and what is recorded of it. After [`CutState::new`] it takes no memory.
#[derive(Drop)]
pub struct CutState {
    order: Order,
    epoch: u64,
    recording: bool,
    marked: Vec<bool>,
    parts: Vec<Part>,
}

impl Model for CutState {
    ghost use Rattle.std.specs.Prelude.{◌≡◌, length};
    ghost use Rattle.token_cut.specs.CutValues.{CutValues};

    ghost Value = { CutValues };

    ghost view = { λ c. record {
      order = c.order;
      epoch = c.epoch;
      recording = c.recording;
      marked = c.marked.items;
      parts = c.parts.items;
    } };

    ghost invariant = { λ c. length c.marked.items ≡ length c.parts.items };
}

impl CutState {
    /// Nothing is recorded yet. Takes all memory that recordings of snapshots with this shape ever need.
    pub fn new(alloc: Global, shape: &Shape) -> Result<CutState, NoMemory>
        requires { IsShape shape.now }
        ensures { IfOk result (λ cut. cut ≡ new_cut shape.now) }
    {
        let Snapshot { epoch, parts } = Snapshot::fresh(alloc, shape)?;
        let marked = vec![in alloc; false; parts.len()]?;
        Ok(CutState {
            order: shape.order,
            epoch,
            recording: false,
            marked,
            parts,
        })
    }

    /// Opens the recording of the snapshot with this epoch, from 1 to 2^62 - 1. Nobody is marked in it. No recording is
    /// open at the call.
    pub fn begin(&mut self, epoch: u64)
        requires { self.old.recording ≡ false }
        ensures { self.new ≡ after_begin epoch self.old }
    {
        self.epoch = epoch;
        self.recording = true;
        self.marked.fill(false);
    }

    /// Whether a recording is open.
    pub fn recording(&self) -> bool
        ensures { result ≡ self.now.recording }
    {
        self.recording
    }

    /// Whether the worker was marked since the last begin. The worker is one of the shape's.
    pub fn marked(&self, worker: u32) -> bool
        requires { worker < length self.now.parts }
        ensures { result ≡ is_marked worker self.now }
    {
        self.marked[worker as usize]
    }

    /// Marks a worker, and records its phase, the values of all its places, and for each mirror the meet of the untagged
    /// mail that waits, `NOTHING` where none does. A recording is open, the worker is one of the shape's and isn't marked
    /// in it, and the lengths are those of the shape. Copies the two lists.
    pub fn mark(&mut self, worker: u32, phase: Phase, values: &[u64], plain: &[u64])
        requires worker { worker < length self.old.parts }
        requires recording { IsTrue self.old.recording }
        requires unmarked { is_marked worker self.old ≡ false }
        requires values { length values.now ≡ length (part_at worker self.old.parts).values }
        requires plain { length plain.now ≡ length (part_at worker self.old.parts).mail }
        ensures { self.new ≡ after_mark worker (record { phase = phase; values = values.now; mail = plain.now }) self.old }
    {
        let place = worker as usize;
        self.marked[place] = true;
        self.parts[place].write(phase, values, plain);
    }

    /// Lowers the recorded mail of a marked worker by a value that came late. A recording is open, the worker is one of
    /// the shape's and is marked in it, and the mirror is one of the worker's. Goes to one number.
    pub fn late(&mut self, worker: u32, mirror: u32, value: u64)
        requires worker { worker < length self.old.parts }
        requires recording { IsTrue self.old.recording }
        requires marked { IsTrue (is_marked worker self.old) }
        requires mirror { mirror < length (part_at worker self.old.parts).mail }
        ensures { self.new ≡ after_late worker mirror value self.old }
    {
        self.parts[worker as usize].lower(self.order, mirror, value);
    }

    /// Whether a recording is open in which every worker is marked.
    pub fn complete(&self) -> bool
        ensures { result ≡ is_complete self.now }
    {
        self.recording && all_of(&self.marked)
    }

    /// Writes the snapshot into `into`, whatever it held before, and ends the recording. It is complete, and the parts of
    /// `into` have the sizes of the shape. Copies each list once.
    pub fn seal(&mut self, into: &mut Snapshot)
        requires complete { IsTrue (is_complete self.old) }
        requires shape { sizes_of into.old.parts ≡ sizes_of self.old.parts }
        ensures sealed { into.new ≡ sealed_of self.old }
        ensures closed { self.new ≡ after_seal self.old }
    {
        into.epoch = self.epoch;
        copy_parts(&self.parts, &mut into.parts);
        self.recording = false;
    }
}

/// Whether every bit is set.
fn all_of(bits: &[bool]) -> bool
    ensures { result ≡ list_all (λ bit. bit) bits.now }
{
    bits.iter().all(|bit| *bit)
}
