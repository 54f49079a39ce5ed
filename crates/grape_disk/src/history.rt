//! A file in memory with the record of what was done to it.
ghost use Rattle.std.specs.Prelude.{◌≡◌, ◌==◌, ◌+◌, ◌-◌, ◌%◌, ◌<◌, ◌≤◌, ℕ, max, nat_le, true, false, if◌then◌else◌, [], length, map, slice_index, slice_index_or, vec_capacity, IfOk, OnOk, OnErr};
ghost use Rattle.std.specs.List.{range_with_len};
ghost use Rattle.grape_disk.specs.Images.{piece, written};
ghost use Rattle.grape_disk.specs.Platters.{wrote, synced, platter, marked};
ghost use Rattle.grape_disk.specs.MemDisks.{did};
ghost use Rattle.grape_disk.specs.Picks.{picked, mixed_byte};

use crate::pick::Pick;
use grape_port::NoMemory;
use std::alloc::Global;
use std::marker::Model;

/// What a call did.
#[derive(Drop)]
pub(crate) enum Deed {
    Wrote { at: u64, bytes: Vec<u8> },
    Synced,
}

/// A write or a sync, and how many calls came before it.
#[derive(Drop)]
pub(crate) struct Step {
    moment: u64,
    deed: Deed,
}

impl Model for Step {
    ghost use Rattle.std.specs.Prelude.{ℕ};
    ghost use Rattle.grape_disk.specs.Platters.{Did};
    ghost use Rattle.grape_disk.specs.Steps.{did_of};

    ghost Value = { ℕ × Did };

    ghost view = { λ s. (s.moment, did_of s.deed) };
}

/// The bytes at the start, the writes and syncs since, and what stands there now.
#[derive(Drop)]
pub(crate) struct History {
    alloc: Global,
    room: usize,
    start: Vec<u8>,
    steps: Vec<Step>,
    stable: Vec<u8>,
    read: Vec<u8>,
    pending: Vec<bool>,
}

impl Model for History {
    ghost use Rattle.grape_disk.specs.MemDisks.{HistoryState};

    ghost Value = { HistoryState };

    ghost use Rattle.grape_disk.specs.Histories.{history_of, IsHistory};

    ghost view = { history_of };

    ghost invariant = { IsHistory };
}

impl History {
    /// These bytes, all of them stable, with room for `room` bytes, taken at once.
    pub(crate) fn new(alloc: Global, room: usize, bytes: &[u8]) -> Result<History, NoMemory>
        requires { length bytes.now ≤ room }
        ensures { IfOk result (λ h. h ≡ record { start = bytes.now; done = []; room = room }) }
    {
        let start = Vec::from_slice(alloc, bytes)?;
        let stable = with_room(alloc, room, bytes)?;
        let read = with_room(alloc, room, bytes)?;
        let mut pending = Vec::with_capacity(alloc, room)?;
        pending.resize(bytes.len(), false).unwrap();
        Ok(History {
            alloc,
            room,
            start,
            steps: Vec::new(alloc),
            stable,
            read,
            pending,
        })
    }

    /// How many bytes a read gives.
    pub(crate) fn len(&self) -> usize
        ensures { result ≡ length (platter self.now.start self.now.done).read }
    {
        self.read.len()
    }

    /// So many bytes from a place on fit into the room.
    pub(crate) fn has_room(&self, at: u64, count: usize) -> bool
        ensures { result ≡ nat_le (at + count) self.now.room }
    {
        let room = self.room as u64;
        let count = count as u64;
        at <= room && count <= room - at
    }

    /// Fills `to` with the bytes from a place on.
    pub(crate) fn read_at(&self, at: u64, to: &mut [u8])
        requires { at + length to.old ≤ length (platter self.now.start self.now.done).read }
        ensures { to.new ≡ piece at (length to.old) (platter self.now.start self.now.done).read }
    {
        let place = at as usize;
        to.copy_from_slice(&self.read[place..place + to.len()]);
    }

    /// Writes bytes at a place, with `moment` calls before. Without memory nothing changes.
    pub(crate) fn write(&mut self, moment: u64, at: u64, from: &[u8]) -> Result<(), NoMemory>
        requires { at + length from.now ≤ self.old.room }
        ensures ok { OnOk result (self.new ≡ did moment (wrote at from.now) self.old) }
        ensures err { OnErr result (self.new ≡ self.old) }
    {
        let bytes = Vec::from_slice(self.alloc, from)?;
        let deed = Deed::Wrote { at, bytes };
        self.steps.push(Step { moment, deed })?;
        let place = at as usize;
        put(&mut self.read, place, from);
        mark(&mut self.pending, place, from.len());
        Ok(())
    }

    /// Makes all that was written stable, with `moment` calls before. Without memory nothing
    /// changes.
    pub(crate) fn sync(&mut self, moment: u64) -> Result<(), NoMemory>
        ensures ok { OnOk result (self.new ≡ did moment synced self.old) }
        ensures err { OnErr result (self.new ≡ self.old) }
    {
        let deed = Deed::Synced;
        self.steps.push(Step { moment, deed })?;
        self.stable.clear();
        self.stable.extend_from_slice(&self.read).unwrap();
        self.pending.fill(false);
        Ok(())
    }

    /// The image that is picked.
    pub(crate) fn image(&self, alloc: Global, pick: Pick) -> Result<Vec<u8>, NoMemory>
        ensures { IfOk result (λ image. image.items ≡ picked pick (platter self.now.start self.now.done)) }
    {
        match pick {
            Pick::Synced => Ok(Vec::from_slice(alloc, &self.stable)?),
            Pick::Read => Ok(Vec::from_slice(alloc, &self.read)?),
            Pick::Mixed(number) => {
                let count = mixed_length(number, self.read.len(), self.stable.len());
                mixed(alloc, number, count, &self.pending, &self.stable)
            }
        }
    }
}

fn mixed_length(number: u64, read: usize, stable: usize) -> usize
    ensures value { result ≡ (if number % 2 == 0 then read else stable) }
    ensures bound { result ≤ max read stable }
{
    if number % 2 == 0 { read } else { stable }
}

fn mixed(
    alloc: Global,
    number: u64,
    count: usize,
    pending: &[bool],
    stable: &[u8],
) -> Result<Vec<u8>, NoMemory>
    requires marks { count ≤ length pending.now }
    requires bytes { (i : ℕ) → slice_index_or pending.now i true ≡ false → i < length stable.now }
    ensures { IfOk result (λ image. image.items ≡ map (mixed_byte number pending.now stable.now) (range_with_len 0 count)) }
{
    let mut image = Vec::with_capacity(alloc, count)?;
    for place in 0..count {
        image.push_reserved(byte_at(number, place, pending[place], stable));
    }
    Ok(image)
}

fn byte_at(number: u64, place: usize, is_pending: bool, stable: &[u8]) -> u8
    requires { is_pending ≡ false → place < length stable.now }
    ensures { result ≡ (if is_pending then (number + place) % 256 else slice_index stable.now place) }
{
    if is_pending {
        ((number % 256 + place as u64 % 256) % 256) as u8
    } else {
        stable[place]
    }
}

fn with_room(alloc: Global, room: usize, bytes: &[u8]) -> Result<Vec<u8>, NoMemory>
    requires { length bytes.now ≤ room }
    ensures items { IfOk result (λ v. v.items ≡ bytes.now) }
    ensures room { IfOk result (λ v. room ≤ vec_capacity v) }
{
    let mut copy = Vec::with_capacity(alloc, room)?;
    copy.extend_from_slice(bytes).unwrap();
    Ok(copy)
}

// A gap before the bytes is filled with zeros.
fn put(file: &mut Vec<u8>, at: usize, bytes: &[u8])
    requires room { at + length bytes.now ≤ vec_capacity file.old }
    ensures items { file.new.items ≡ written at bytes.now file.old.items }
    ensures room { vec_capacity file.old ≤ vec_capacity file.new }
{
    let end = at + bytes.len();
    file.resize(file.len().max(end), 0).unwrap();
    file[at..end].copy_from_slice(bytes);
}

// A gap before the places is marked too.
fn mark(pending: &mut Vec<bool>, at: usize, count: usize)
    requires room { at + count ≤ vec_capacity pending.old }
    ensures items { pending.new.items ≡ marked at count pending.old.items }
    ensures room { vec_capacity pending.old ≤ vec_capacity pending.new }
{
    let end = at + count;
    pending.resize(pending.len().max(end), true).unwrap();
    pending[at..end].fill(true);
}
