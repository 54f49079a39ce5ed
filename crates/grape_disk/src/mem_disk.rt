ghost use Rattle.std.specs.Prelude.{◌≡◌, ◌⊎◌, ◌+◌, ◌-◌, ◌^◌, ◌<◌, ◌≤◌, ◌↔◌, Bool, true, false, not, ℕ, List, length, Some, IfOk, OnOk, OnErr, IsErr, IsTrue};
ghost use Rattle.grape_port.specs.Ports.{Rose, one_more};
ghost use Rattle.grape_disk.specs.Images.{piece, AtRest, Same, Quiet, Writes, Counts};
ghost use Rattle.grape_disk.specs.Platters.{wrote, synced};
ghost use Rattle.grape_disk.specs.MemDisks.{new_disk, now, did, refuses, is_stopped, fails_next, has_place_after, has_place, FailedWrite, called, failed, forgot, with, AreEarlier, content_of, images_of, calls_of, faults_of, always};
ghost use Rattle.grape_disk.specs.Picks.{picked};
ghost use Rattle.grape_disk.specs.Laws as laws;

use crate::disk::Disk;
use crate::history::History;
use crate::pick::Pick;
use grape_port::{Failed, NoMemory};
use std::alloc::Global;
use std::marker::Model;

/// A file in memory that keeps what was written and synced, each with its moment, so that it
/// tells exactly what a crash may leave. A fake of a disk, for tests.
#[derive(Drop)]
pub struct MemDisk {
    file: History,
    fails: Vec<u64>,
    stop: Option<u64>,
    calls: u64,
    faults: u64,
    unrecorded: u64,
}

impl Model for MemDisk {
    ghost use Rattle.grape_disk.specs.MemDisks.{MemDiskState, AreEarlier};

    ghost Value = { MemDiskState };

    ghost view = { λ d. record { file = d.file; fails = d.fails.items; stop = d.stop; calls = d.calls; faults = d.faults; unrecorded = d.unrecorded } };

    ghost invariant = { λ d. AreEarlier d.calls d.file.done };
}

impl MemDisk {
    /// A disk with these bytes, all of them stable, and room for `room` bytes, taken at once.
    ///
    /// A call fails whose number, from 1, stands in `fails`, and so do the call `stop` and all
    /// after it. So does a write that ends past the room, and a write or a sync for whose record
    /// there is no memory. A failed write is done and not synced, unless there is no number, no
    /// room or no memory for it. No other failed call changes what a read or a crash gives.
    pub fn new(
        alloc: Global,
        room: usize,
        bytes: &[u8],
        fails: Vec<u64>,
        stop: Option<u64>,
    ) -> Result<MemDisk, NoMemory>
        requires { length bytes.now ≤ room }
        ensures { IfOk result (λ disk. disk ≡ new_disk room bytes.now fails.items stop) }
    {
        let file = History::new(alloc, room, bytes)?;
        Ok(MemDisk {
            file,
            fails,
            stop,
            calls: 0,
            faults: 0,
            unrecorded: 0,
        })
    }

    /// One of the images that a crash at this moment may leave.
    pub fn crash_image(&self, alloc: Global, pick: Pick) -> Result<Vec<u8>, NoMemory>
        ensures bytes { IfOk result (λ image. image.items ≡ picked pick (now self.now)) }
        ensures image { IfOk result (λ image. images_of self.now self.now.calls image.items) }
    {
        self.file.image(alloc, pick)
    }

    // Counts a call. It is false where the call fails by its number, or has none.
    fn begin(&mut self) -> bool
        ensures value { result ≡ not (fails_next self.old) }
        ensures called { result ≡ true → self.new ≡ called self.old }
        ensures failed { result ≡ false → self.new ≡ failed self.old }
        ensures number { result ≡ true → self.old.calls < 2 ^ 64 - 1 }
        ensures later { self.old.calls ≤ self.new.calls }
        ensures fault { result ≡ false → Rose self.old.faults self.new.faults }
        ensures faults_stay { self.old.faults ≤ self.new.faults }
        ensures same { Same content_of images_of calls_of self.old self.new }
        ensures quiet { Quiet images_of calls_of self.old self.new }
    {
        let refused = is_refused(self.calls, &self.fails, self.stop);
        self.calls = self.calls.saturating_add(1);
        if refused {
            self.faults = self.faults.saturating_add(1);
            return false;
        }
        true
    }

    // Counts a fault for want of memory for a record.
    fn forget(&mut self) -> Result<(), Failed>
        ensures err { IsErr result }
        ensures state { self.new ≡ record self.old { faults = one_more self.old.faults; unrecorded = one_more self.old.unrecorded } }
        ensures rose { Rose self.old.faults self.new.faults }
    {
        self.faults = self.faults.saturating_add(1);
        self.unrecorded = self.unrecorded.saturating_add(1);
        Err(Failed)
    }
}

fn is_refused(calls: u64, fails: &[u64], stop: Option<u64>) -> bool
    ensures { result ≡ refuses calls fails.now stop }
{
    if calls == u64::MAX {
        return true;
    }
    let number = calls + 1;
    fails.contains(&number) || is_past(stop, number)
}

fn is_past(stop: Option<u64>, number: u64) -> bool
    ensures { result ≡ is_stopped stop number }
{
    match stop {
        Some(first) => first <= number,
        None => false,
    }
}

// Whether there was a number and room for the write. It is done where there was, and memory for its record.
fn try_write(file: &mut History, calls: u64, at: u64, from: &[u8]) -> Result<bool, NoMemory>
    requires { at + length from.now ≤ 2 ^ 62 }
    ensures place { IfOk result (λ fits. fits ≡ has_place_after calls file.old.room (at + length from.now)) }
    ensures done { IfOk result (λ fits. fits ≡ true → file.new ≡ did calls (wrote at from.now) file.old) }
    ensures not_done { IfOk result (λ fits. fits ≡ false → file.new ≡ file.old) }
    ensures no_memory { OnErr result (file.new ≡ file.old) }
    ensures has_place { OnErr result (IsTrue (has_place_after calls file.old.room (at + length from.now))) }
    ensures earlier { AreEarlier calls file.old.done → AreEarlier (one_more calls) file.new.done }
{
    if calls == u64::MAX || !file.has_room(at, from.len()) {
        return Ok(false);
    }
    file.write(calls, at, from)?;
    Ok(true)
}

impl Disk for MemDisk {
    ghost content = { content_of };

    ghost images = { images_of };

    ghost moment = { calls_of };

    ghost honest = { always };

    ghost faults = { faults_of };

    fn calls(&self) -> u64 {
        self.calls
    }

    fn len(&mut self) -> Result<u64, Failed>
        ensures fails { IsErr result ↔ IsTrue (fails_next self.old) }
        ensures length { IfOk result (λ n. n ≡ length (now self.old).read) }
        ensures called { OnOk result (self.new ≡ called self.old) }
        ensures failed { OnErr result (self.new ≡ failed self.old) }
        ensures same { Same content_of images_of calls_of self.old self.new }
        ensures quiet { Quiet images_of calls_of self.old self.new }
        ensures counts { Counts calls_of faults_of always result self.old self.new }
    {
        if !self.begin() {
            return Err(Failed);
        }
        Ok(self.file.len() as u64)
    }

    fn read_at(&mut self, at: u64, to: &mut [u8]) -> Result<(), Failed>
        requires within { at + length to.old ≤ length (now self.old).read }
        ensures fails { IsErr result ↔ IsTrue (fails_next self.old) }
        ensures bytes { OnOk result (to.new ≡ piece at (length to.old) (now self.old).read) }
        ensures called { OnOk result (self.new ≡ called self.old) }
        ensures failed { OnErr result (self.new ≡ failed self.old) }
        ensures same { Same content_of images_of calls_of self.old self.new }
        ensures quiet { Quiet images_of calls_of self.old self.new }
        ensures counts { Counts calls_of faults_of always result self.old self.new }
    {
        if !self.begin() {
            return Err(Failed);
        }
        self.file.read_at(at, to);
        Ok(())
    }

    fn write_at(&mut self, at: u64, from: &[u8]) -> Result<(), Failed>
        requires room { at + length from.now ≤ 2 ^ 62 }
        ensures fails { IsTrue (fails_next self.old) → IsErr result }
        ensures no_room { self.old.file.room < at + length from.now → IsErr result }
        ensures wrote { OnOk result (self.new ≡ called (with (wrote at from.now) self.old)) }

        // It is done all the same, where there is a number, room and memory for it.
        ensures failed { OnErr result (FailedWrite at from.now self.old self.new) }

        ensures no_number { self.old.calls ≡ 2 ^ 64 - 1 → Same content_of images_of calls_of self.old self.new × Quiet images_of calls_of self.old self.new }
        ensures writes { Writes images_of calls_of at (length from.now) self.old self.new }
        ensures counts { Counts calls_of faults_of always result self.old self.new }
    {
        let moment = self.calls;
        let refused = is_refused(moment, &self.fails, self.stop);
        let tried = try_write(&mut self.file, moment, at, from);
        self.calls = moment.saturating_add(1);
        let Ok(fits) = tried else {
            return self.forget();
        };
        if refused || !fits {
            self.faults = self.faults.saturating_add(1);
            return Err(Failed);
        }
        Ok(())
    }

    fn sync(&mut self) -> Result<(), Failed>
        ensures fails { IsTrue (fails_next self.old) → IsErr result }
        ensures synced { OnOk result (self.new ≡ called (with synced self.old)) }
        ensures failed { OnErr result ((IsTrue (fails_next self.old) × (self.new ≡ failed self.old)) ⊎ (self.new ≡ forgot self.old)) }
        ensures durable { OnOk result (AtRest content_of images_of calls_of self.new (now self.old).read) }
        ensures fewer { (c : List ℕ) → images_of self.new self.new.calls c → images_of self.old self.old.calls c }
        ensures quiet { Quiet images_of calls_of self.old self.new }
        ensures same { OnErr result (Same content_of images_of calls_of self.old self.new) }
        ensures counts { Counts calls_of faults_of always result self.old self.new }
    {
        if !self.begin() {
            return Err(Failed);
        }
        if self.file.sync(self.calls - 1).is_err() {
            return self.forget();
        }
        Ok(())
    }

    ghost reads_an_image = { λ d. laws.reads_an_image d.file.start d.calls d.file.done };

    ghost since_earlier = { λ d. laws.since_earlier d.file.start d.file.done };
}
