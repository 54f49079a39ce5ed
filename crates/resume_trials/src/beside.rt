//! A snapshot is put while the lanes go on: the disk of this trial waits, in the midst of a put, until a lane goes on.
ghost use Rattle.std.specs.Prelude.{◌≡◌, ◌^◌, ◌-◌, ◌≤◌, false, None, ⊤, IsErr, OnOk, OnErr};
ghost use Rattle.grape_port.specs.Ports.{Rose, one_more};

use crate::commands::calm_pacers;
use grape_disk::Disk;
use grape_port::{Failed, MemSink, MemSource, NoMemory};
use grape_run::{Status, Words, grape};
use lane_loop::Gate;
use std::alloc::Global;
use std::sync::Wait;
use std::sync::atomic::{AtomicU64, Ordering};
use std::test::Fail;
use std::thread::{Threads, yield_now};

/// How many turns the disk waits at most.
const TURNS: u32 = 10_000_000;

/// A gate that counts the Works that pass it.
#[derive(Drop)]
struct Counting {
    passes: AtomicU64,
}

impl Gate for Counting {
    fn pass(&self, _worker: u32) {
        self.passes.fetch_add(1, Ordering::SeqCst);
    }
}

/// Bytes in memory. The first write after a Work has passed the gate is one of a put, and waits until another Work passes.
#[derive(Drop)]
struct Patient<'a> {
    bytes: Vec<u8>,
    calls: u64,
    faults: u64,
    gate: &'a Counting,
    waited: bool,
    met: bool,
}

/// Whether another Work passes the gate behind so many, within the turns.
fn another_passes(gate: &Counting, before: u64) -> bool {
    for _ in 0..TURNS {
        if gate.passes.load(Ordering::SeqCst) > before {
            return true;
        }
        yield_now();
    }
    false
}

impl Patient<'_> {
    /// Waits once, while a run is going on.
    fn wait_for_a_pass(&mut self)
        ensures calls { self.new.calls ≡ self.old.calls }
        ensures faults { self.new.faults ≡ self.old.faults }
    {
        let before = self.gate.passes.load(Ordering::SeqCst);
        if !self.waited && before > 0 {
            self.waited = true;
            self.met = another_passes(self.gate, before);
        }
    }

    /// Counts a call, which fails where it isn't well or has no number.
    fn count(&mut self, well: bool) -> Result<(), Failed>
        ensures next { self.new.calls ≡ one_more self.old.calls }
        ensures later { self.old.calls ≤ self.new.calls }
        ensures ok { OnOk result (self.new.faults ≡ self.old.faults) }
        ensures err { OnErr result (Rose self.old.faults self.new.faults) }
        ensures faults_stay { self.old.faults ≤ self.new.faults }
        ensures full { self.old.calls ≡ 2 ^ 64 - 1 → IsErr result }
    {
        let numbered = self.calls < u64::MAX;
        self.calls = self.calls.saturating_add(1);
        if well && numbered {
            return Ok(());
        }
        self.faults = self.faults.saturating_add(1);
        Err(Failed)
    }
}

impl Disk for Patient<'_> {
    ghost content = { λ d. None };

    ghost images = { λ d t c. ⊤ };

    ghost moment = { λ d. d.calls };

    ghost honest = { λ d. false };

    ghost faults = { λ d. d.faults };

    fn calls(&self) -> u64 {
        self.calls
    }

    fn len(&mut self) -> Result<u64, Failed> {
        let length = self.bytes.len() as u64;
        match self.count(true) {
            Ok(()) => Ok(length),
            Err(failed) => Err(failed),
        }
    }

    fn read_at(&mut self, at: u64, to: &mut [u8]) -> Result<(), Failed> {
        let from = at as usize;
        let there = from + to.len() <= self.bytes.len();
        if there {
            to.copy_from_slice(&self.bytes[from..from + to.len()]);
        }
        self.count(there)
    }

    fn write_at(&mut self, at: u64, from: &[u8]) -> Result<(), Failed> {
        self.wait_for_a_pass();
        let start = at as usize;
        let end = start + from.len();
        let room = self.bytes.len().max(end);
        let well = self.bytes.resize(room, 0).is_ok() && end <= self.bytes.len();
        if well {
            self.bytes[start..end].copy_from_slice(from);
        }
        self.count(well)
    }

    fn sync(&mut self) -> Result<(), Failed> {
        self.count(true)
    }

    ghost reads_an_image = { λ d file honest told. tt };

    ghost since_earlier = { λ d earlier later c le image. tt };
}

/// A way over 300 vertices, which a hash puts into four fragments, with a snapshot after every 50 Takes.
fn long_way(alloc: Global) -> Result<String, NoMemory> {
    let head = "query dist 1\nfragments 4\ncut hash\npolicy ap\nlanes 2\nsnapshot 50\n";
    let mut text = String::from_str(alloc, head)?;
    for vertex in 1..300_u32 {
        let line = format!(in alloc; "{vertex} {} 1\n", vertex.saturating_add(1))?;
        text.push_str(line.as_str())?;
    }
    Ok(text)
}

/// Whether a put of a run was going on while a Work passed the gate.
fn put_beside<R: Threads + Wait + Sync + AllocGlobal>(rt: &R) -> Result<(Status, bool), NoMemory> {
    let alloc = rt.alloc();
    let mut words = Words::new(alloc);
    words.push("run")?;
    let text = long_way(alloc)?;
    let bytes = Vec::from_slice(alloc, text.as_bytes())?;
    let mut input = MemSource::new(bytes, 4096, Vec::new(alloc));
    let mut out = MemSink::new(alloc, 8192, 4096, Vec::new(alloc))?;
    let mut note = MemSink::new(alloc, 4096, 4096, Vec::new(alloc))?;
    let gate = Counting {
        passes: AtomicU64::new(0),
    };
    let mut disk = Patient {
        bytes: Vec::new(alloc),
        calls: 0,
        faults: 0,
        gate: &gate,
        waited: false,
        met: false,
    };
    let pacers = calm_pacers(alloc)?;
    let finish = grape(
        rt, alloc, &words, &mut input, &mut out, &mut note, &mut disk, pacers, &gate,
    );
    Ok((finish.status, disk.met))
}

/// Lanes evaluate while a snapshot is put: the lock isn't held while the disk works.
#[test]
fn lanes_go_on_while_a_snapshot_is_put(rt: HostRuntime) -> Result<(), Fail> {
    let (status, met) = put_beside(&rt)?;
    assert_eq!(rt; status, Status::Done);
    assert!(rt; met, "no Work passed the gate while a snapshot was put");
    Ok(())
}
