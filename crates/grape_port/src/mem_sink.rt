ghost use Rattle.std.specs.Prelude.{◌≡◌, ◌<◌, ◌≤◌, ◌↔◌, Some, IfOk, OnOk, OnErr, IsErr, IsTrue, length};
ghost use Rattle.grape_port.specs.MemPorts.{new_sink, refuses, fails_next, taken_count, sink_took, sink_flushed, sink_failed};

use crate::faults::{Failed, NoMemory};
use crate::sink::Sink;
use std::alloc::Global;
use std::marker::Model;

/// Bytes in memory, taken in pieces. A fake of a writer, for tests.
#[derive(Drop)]
pub struct MemSink {
    bytes: Vec<u8>,
    flushed: usize,
    room: usize,
    most: usize,
    fails: Vec<u64>,
    calls: u64,
    faults: u64,
}

impl Model for MemSink {
    ghost use Rattle.std.specs.Prelude.{◌<◌, ◌≤◌, vec_len, vec_capacity};
    ghost use Rattle.grape_port.specs.MemPorts.{SinkState};

    ghost Value = { SinkState };

    ghost view = { λ s. record { written = s.bytes.items; flushed = s.flushed; room = s.room; most = s.most; fails = s.fails.items; calls = s.calls; faults = s.faults } };

    ghost invariant = { λ s. (vec_len s.bytes ≤ s.room) × (s.room ≤ vec_capacity s.bytes) × (0 < s.most) };
}

impl MemSink {
    /// An empty sink for `room` bytes, whose memory is taken at once. It takes at most `most`
    /// bytes per call. A call whose number, from 1, stands in `fails` fails, and so does a write
    /// of some bytes to a full sink; nothing is then written or flushed.
    ///
    /// Calls are counted in 64 bits, and the last number is that of each call from there on.
    pub fn new(
        alloc: Global,
        room: usize,
        most: usize,
        fails: Vec<u64>,
    ) -> Result<MemSink, NoMemory>
        requires { 1 ≤ most }
        ensures { IfOk result (λ sink. sink ≡ new_sink room most fails.items) }
    {
        let bytes = Vec::with_capacity(alloc, room)?;
        Ok(MemSink {
            bytes,
            flushed: 0,
            room,
            most,
            fails,
            calls: 0,
            faults: 0,
        })
    }

    /// What was written.
    pub fn bytes(&self) -> &[u8]
        ensures { result.now ≡ self.now.written }
    {
        &self.bytes
    }
}

impl Sink for MemSink {
    ghost written = { λ s. Some s.written };

    ghost flushed = { λ s. Some s.flushed };

    ghost faults = { λ s. s.faults };

    fn write(&mut self, from: &[u8]) -> Result<usize, Failed>
        ensures fails { IsErr result ↔ IsTrue (refuses self.old (length from.now)) }
        ensures failed { OnErr result (self.new ≡ sink_failed self.old) }
        ensures taken { IfOk result (λ n. n ≡ taken_count self.old (length from.now)) }
        ensures some { IfOk result (λ n. 0 < length from.now → 0 < n) }
        ensures took { OnOk result (self.new ≡ sink_took self.old from.now) }
        ensures faults_stay { self.old.faults ≤ self.new.faults }
    {
        self.calls = self.calls.saturating_add(1);
        let full = self.bytes.len() >= self.room;
        if self.fails.contains(&self.calls) || (full && !from.is_empty()) {
            self.faults = self.faults.saturating_add(1);
            return Err(Failed);
        }
        let rest = self.room - self.bytes.len();
        let count = self.most.min(rest).min(from.len());
        self.bytes.extend_from_slice(&from[..count]).unwrap();
        Ok(count)
    }

    fn flush(&mut self) -> Result<(), Failed>
        ensures fails { IsErr result ↔ IsTrue (fails_next self.old.fails self.old.calls) }
        ensures failed { OnErr result (self.new ≡ sink_failed self.old) }
        ensures flushed { OnOk result (self.new ≡ sink_flushed self.old) }
        ensures faults_stay { self.old.faults ≤ self.new.faults }
    {
        self.calls = self.calls.saturating_add(1);
        if self.fails.contains(&self.calls) {
            self.faults = self.faults.saturating_add(1);
            return Err(Failed);
        }
        self.flushed = self.bytes.len();
        Ok(())
    }
}
