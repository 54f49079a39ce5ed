ghost use Rattle.std.specs.Prelude.{◌≡◌, ◌<◌, ◌≤◌, ◌↔◌, [], ◌++◌, Some, IfOk, OnOk, OnErr, IsErr, IsTrue, length, take, drop};
ghost use Rattle.grape_port.specs.MemPorts.{new_source, fails_next, given_count, source_gave, source_failed};

use crate::faults::Failed;
use crate::source::Source;
use std::marker::Model;

/// Bytes in memory, given in pieces. A fake of a reader, for tests.
#[derive(Drop)]
pub struct MemSource {
    bytes: Vec<u8>,
    at: usize,
    most: usize,
    fails: Vec<u64>,
    calls: u64,
    faults: u64,
}

impl Model for MemSource {
    ghost use Rattle.std.specs.Prelude.{◌<◌, ◌≤◌, vec_len, drop};
    ghost use Rattle.grape_port.specs.MemPorts.{SourceState};

    ghost Value = { SourceState };

    ghost view = { λ s. record { left = drop s.at s.bytes.items; most = s.most; fails = s.fails.items; calls = s.calls; faults = s.faults } };

    ghost invariant = { λ s. (s.at ≤ vec_len s.bytes) × (0 < s.most) };
}

impl MemSource {
    /// A source of these bytes that gives at most `most` of them per call. The calls whose
    /// numbers, from 1, stand in `fails` fail and give nothing; the bytes come at a later call.
    ///
    /// Calls are counted in 64 bits, and the last number is that of each call from there on.
    pub fn new(bytes: Vec<u8>, most: usize, fails: Vec<u64>) -> MemSource
        requires { 1 ≤ most }
        ensures { result ≡ new_source bytes.items most fails.items }
    {
        MemSource {
            bytes,
            at: 0,
            most,
            fails,
            calls: 0,
            faults: 0,
        }
    }
}

impl Source for MemSource {
    ghost left = { λ s. Some s.left };

    ghost faults = { λ s. s.faults };

    fn read(&mut self, to: &mut [u8]) -> Result<usize, Failed>
        ensures fails { IsErr result ↔ IsTrue (fails_next self.old.fails self.old.calls) }
        ensures failed { OnErr result (self.new ≡ source_failed self.old) }
        ensures given { IfOk result (λ n. n ≡ given_count self.old (length to.old)) }
        ensures bytes { IfOk result (λ n. to.new ≡ take n self.old.left ++ drop n to.old) }
        ensures end { IfOk result (λ n. 0 < length to.old → n ≡ 0 → self.old.left ≡ []) }
        ensures gave { OnOk result (self.new ≡ source_gave self.old (length to.old)) }
        ensures faults_stay { self.old.faults ≤ self.new.faults }
    {
        self.calls = self.calls.saturating_add(1);
        if self.fails.contains(&self.calls) {
            self.faults = self.faults.saturating_add(1);
            return Err(Failed);
        }
        let rest = &self.bytes[self.at..];
        let count = self.most.min(rest.len()).min(to.len());
        to[..count].copy_from_slice(&rest[..count]);
        self.at += count;
        Ok(count)
    }
}
