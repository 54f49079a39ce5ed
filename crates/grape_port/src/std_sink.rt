ghost use Rattle.std.specs.Prelude.{◌≡◌, ◌<◌, ◌≤◌, None, is_ok, if◌then◌else◌, length, IfOk};
ghost use Rattle.std.specs.Io.KnownBytes.{Keeps, WriteAppends};
ghost use Rattle.grape_port.specs.Ports.{one_more};

use crate::faults::Failed;
use crate::sink::Sink;
use std::io::Write;
use std::marker::Model;

/// A writer of std as a sink. Each `Err` of the writer is a fault, also where the system only
/// interrupted the call, and so is a write that takes nothing of some bytes.
///
/// It tells no bytes: what standard output or a file has taken is not known, and what a writer
/// tells of itself may begin or end to be told at any call.
#[derive(Drop)]
pub struct StdSink<W> {
    inner: W,
    faults: u64,
}

impl<W> Model for StdSink<W> {
    ghost use Rattle.grape_port.specs.Adapters.{Adapter};

    ghost Value = { Adapter W };

    ghost view = { λ s. record { inner = s.inner; faults = s.faults } };
}

impl<W: Write + Drop> StdSink<W> {
    /// A sink that writes to `inner`. No call was made, and so none failed.
    pub fn new(inner: W) -> StdSink<W>
        ensures { result ≡ record { inner = inner; faults = 0 } }
    {
        StdSink { inner, faults: 0 }
    }
}

impl<W: Write + Drop> Sink for StdSink<W> {
    ghost written = { λ _. None };

    ghost flushed = { λ _. None };

    ghost faults = { λ s. s.faults };

    fn write(&mut self, from: &[u8]) -> Result<usize, Failed>
        ensures count { IfOk result (λ n. n ≤ length from.now) }
        ensures some { IfOk result (λ n. 0 < length from.now → 0 < n) }

        // The bytes come behind those of the writer, where it tells them.
        ensures passed { WriteAppends (W.contents self.old.inner) (W.contents self.new.inner) result from.now }

        ensures counted { self.new.faults
            ≡ (if is_ok result then self.old.faults else one_more self.old.faults) }
        ensures faults_stay { self.old.faults ≤ self.new.faults }
    {
        match self.inner.write(from) {
            Ok(count) if count > 0 || from.is_empty() => Ok(count),
            _ => {
                self.faults = self.faults.saturating_add(1);
                Err(Failed)
            }
        }
    }

    fn flush(&mut self) -> Result<(), Failed>
        ensures kept { Keeps (W.contents self.old.inner) (W.contents self.new.inner) }
        ensures counted { self.new.faults
            ≡ (if is_ok result then self.old.faults else one_more self.old.faults) }
        ensures faults_stay { self.old.faults ≤ self.new.faults }
    {
        match self.inner.flush() {
            Ok(()) => Ok(()),
            Err(_) => {
                self.faults = self.faults.saturating_add(1);
                Err(Failed)
            }
        }
    }
}
