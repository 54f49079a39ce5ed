ghost use Rattle.std.specs.Prelude.{◌≡◌, ◌≤◌, None, is_ok, if◌then◌else◌, length, IfOk};
ghost use Rattle.std.specs.Io.KnownBytes.{ReadConsumes};
ghost use Rattle.grape_port.specs.Ports.{one_more};

use crate::faults::Failed;
use crate::source::Source;
use std::io::Read;
use std::marker::Model;

/// A reader of std as a source. Each `Err` of the reader is a fault, also where the system only
/// interrupted the call; a later read goes on where the reader does.
///
/// It tells no bytes: what standard input or a file will give is not known, and what a reader
/// tells of itself may begin or end to be told at any call.
#[derive(Drop)]
pub struct StdSource<R> {
    inner: R,
    faults: u64,
}

impl<R> Model for StdSource<R> {
    ghost use Rattle.grape_port.specs.Adapters.{Adapter};

    ghost Value = { Adapter R };

    ghost view = { λ s. record { inner = s.inner; faults = s.faults } };
}

impl<R: Read + Drop> StdSource<R> {
    /// A source that reads from `inner`. No call was made, and so none failed.
    pub fn new(inner: R) -> StdSource<R>
        ensures { result ≡ record { inner = inner; faults = 0 } }
    {
        StdSource { inner, faults: 0 }
    }
}

impl<R: Read + Drop> Source for StdSource<R> {
    ghost left = { λ _. None };

    ghost faults = { λ s. s.faults };

    fn read(&mut self, to: &mut [u8]) -> Result<usize, Failed>
        ensures count { IfOk result (λ n. n ≤ length to.old) }

        // The bytes are those of the reader, where it tells them.
        ensures passed { ReadConsumes (R.remaining self.old.inner) (R.remaining self.new.inner) result to.new }

        ensures counted { self.new.faults
            ≡ (if is_ok result then self.old.faults else one_more self.old.faults) }
        ensures faults_stay { self.old.faults ≤ self.new.faults }
    {
        match self.inner.read(to) {
            Ok(count) => Ok(count),
            Err(_) => {
                self.faults = self.faults.saturating_add(1);
                Err(Failed)
            }
        }
    }
}
