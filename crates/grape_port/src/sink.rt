ghost use Rattle.std.specs.Prelude.{◌≡◌, ℕ, ◌<◌, ◌≤◌, List, length, take, Option, IfOk, OnOk, OnErr};
ghost use Rattle.grape_port.specs.Ports.{Rose, Appends, IsAllFlushed};

use crate::faults::Failed;

/// A place where bytes are written, one behind the other.
///
/// A sink may tell which bytes were written and how many of them are flushed, or not, as standard
/// output. Its count of failed calls never falls, and stands still at `u64::MAX`.
pub trait Sink {
    /// The bytes that were written, where the sink tells them.
    ghost written: { Self → Option (List ℕ) };

    /// How many of them are flushed, where the sink tells it.
    ghost flushed: { Self → Option ℕ };

    /// How many calls have failed.
    ghost faults: { Self → ℕ };

    /// Writes bytes from the front of `from`, and answers how many: some, unless `from` is empty.
    /// `Failed` comes only where the count of faults rose, and then nothing was written.
    fn write(&mut self, from: &[u8]) -> Result<usize, Failed>
        ensures count { IfOk result (λ n. n ≤ length from.now) }
        ensures some { IfOk result (λ n. 0 < length from.now → 0 < n) }
        ensures appended { IfOk result (λ n. Appends (written self.old) (take n from.now) (written self.new)) }
        ensures err { OnErr result (written self.new ≡ written self.old) }
        ensures fault { OnErr result (Rose (faults self.old) (faults self.new)) }
        ensures faults_stay { faults self.old ≤ faults self.new };

    /// Flushes all that was written. `Failed` comes only where the count of faults rose.
    fn flush(&mut self) -> Result<(), Failed>
        ensures same { written self.new ≡ written self.old }
        ensures flushed_all { OnOk result (IsAllFlushed (written self.new) (flushed self.new)) }
        ensures fault { OnErr result (Rose (faults self.old) (faults self.new)) }
        ensures faults_stay { faults self.old ≤ faults self.new };
}
