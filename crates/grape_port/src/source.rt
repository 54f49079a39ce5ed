ghost use Rattle.std.specs.Prelude.{◌≡◌, ℕ, ◌<◌, ◌≤◌, List, length, take, Option, IfOk, OnErr};
ghost use Rattle.grape_port.specs.Ports.{Rose, TakesFront, IsAtEnd};

use crate::faults::Failed;

/// Bytes to read, from the first to the last.
///
/// A source may tell which bytes are left, or not, as standard input. Its count of failed calls
/// never falls, and stands still at `u64::MAX`.
pub trait Source {
    /// The bytes that are not yet read, where the source tells them.
    ghost left: { Self → Option (List ℕ) };

    /// How many calls have failed.
    ghost faults: { Self → ℕ };

    /// Moves bytes from the front of what is left to the front of `to`, and answers how many: with
    /// room, none only at the end. `Failed` comes only where the count of faults rose, and then
    /// nothing was moved; what stands in `to` is then not said.
    fn read(&mut self, to: &mut [u8]) -> Result<usize, Failed>
        ensures count { IfOk result (λ n. n ≤ length to.old) }
        ensures moved { IfOk result (λ n. TakesFront (left self.old) (take n to.new) (left self.new)) }

        // With room, nothing is moved only at the end.
        ensures end { IfOk result (λ n. 0 < length to.old → n ≡ 0 → IsAtEnd (left self.old)) }

        ensures err { OnErr result (left self.new ≡ left self.old) }
        ensures fault { OnErr result (Rose (faults self.old) (faults self.new)) }
        ensures faults_stay { faults self.old ≤ faults self.new };
}
