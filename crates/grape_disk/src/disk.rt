ghost use Rattle.std.specs.Prelude.{◌≡◌, ◌⊎◌, ◌+◌, ◌-◌, ◌^◌, ◌<◌, ◌≤◌, ℕ, Bool, List, length, Option, Some, IsTrue, IfOk, OnOk, OnErr};
ghost use Rattle.grape_disk.specs.Images.{piece, written_if, AtRest, Same, Quiet, Writes, Counts};

use grape_port::Failed;

/// One file, and what a crash may leave of it.
///
/// A write makes its range pending, and bytes between the old end and that range read as zeros and
/// are pending too. A sync that succeeds makes what a read gives stable. A crash leaves a length
/// from the stable one to the largest end written since, any bytes at the pending places below it,
/// and the stable ones elsewhere. A crash during a call leaves what one before it or after it may.
///
/// A disk may tell what a read gives, or not, as a file of the system. Its count of failed calls
/// never falls, and stands still at `u64::MAX`. A moment is a number of calls: `len`, `read_at`,
/// `write_at` and `sync` raise it by one each, and once it is `u64::MAX` they do nothing and fail.
pub trait Disk {
    /// What a read gives, where the disk tells it.
    ghost content: { Self → Option (List ℕ) };

    /// What a crash at some moment from that one on might have left, during a call or between two.
    ghost images: { Self → ℕ → List ℕ → Type 0 };

    /// The calls so far, as a moment.
    ghost moment: { Self → ℕ };

    /// The disk does to its images what each call says. So nobody else writes the file, and a sector
    /// that is being written when the power fails keeps its bytes beside the range of the write
    /// (power-safe overwrite).
    ghost honest: { Self → Bool };

    /// How many calls have failed.
    ghost faults: { Self → ℕ };

    /// How many of the four calls below were made, up to `u64::MAX`.
    fn calls(&self) -> u64
        ensures { result ≡ moment self.now };

    /// The length in bytes. `Failed` comes only where the count of faults rose; nothing else
    /// changes in any case.
    fn len(&mut self) -> Result<u64, Failed>
        ensures length { IfOk result (λ n. (file : List ℕ) → content self.old ≡ Some file → n ≡ length file) }
        ensures same { content self.new ≡ content self.old }
        ensures crash { IsTrue (honest self.old) → Same content images moment self.old self.new × Quiet images moment self.old self.new }
        ensures counts { Counts moment faults honest result self.old self.new };

    /// Fills `to` with the bytes from a place on. `Failed` comes only where the count of faults
    /// rose, and what stands in `to` is then not said; the disk stays as it is in any case.
    fn read_at(&mut self, at: u64, to: &mut [u8]) -> Result<(), Failed>
        requires room { at + length to.old ≤ 2 ^ 62 }
        requires within { (file : List ℕ) → content self.old ≡ Some file → at + length to.old ≤ length file }
        ensures bytes { OnOk result ((file : List ℕ) → content self.old ≡ Some file → to.new ≡ piece at (length to.old) file) }
        ensures same { content self.new ≡ content self.old }
        ensures crash { IsTrue (honest self.old) → Same content images moment self.old self.new × Quiet images moment self.old self.new }
        ensures counts { Counts moment faults honest result self.old self.new };

    /// Writes some bytes over what is there, and past the end. Until a sync, a crash may leave any
    /// bytes in their range.
    ///
    /// `Failed` comes only where the count of faults rose. The write is then done, as far as a read
    /// tells, and not synced, or it isn't done.
    fn write_at(&mut self, at: u64, from: &[u8]) -> Result<(), Failed>
        requires some { 0 < length from.now }
        requires room { at + length from.now ≤ 2 ^ 62 }
        ensures ok { OnOk result (content self.new ≡ written_if at from.now (content self.old)) }
        ensures err { OnErr result ((content self.new ≡ content self.old) ⊎ (content self.new ≡ written_if at from.now (content self.old))) }
        ensures crash { IsTrue (honest self.old) → Writes images moment at (length from.now) self.old self.new }

        // With no number left for it, it isn't done.
        ensures not_done { moment self.old ≡ 2 ^ 64 - 1 → content self.new ≡ content self.old }
        ensures no_crash { moment self.old ≡ 2 ^ 64 - 1 → IsTrue (honest self.old) → Same content images moment self.old self.new × Quiet images moment self.old self.new }

        ensures counts { Counts moment faults honest result self.old self.new };

    /// Makes all that was written stable: from then on a crash leaves what a read gives. `Failed`
    /// comes only where the count of faults rose, and what is pending is then still so.
    fn sync(&mut self) -> Result<(), Failed>
        ensures durable { OnOk result (IsTrue (honest self.old) → (file : List ℕ) → content self.old ≡ Some file → AtRest content images moment self.new file) }
        ensures same { content self.new ≡ content self.old }
        ensures fewer { IsTrue (honest self.old) → (c : List ℕ) → images self.new (moment self.new) c → images self.old (moment self.old) c }
        ensures crash { IsTrue (honest self.old) → Quiet images moment self.old self.new }
        ensures err { OnErr result (IsTrue (honest self.old) → Same content images moment self.old self.new) }
        ensures counts { Counts moment faults honest result self.old self.new };

    /// What a read gives is what a crash at this moment may leave.
    ghost reads_an_image: { (disk : Self) (file : List ℕ) → IsTrue (honest disk) → content disk ≡ Some file → images disk (moment disk) file };

    /// The moments since a later one are among those since an earlier one.
    ghost since_earlier: { (disk : Self) (earlier later : ℕ) (c : List ℕ) → earlier ≤ later → images disk later c → images disk earlier c };
}
