ghost use Rattle.std.specs.Prelude.{◌≡◌, ◌⊎◌, ◌≤◌, ℕ, min, List, length, take, Some, IsTrue, IsErrOf, IfOk, IfErr, OnOk, OnErr};
ghost use Rattle.grape_port.specs.Ports.{Rose};
ghost use Rattle.grape_disk.specs.Images.{AtRest, Same, Leaves};
ghost use Rattle.token_cut.specs.Shapes.{IsShape};
ghost use Rattle.snapshot_store.specs.Opening.{OpensAs, NamesBoth, IsFormed};
ghost use Rattle.snapshot_store.specs.Reads.{Tells, Unwritten};
ghost use Rattle.snapshot_store.specs.declared.fault.StoreFault.TheVariants.{Disk as DiskFault};

use crate::body::new_piece;
use crate::fault::StoreFault;
use crate::header::check_header;
use crate::opened::Opened;
use crate::slots::read_slots;
use crate::store::Store;
use grape_disk::{Disk, Failed};
use std::alloc::Global;
use token_cut::Shape;

impl Store {
    /// Reads a file that a crash may have left. It writes nothing, and it syncs nothing: where
    /// something is pending, sync the disk first. It reads the body of one slot at most, through the
    /// piece that the store keeps, and takes no memory beside that piece and the snapshot.
    ///
    /// `Other` comes where the file is another input's, and `Damaged` where it, or the slot that it
    /// stands for, has a byte that may not stand there.
    pub fn open<D: Disk>(
        alloc: Global,
        disk: &mut D,
        shape: &Shape,
        digest: &[u8; 32],
    ) -> Result<Opened, StoreFault>
        requires { IsShape shape.now }
        ensures answer { (file : List ℕ) → D.content disk.old ≡ Some file → OpensAs shape.now digest.now file result }

        // Where the disk tells no content, the answer is that of some bytes.
        ensures read { (bytes : List ℕ) × OpensAs shape.now digest.now bytes result }
        ensures names_both { NamesBoth digest.now result }
        ensures form { IsFormed shape.now result }

        ensures same { D.content disk.new ≡ D.content disk.old }
        ensures writes_nothing { IsTrue (D.honest disk.old) → Same D.content D.images D.moment disk.old disk.new × Leaves D.images D.moment disk.old disk.new (λ _. ⊥) }
        ensures at_rest { IsTrue (D.honest disk.old) → (file : List ℕ) → AtRest D.content D.images D.moment disk.old file → AtRest D.content D.images D.moment disk.new file }
        ensures honest { D.honest disk.new ≡ D.honest disk.old }
        ensures later { D.moment disk.old ≤ D.moment disk.new }

        ensures disk_fault { IsErrOf result DiskFault → Rose (D.faults disk.old) (D.faults disk.new) }
        ensures no_fault { OnOk result (D.faults disk.new ≡ D.faults disk.old) }
        ensures other_fault { IfErr result (λ e. (e ≡ DiskFault) ⊎ (D.faults disk.new ≡ D.faults disk.old)) }
    {
        let size = disk.len()?;
        if size < 64 {
            return Ok(Opened::Nothing);
        }
        let front = read_front(disk, size)?;
        opened_from(alloc, disk, size, &front, shape, digest)
    }
}

/// The first 64 bytes of a file, and 9 more where it has them: the gate and the epoch of the first slot.
fn read_front<D: Disk>(disk: &mut D, size: u64) -> Result<[u8; 73], Failed>
    requires long { 64 ≤ size }
    requires size { (file : List ℕ) → D.content disk.old ≡ Some file → size ≡ length file }
    ensures front { IfOk result (λ front. (file : List ℕ) → D.content disk.old ≡ Some file → take 73 file ≡ take (min size 73) front) }
    ensures unwritten { Unwritten D.content D.images D.moment D.honest disk.old disk.new }
    ensures cause { OnErr result (Rose (D.faults disk.old) (D.faults disk.new)) }
    ensures no_fault { OnOk result (D.faults disk.new ≡ D.faults disk.old) }
{
    let mut front = [0; 73];
    let (to, _) = front.split_at_mut(size.min(73) as usize);
    disk.read_at(0, to)?;
    Ok(front)
}

/// What a file of that size with that front holds. The front has zeros where the file ends.
fn opened_from<D: Disk>(
    alloc: Global,
    disk: &mut D,
    size: u64,
    front: &[u8; 73],
    shape: &Shape,
    digest: &[u8; 32],
) -> Result<Opened, StoreFault>
    requires shape { IsShape shape.now }
    requires long { 64 ≤ size }
    requires size { (file : List ℕ) → D.content disk.old ≡ Some file → size ≡ length file }
    ensures opens { Tells (D.content disk.old) (min size 73) size (λ file. length file ≡ size → take 73 file ≡ take (min size 73) front.now → OpensAs shape.now digest.now file result) }
    ensures names_both { NamesBoth digest.now result }
    ensures form { IsFormed shape.now result }
    ensures unwritten { Unwritten D.content D.images D.moment D.honest disk.old disk.new }
    ensures disk_fault { IsErrOf result DiskFault → Rose (D.faults disk.old) (D.faults disk.new) }
    ensures no_fault { OnOk result (D.faults disk.new ≡ D.faults disk.old) }
    ensures other_fault { IfErr result (λ e. (e ≡ DiskFault) ⊎ (D.faults disk.new ≡ D.faults disk.old)) }
{
    let (head, zero) = front.split_at(64);
    if !check_header(size, head, shape, digest)? {
        return Ok(Opened::Nothing);
    }
    let mut piece = new_piece(alloc)?;
    let Some(snapshot) = read_slots(alloc, disk, zero, shape, &mut piece)? else {
        return Ok(Opened::Nothing);
    };
    let last = snapshot.epoch;
    let store = Store {
        digest: *digest,
        last,
        piece,
    };
    Ok(Opened::Last(store, snapshot))
}
