ghost use Rattle.std.specs.Prelude.{◌≡◌, IfOk};

use grape_port::NoMemory;
use std::alloc::Global;

/// A vector of the items of a slice.
pub fn copy_of<T: Copy>(alloc: Global, items: &[T]) -> Result<Vec<T>, NoMemory>
    ensures { IfOk result (λ copy. copy.items ≡ items.now) }
{
    Vec::from_slice(alloc, items).map_err(|_| NoMemory)
}
