ghost use Rattle.std.specs.Prelude.{◌≡◌, ◌≤◌, ◌<◌, ◌^◌, ℕ, length};
ghost use Rattle.std.specs.List.{AllByRecursion};
ghost use Rattle.token_cut.specs.Form.{IsInSlotForm};
ghost use Rattle.token_cut.specs.Parts.{SnapshotParts};
ghost use Rattle.token_cut.specs.Shapes.{IsShape, IsPartShape};
ghost use Rattle.snapshot_file.specs.Bodies.{body_bytes};
ghost use Rattle.snapshot_file.specs.Lengths.{part_length, parts_length, body_length, slot_length, file_length};

use token_cut::{Shape, ShapePart};

/// The bytes of a body: 8 for the epoch, and for each worker 1 for its phase, 8 for each place and 8
/// for the mail of each mirror.
pub fn body_len(shape: &Shape) -> u64
    requires { IsShape shape.now }
    ensures length { result ≡ body_length shape.now }
    ensures bodies { (slot : ℕ) (snapshot : SnapshotParts) → IsInSlotForm shape.now slot snapshot → length (body_bytes snapshot) ≡ result }
    ensures small { result < 2 ^ 32 }
{
    8 + parts_len(&shape.parts)
}

/// The bytes of a slot: its gate and its body.
pub fn slot_len(shape: &Shape) -> u64
    requires { IsShape shape.now }
    ensures length { result ≡ slot_length shape.now }
    ensures small { result ≤ 2 ^ 32 }
{
    body_len(shape) + 1
}

/// The bytes of a file: its header of 64 bytes and two slots.
pub fn file_len(shape: &Shape) -> u64
    requires { IsShape shape.now }
    ensures length { result ≡ file_length shape.now }
    ensures small { result < 2 ^ 34 }
{
    64 + 2 * slot_len(shape)
}

pub(crate) fn parts_len(parts: &[ShapePart]) -> u64
    requires few { length parts.now ≤ 64 }
    requires parts { AllByRecursion IsPartShape parts.now }
    ensures length { result ≡ parts_length parts.now }
    ensures small { result ≤ 1536000064 }
{
    let mut len = 0;
    for part in parts {
        len += part_len(part);
    }
    len
}

pub(crate) fn part_len(part: &ShapePart) -> u64
    requires { IsPartShape part.now }
    ensures length { result ≡ part_length part.now }
    ensures small { result ≤ 24000001 }
{
    1 + 8 * part.owned.len() as u64 + 16 * part.mirrors.len() as u64
}
