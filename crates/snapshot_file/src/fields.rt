ghost use Rattle.std.specs.Prelude.{◌≡◌, ◌≤◌, ◌<◌, length};
ghost use Rattle.token_cut.specs.Shapes.{IsShape};
ghost use Rattle.snapshot_file.specs.Lengths.{phase_at};
ghost use Rattle.snapshot_file.specs.Reading.{number};

use crate::lengths::parts_len;
use byteorder::{BigEndian, ByteOrder};
use token_cut::Shape;

/// The epoch of a body.
pub fn epoch_of(body: &[u8]) -> u64
    requires { 8 ≤ length body.now }
    ensures { result ≡ number body.now }
{
    BigEndian::read_u64(body)
}

/// The place in a body of the phase of that part.
pub fn phase_place(shape: &Shape, part: u32) -> u64
    requires shape { IsShape shape.now }
    requires part { part < length shape.now.parts }
    ensures { result ≡ phase_at shape.now part }
{
    8 + parts_len(&shape.parts[..part as usize])
}
