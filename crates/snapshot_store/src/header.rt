// The header of a file, read back.
ghost use Rattle.std.specs.Prelude.{◌≡◌, ◌+◌, ◌≤◌, length, take};
ghost use Rattle.token_cut.specs.Shapes.{IsShape};
ghost use Rattle.snapshot_store.specs.State.{first_wrong, by_header};
ghost use Rattle.snapshot_store.specs.Opening.{HeaderSays};

use crate::create::front_of;
use crate::fault::StoreFault;
use crate::steps::OPEN;
use snapshot_file::{file_len, slot_len};
use token_cut::Shape;

/// Whether the slots decide what a file of that size stands for; it stands for nothing where they
/// don't. The head is its first 64 bytes.
pub(crate) fn check_header(
    size: u64,
    head: &[u8],
    shape: &Shape,
    digest: &[u8; 32],
) -> Result<bool, StoreFault>
    requires shape { IsShape shape.now }
    requires size { 64 ≤ size }
    requires head { length head.now ≡ 64 }
    ensures { HeaderSays digest.now (by_header shape.now digest.now size head.now) result }
{
    if head[0] != OPEN {
        return Ok(false);
    }
    let (_, behind) = head.split_at(8);
    if first_wrong(digest, 8, behind).is_some() {
        return Err(StoreFault::Other {
            kept: digest_at(behind),
            here: *digest,
        });
    }
    if size < file_len(shape) {
        return Ok(false);
    }
    let front = front_of(slot_len(shape), digest);
    let (expected, _) = front.split_at(63);
    let (_, named) = head.split_at(1);
    match first_wrong(expected, 1, named) {
        Some(place) => Err(StoreFault::Damaged { place }),
        None => Ok(true),
    }
}

/// The place of the first byte that isn't the expected one.
fn first_wrong(expected: &[u8], at: u64, bytes: &[u8]) -> Option<u64>
    requires long { length expected.now ≤ length bytes.now }
    requires place { at + length expected.now ≤ 128 }
    ensures { result ≡ first_wrong expected.now at bytes.now }
{
    for i in 0..expected.len() {
        if bytes[i] != expected[i] {
            return Some(at + i as u64);
        }
    }
    None
}

fn digest_at(bytes: &[u8]) -> [u8; 32]
    requires { 32 ≤ length bytes.now }
    ensures { result ≡ take 32 bytes.now }
{
    let mut digest = [0; 32];
    digest.copy_from_slice(&bytes[..32]);
    digest
}
