// A body is written piece by piece: each part of it puts what of its bytes lies in the piece, and tells how many.
ghost use Rattle.std.specs.Prelude.{◌≡◌, ◌≤◌, ◌<◌, ◌+◌, ◌*◌, ◌++◌, length, take, drop};
ghost use Rattle.std.specs.List.{flat_map, AllByRecursion};
ghost use Rattle.byteorder.specs.Endian.{big_bytes};
ghost use Rattle.token_cut.specs.Shapes.{IsShape, IsPartShape, HaveShape};
ghost use Rattle.snapshot_file.specs.Bodies.{body_bytes, part_bytes, number_bytes};
ghost use Rattle.snapshot_file.specs.Cuts.{Puts};
ghost use Rattle.snapshot_file.specs.Lengths.{body_length};

use crate::lengths::{body_len, part_len};
use crate::writing::phase_byte;
use byteorder::{BigEndian, ByteOrder};
use token_cut::{Part, Shape, ShapePart, Snapshot};

/// Fills `to` with the bytes of a body from that place of it on, which lie in the body. The snapshot
/// has the shape. Takes no memory, and the time that the piece's bytes take, beside a look at each
/// part.
pub fn encode_piece(snapshot: &Snapshot, shape: &Shape, from: u64, to: &mut [u8])
    requires shape { IsShape shape.now }
    requires snapshot { HaveShape shape.now.parts snapshot.now.parts }
    requires within { from + length to.old ≤ body_length shape.now }
    ensures { to.new ≡ take (length to.old) (drop from (body_bytes snapshot.now)) }
{
    let _small = body_len(shape);
    let skip = from as usize;
    let done = put_number(snapshot.epoch, skip, to);
    let (_, rest) = to.split_at_mut(done);
    put_parts(&snapshot.parts, &shape.parts, skip.saturating_sub(8), rest);
}

fn put_parts(parts: &[Part], shape: &[ShapePart], skip: usize, to: &mut [u8]) -> usize
    requires shape { AllByRecursion IsPartShape shape.now }
    requires parts { HaveShape shape.now parts.now }
    ensures { Puts (flat_map part_bytes parts.now) skip to.old to.new result }
{
    let mut skip = skip;
    let mut done = 0;
    for i in 0..shape.len() {
        let (_, rest) = to.split_at_mut(done);
        done += put_part(&parts[i], skip, rest);
        skip = skip.saturating_sub(part_len(&shape[i]) as usize);
    }
    done
}

fn put_part(part: &Part, skip: usize, to: &mut [u8]) -> usize
    ensures { Puts (part_bytes part.now) skip to.old to.new result }
{
    let phase = put_bytes(&[phase_byte(part.phase)], skip, to);
    let (_, rest) = to.split_at_mut(phase);
    phase + put_both(&part.values, &part.mail, skip.saturating_sub(1), rest)
}

fn put_both(values: &[u64], mail: &[u64], skip: usize, to: &mut [u8]) -> usize
    ensures { Puts (number_bytes values.now ++ number_bytes mail.now) skip to.old to.new result }
{
    let first = put_numbers(values, skip, to);
    let (_, rest) = to.split_at_mut(first);
    first + put_numbers(mail, skip.saturating_sub(8 * values.len()), rest)
}

fn put_numbers(numbers: &[u64], skip: usize, to: &mut [u8]) -> usize
    ensures { Puts (number_bytes numbers.now) skip to.old to.new result }
{
    let mut within = skip % 8;
    let mut done = 0;
    for i in skip / 8..numbers.len() {
        if done == to.len() {
            return done;
        }
        let (_, rest) = to.split_at_mut(done);
        done += put_number(numbers[i], within, rest);
        within = 0;
    }
    done
}

fn put_number(number: u64, skip: usize, to: &mut [u8]) -> usize
    ensures { Puts (big_bytes 8 number) skip to.old to.new result }
{
    if skip == 0 && 8 <= to.len() {
        BigEndian::write_u64(to, number);
        return 8;
    }
    let mut bytes = [0; 8];
    BigEndian::write_u64(&mut bytes, number);
    put_bytes(&bytes, skip, to)
}

fn put_bytes(bytes: &[u8], skip: usize, to: &mut [u8]) -> usize
    ensures { Puts bytes.now skip to.old to.new result }
{
    if bytes.len() <= skip {
        return 0;
    }
    let (_, behind) = bytes.split_at(skip);
    let count = behind.len().min(to.len());
    to[..count].copy_from_slice(&behind[..count]);
    count
}
