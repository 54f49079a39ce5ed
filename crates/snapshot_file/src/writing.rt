ghost use Rattle.std.specs.Prelude.{◌≡◌, ◌≤◌, ◌+◌, ◌++◌, ℕ, length, Ok, vec_len, vec_capacity};
ghost use Rattle.byteorder.specs.Endian.{big_bytes};
ghost use Rattle.token_cut.specs.Form.{IsInSlotForm};
ghost use Rattle.token_cut.specs.Shapes.{Starts};
ghost use Rattle.snapshot_file.specs.Bodies.{body_bytes, part_bytes, number_bytes, phase_byte};
ghost use Rattle.snapshot_file.specs.Reading.{decoded};

use byteorder::{BigEndian, ByteOrder};
use token_cut::{Part, Phase, Snapshot};

/// Appends the body of a snapshot. There is room for it in `to`, whose capacity stays as it is.
///
/// The body of a snapshot in the form has `body_len` bytes, and reads back as that snapshot wherever
/// it stands in a file.
pub fn encode(snapshot: &Snapshot, to: &mut Vec<u8>)
    requires room { vec_len to.old + length (body_bytes snapshot.now) ≤ vec_capacity to.old }
    ensures bytes { to.new.items ≡ to.old.items ++ body_bytes snapshot.now }
    ensures capacity { vec_capacity to.new ≡ vec_capacity to.old }
    ensures reads_back { (shape : Starts) (slot at : ℕ) → IsInSlotForm shape slot snapshot.now → decoded shape slot at (body_bytes snapshot.now) ≡ Ok snapshot.now }
{
    write_number(snapshot.epoch, to);
    for part in &snapshot.parts {
        write_part(part, to);
    }
}

fn write_part(part: &Part, to: &mut Vec<u8>)
    requires { vec_len to.old + length (part_bytes part.now) ≤ vec_capacity to.old }
    ensures bytes { to.new.items ≡ to.old.items ++ part_bytes part.now }
    ensures length { vec_len to.new ≡ vec_len to.old + length (part_bytes part.now) }
    ensures capacity { vec_capacity to.new ≡ vec_capacity to.old }
{
    to.push_reserved(phase_byte(part.phase));
    write_numbers(&part.values, to);
    write_numbers(&part.mail, to);
}

pub(crate) fn phase_byte(phase: Phase) -> u8
    ensures { result ≡ phase_byte phase }
{
    match phase {
        Phase::Fresh => 0,
        Phase::Rest => 1,
    }
}

fn write_numbers(numbers: &[u64], to: &mut Vec<u8>)
    requires { vec_len to.old + length (number_bytes numbers.now) ≤ vec_capacity to.old }
    ensures bytes { to.new.items ≡ to.old.items ++ number_bytes numbers.now }
    ensures length { vec_len to.new ≡ vec_len to.old + length (number_bytes numbers.now) }
    ensures capacity { vec_capacity to.new ≡ vec_capacity to.old }
{
    for number in numbers {
        write_number(*number, to);
    }
}

fn write_number(number: u64, to: &mut Vec<u8>)
    requires { vec_len to.old + 8 ≤ vec_capacity to.old }
    ensures bytes { to.new.items ≡ to.old.items ++ big_bytes 8 number }
    ensures length { vec_len to.new ≡ vec_len to.old + 8 }
    ensures capacity { vec_capacity to.new ≡ vec_capacity to.old }
{
    let mut bytes = [0; 8];
    BigEndian::write_u64(&mut bytes, number);
    write_bytes(&bytes, to);
}

fn write_bytes(bytes: &[u8], to: &mut Vec<u8>)
    requires { vec_len to.old + length bytes.now ≤ vec_capacity to.old }
    ensures bytes { to.new.items ≡ to.old.items ++ bytes.now }
    ensures length { vec_len to.new ≡ vec_len to.old + length bytes.now }
    ensures capacity { vec_capacity to.new ≡ vec_capacity to.old }
{
    for byte in bytes {
        to.push_reserved(*byte);
    }
}
