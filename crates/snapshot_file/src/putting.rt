// A field that is read is put into a snapshot.
ghost use Rattle.std.specs.Prelude.{◌≡◌, ◌≤◌, ◌<◌, ◌+◌, IsTrue, false, nat_le, get_or, length};
ghost use Rattle.std.specs.List.{AllByRecursion};
ghost use Rattle.token_cut.specs.Shapes.{IsPartShape, HaveShape};
ghost use Rattle.snapshot_file.specs.Tests.{is_epoch};
ghost use Rattle.snapshot_file.specs.Bodies.{phase_byte};
ghost use Rattle.snapshot_file.specs.Fields.{part_numbers};
ghost use Rattle.snapshot_file.specs.Reading.{number};
ghost use Rattle.snapshot_file.specs.Pieces.{IsField, tests_of, start_of, with_number, with_phase, is_right_in, put_in_parts};
ghost use Rattle.snapshot_file.specs.declared.field.Field.TheVariants.{Epoch};

use crate::field::Field;
use crate::fields::epoch_of;
use crate::reading::{is_epoch, phase_from};
use crate::rule::Rule;
use byteorder::{BigEndian, ByteOrder};
use token_cut::{Part, ShapePart, Snapshot};
use value_order::Order;

pub(crate) fn put_epoch(bytes: &[u8], slot: u64, into: &mut Snapshot) -> bool
    requires { 8 ≤ length bytes.now }
    ensures right { result ≡ is_epoch slot (number bytes.now) }
    ensures put { IsTrue result → into.new ≡ record { epoch = number bytes.now; parts = into.old.parts } }
    ensures parts { into.new.parts ≡ into.old.parts }
{
    let epoch = epoch_of(bytes);
    if !is_epoch(slot, epoch) {
        return false;
    }
    into.epoch = epoch;
    true
}

/// The same of a field that isn't the epoch.
pub(crate) fn put_in_parts(
    field: Field,
    bytes: &[u8],
    order: Order,
    shape: &[ShapePart],
    into: &mut [Part],
) -> bool
    requires shape { AllByRecursion IsPartShape shape.now }
    requires field { IsField shape.now field }
    requires bytes { 8 ≤ length bytes.now }
    requires into { HaveShape shape.now into.old }
    ensures right { result ≡ is_right_in order shape.now into.old field bytes.now }
    ensures put { IsTrue result → into.new ≡ put_in_parts field bytes.now into.old }
    ensures same_shape { HaveShape shape.now into.new }
{
    match field {
        Field::Epoch => true,
        Field::PhaseOf(part) => put_phase(bytes[0], &mut into[part]),
        Field::NumberOf(part, place) => {
            let number = BigEndian::read_u64(bytes);
            put_number(order, &shape[part], place, number, &mut into[part])
        }
    }
}

fn put_phase(byte: u8, part: &mut Part) -> bool
    ensures right { result ≡ nat_le byte 1 }
    ensures put { IsTrue result → part.new ≡ with_phase byte part.old }
    ensures values { part.new.values ≡ part.old.values }
    ensures mail { part.new.mail ≡ part.old.mail }
{
    let Some(phase) = phase_from(byte) else {
        return false;
    };
    part.phase = phase;
    true
}

fn put_number(order: Order, starts: &ShapePart, place: usize, number: u64, part: &mut Part) -> bool
    requires shape { IsPartShape starts.now }
    requires place { place < part_numbers starts.now }
    requires values { length part.old.values ≡ length starts.now.owned + length starts.now.mirrors }
    requires mail { length part.old.mail ≡ length starts.now.mirrors }
    ensures right { result ≡ get_or (tests_of order starts.now part.old.phase) place (λ _. false) number }
    ensures put { IsTrue result → part.new ≡ with_number place number part.old }
    ensures values { length part.new.values ≡ length part.old.values }
    ensures mail { length part.new.mail ≡ length part.old.mail }
{
    let values = part.values.len();
    if place < values {
        let rule = Rule::of_values(part.phase);
        if !rule.allows(order, start_of(starts, place), number) {
            return false;
        }
        part.values[place] = number;
    } else {
        if !Rule::Mail.allows(order, starts.mirrors[place - values], number) {
            return false;
        }
        part.mail[place - values] = number;
    }
    true
}

/// The start value of a place.
fn start_of(starts: &ShapePart, place: usize) -> u64
    requires { place < length starts.now.owned + length starts.now.mirrors }
    ensures { result ≡ start_of starts.now place }
{
    let owned = starts.owned.len();
    if place < owned {
        starts.owned[place]
    } else {
        starts.mirrors[place - owned]
    }
}
