// A body is read from its front: each step reads a field or a few, and its slice begins at the first of them.
ghost use Rattle.std.specs.Prelude.{◌≡◌, ◌≤◌, ◌<◌, ◌+◌, ◌*◌, ◌^◌, ◌∷◌, [], ◌++◌, ℕ, length, map, replicate, drop, slice_index, Ok, Err, IfOk, IfErr, OnOk, OnErr, MatchOption};
ghost use Rattle.std.specs.List.{flat_map, AllByRecursion};
ghost use Rattle.snapshot_file.specs.Tests.{is_epoch};
ghost use Rattle.token_cut.specs.Parts.{SnapshotParts, PartValues};
ghost use Rattle.token_cut.specs.Shapes.{IsShape, IsPartShape, HaveShape};
ghost use Rattle.snapshot_file.specs.Bodies.{Form, phase_byte};
ghost use Rattle.snapshot_file.specs.Fields.{fields, fields_in, field_widths, part_fields, part_fields_in, parts_fields_in, part_widths, numbers_in, FillsUpTo};
ghost use Rattle.snapshot_file.specs.Lengths.{body_length, part_length, parts_length};
ghost use Rattle.snapshot_file.specs.Reading.{decoded, numbers, part_decoded, parts_decoded};
ghost use Rattle.snapshot_file.specs.Rules.{allows_of};

use crate::damaged::Damaged;
use crate::fields::epoch_of;
use crate::lengths::part_len;
use crate::rule::Rule;
use byteorder::{BigEndian, ByteOrder};
use token_cut::{Part, Phase, Shape, ShapePart, Snapshot};
use value_order::Order;

/// Reads the body that stands at the place `base` of the file, in that slot.
///
/// `Damaged` comes exactly where the body isn't in the form, with the place of the first wrong
/// field. Then the fields before it are replaced, and all else of `into` stays.
pub fn decode(
    bytes: &[u8],
    base: u64,
    slot: u64,
    shape: &Shape,
    into: &mut Snapshot,
) -> Result<(), Damaged>
    requires shape { IsShape shape.now }
    requires length { length bytes.now ≡ body_length shape.now }
    requires into { HaveShape shape.now.parts into.old.parts }
    requires place { base ≤ 2 ^ 62 }
    ensures ok { OnOk result (decoded shape.now slot base bytes.now ≡ Ok into.new) }
    ensures form { OnOk result (Form shape.now slot bytes.now into.new) }
    ensures damaged { IfErr result (λ e. decoded shape.now slot base bytes.now ≡ Err e.place) }
    ensures not_form { OnErr result ((snapshot : SnapshotParts) → Form shape.now slot bytes.now snapshot → ⊥) }
    ensures filled { IfErr result (λ e. FillsUpTo (field_widths shape.now) (fields_in shape.now bytes.now) (fields into.old) (fields into.new) base e.place) }
    ensures same_shape { HaveShape shape.now.parts into.new.parts }
{
    let epoch = epoch_of(bytes);
    if !is_epoch(slot, epoch) {
        return Err(Damaged { place: base });
    }
    into.epoch = epoch;
    let (_, rest) = bytes.split_at(8);
    read_parts(rest, base + 8, shape.order, &shape.parts, &mut into.parts)
}

pub(crate) fn is_epoch(slot: u64, number: u64) -> bool
    ensures { result ≡ is_epoch slot number }
{
    1 <= number && number < 1 << 62 && number % 2 == slot
}

fn read_parts(
    bytes: &[u8],
    at: u64,
    order: Order,
    shape: &[ShapePart],
    into: &mut [Part],
) -> Result<(), Damaged>
    requires shape { AllByRecursion IsPartShape shape.now }
    requires few { length shape.now ≤ 64 }
    requires length { parts_length shape.now ≤ length bytes.now }
    requires into { HaveShape shape.now into.old }
    requires place { at ≤ 2 ^ 63 }
    ensures ok { OnOk result (parts_decoded order shape.now at bytes.now ≡ Ok into.new) }
    ensures damaged { IfErr result (λ e. parts_decoded order shape.now at bytes.now ≡ Err e.place) }
    ensures filled { IfErr result (λ e. FillsUpTo (flat_map part_widths shape.now) (parts_fields_in shape.now bytes.now) (flat_map part_fields into.old) (flat_map part_fields into.new) at e.place) }
    ensures same_shape { HaveShape shape.now into.new }
{
    let mut rest = bytes;
    let mut place = at;
    for i in 0..shape.len() {
        let starts = &shape[i];
        let len = part_len(starts);
        read_part(rest, place, order, starts, &mut into[i])?;
        rest = rest.split_at(len as usize).1;
        place += len;
    }
    Ok(())
}

fn read_part(
    bytes: &[u8],
    at: u64,
    order: Order,
    starts: &ShapePart,
    into: &mut Part,
) -> Result<(), Damaged>
    requires shape { IsPartShape starts.now }
    requires length { part_length starts.now ≤ length bytes.now }
    requires values { length into.old.values ≡ length starts.now.owned + length starts.now.mirrors }
    requires mail { length into.old.mail ≡ length starts.now.mirrors }
    requires place { at ≤ 2 ^ 63 + 2 ^ 32 }
    ensures ok { OnOk result (part_decoded order starts.now at bytes.now ≡ Ok into.new) }
    ensures damaged { IfErr result (λ e. part_decoded order starts.now at bytes.now ≡ Err e.place) }
    ensures filled { IfErr result (λ e. FillsUpTo (part_widths starts.now) (part_fields_in starts.now bytes.now) (part_fields into.old) (part_fields into.new) at e.place) }
    ensures read { OnOk result (part_fields into.new ≡ part_fields_in starts.now bytes.now) }
    ensures values { length into.new.values ≡ length into.old.values }
    ensures mail { length into.new.mail ≡ length into.old.mail }
{
    let Some(phase) = phase_from(bytes[0]) else {
        return Err(Damaged { place: at });
    };
    into.phase = phase;
    let (_, values) = bytes.split_at(1);
    let rule = Rule::of_values(phase);
    read_values(values, at + 1, order, rule, starts, &mut into.values)?;
    let places = 8 * into.values.len();
    let (_, mail) = values.split_at(places);
    let place = at + 1 + places as u64;
    read_numbers(
        mail,
        place,
        order,
        Rule::Mail,
        &starts.mirrors,
        &mut into.mail,
    )
}

pub(crate) fn phase_from(byte: u8) -> Option<Phase>
    ensures { MatchOption result (1 < byte) (λ phase. phase_byte phase ≡ byte) }
{
    match byte {
        0 => Some(Phase::Fresh),
        1 => Some(Phase::Rest),
        _ => None,
    }
}

fn read_values(
    bytes: &[u8],
    at: u64,
    order: Order,
    rule: Rule,
    starts: &ShapePart,
    into: &mut [u64],
) -> Result<(), Damaged>
    requires shape { IsPartShape starts.now }
    requires length { 8 * length into.old ≤ length bytes.now }
    requires into { length into.old ≡ length starts.now.owned + length starts.now.mirrors }
    requires place { at ≤ 2 ^ 63 + 2 ^ 33 }
    ensures ok { OnOk result (numbers (map (allows_of rule order) (starts.now.owned ++ starts.now.mirrors)) at bytes.now ≡ Ok into.new) }
    ensures damaged { IfErr result (λ e. numbers (map (allows_of rule order) (starts.now.owned ++ starts.now.mirrors)) at bytes.now ≡ Err e.place) }
    ensures filled { IfErr result (λ e. FillsUpTo (replicate (length into.old) 8) (numbers_in (length into.old) bytes.now) into.old into.new at e.place) }
    ensures read { OnOk result (into.new ≡ numbers_in (length into.old) bytes.now) }
    ensures length { length into.new ≡ length into.old }
{
    let owned = starts.owned.len();
    let (own, copies) = into.split_at_mut(owned);
    read_numbers(bytes, at, order, rule, &starts.owned, own)?;
    let (_, behind) = bytes.split_at(8 * owned);
    let place = at + 8 * owned as u64;
    read_numbers(behind, place, order, rule, &starts.mirrors, copies)
}

fn read_numbers(
    bytes: &[u8],
    at: u64,
    order: Order,
    rule: Rule,
    starts: &[u64],
    into: &mut [u64],
) -> Result<(), Damaged>
    requires length { 8 * length starts.now ≤ length bytes.now }
    requires into { length into.old ≡ length starts.now }
    requires few { length starts.now ≤ 1000000 }
    requires place { at ≤ 2 ^ 63 + 2 ^ 34 }
    ensures ok { OnOk result (numbers (map (allows_of rule order) starts.now) at bytes.now ≡ Ok into.new) }
    ensures damaged { IfErr result (λ e. numbers (map (allows_of rule order) starts.now) at bytes.now ≡ Err e.place) }
    ensures filled { IfErr result (λ e. FillsUpTo (replicate (length into.old) 8) (numbers_in (length into.old) bytes.now) into.old into.new at e.place) }
    ensures read { OnOk result (into.new ≡ numbers_in (length into.old) bytes.now) }
    ensures length { length into.new ≡ length into.old }
{
    for i in 0..starts.len() {
        let (_, rest) = bytes.split_at(8 * i);
        let number = BigEndian::read_u64(rest);
        if !rule.allows(order, starts[i], number) {
            return Err(Damaged {
                place: at + 8 * i as u64,
            });
        }
        into[i] = number;
    }
    Ok(())
}
