ghost use Rattle.std.specs.Prelude.{◌≡◌, ◌≤◌, ◌<◌, ◌^◌, IsTrue, true, length};
ghost use Rattle.std.specs.List.{AllByRecursion};
ghost use Rattle.token_cut.specs.Shapes.{IsShape, IsPartShape, HaveShape};
ghost use Rattle.snapshot_file.specs.Fields.{part_numbers};
ghost use Rattle.snapshot_file.specs.Pieces.{width_of, IsField, field_behind, next_field, is_right, put_field};

use crate::putting::{put_epoch, put_in_parts};
use token_cut::{Shape, ShapePart, Snapshot};

/// The field of a body that comes next.
#[derive(Clone, Copy, Debug, PartialEq, Eq)]
pub(crate) enum Field {
    Epoch,
    /// The phase of that part. Behind the last part nothing comes.
    PhaseOf(usize),
    /// A number of that part: its values come first, and then its mail.
    NumberOf(usize, usize),
}

impl Field {
    /// The bytes of the field.
    pub(crate) fn width(self) -> usize
        ensures { result ≡ width_of self }
    {
        match self {
            Field::PhaseOf(_) => 1,
            _ => 8,
        }
    }

    /// Whether a body of the shape has such a field.
    pub(crate) fn is_in(self, shape: &[ShapePart]) -> bool
        requires { AllByRecursion IsPartShape shape.now }
        ensures yes { result ≡ true → IsField shape.now self }
        ensures no { IsField shape.now self → result ≡ true }
    {
        match self {
            Field::Epoch => true,
            Field::PhaseOf(part) => part < shape.len(),
            Field::NumberOf(part, place) => {
                part < shape.len() && place < numbers_of(&shape[part])
            }
        }
    }

    /// The field behind it.
    pub(crate) fn next(self, shape: &[ShapePart]) -> Field
        requires shape { AllByRecursion IsPartShape shape.now }
        requires field { IsField shape.now self }
        ensures { result ≡ next_field shape.now self }
    {
        match self {
            Field::Epoch => Field::PhaseOf(0),
            Field::PhaseOf(part) => field_behind(part, 0, &shape[part]),
            Field::NumberOf(part, place) => field_behind(part, place + 1, &shape[part]),
        }
    }

    /// Puts what stands in the field's bytes into a snapshot, where it is right, and tells whether it
    /// is.
    pub(crate) fn put(self, bytes: &[u8], slot: u64, shape: &Shape, into: &mut Snapshot) -> bool
        requires shape { IsShape shape.now }
        requires field { IsField shape.now.parts self }
        requires bytes { 8 ≤ length bytes.now }
        requires into { HaveShape shape.now.parts into.old.parts }
        ensures right { result ≡ is_right shape.now slot into.old self bytes.now }
        ensures put { IsTrue result → into.new ≡ put_field self bytes.now into.old }
        ensures same_shape { HaveShape shape.now.parts into.new.parts }
    {
        match self {
            Field::Epoch => put_epoch(bytes, slot, into),
            _ => put_in_parts(self, bytes, shape.order, &shape.parts, &mut into.parts),
        }
    }
}

fn field_behind(part: usize, place: usize, starts: &ShapePart) -> Field
    requires shape { IsPartShape starts.now }
    requires part { part < 2 ^ 63 }
    ensures { result ≡ field_behind part place starts.now }
{
    if place < numbers_of(starts) {
        Field::NumberOf(part, place)
    } else {
        Field::PhaseOf(part + 1)
    }
}

/// How many numbers a part has.
fn numbers_of(starts: &ShapePart) -> usize
    requires { IsPartShape starts.now }
    ensures { result ≡ part_numbers starts.now }
{
    starts.owned.len() + 2 * starts.mirrors.len()
}
