ghost use Rattle.std.specs.Prelude.{◌≡◌, ◌≤◌, ◌<◌, ◌+◌, ◌^◌, ℕ, List, [], ◌∷◌, ◌++◌, length, Some, Ok, Err, IfErr, OnOk};
ghost use Rattle.token_cut.specs.Parts.{SnapshotParts};
ghost use Rattle.token_cut.specs.Shapes.{Starts, IsShape, HaveShape};
ghost use Rattle.snapshot_file.specs.Bodies.{Form};
ghost use Rattle.snapshot_file.specs.Feeding.{Shows, HasRead};
ghost use Rattle.snapshot_file.specs.Lengths.{body_length};
ghost use Rattle.snapshot_file.specs.Reading.{decoded};

use crate::damaged::Damaged;
use crate::field::Field;
use crate::lengths::body_len;
use std::marker::Model;
use token_cut::{Shape, Snapshot};

/// Reads a body that comes in pieces into a snapshot. It keeps the bytes of a field that hasn't
/// ended, and takes no memory.
#[derive(Drop)]
pub struct BodyReader {
    base: u64,
    slot: u64,
    fed: u64,
    field: Field,
    held: [u8; 8],
    len: usize,
    wrong: Option<u64>,
}

impl Model for BodyReader {
    ghost use Rattle.std.specs.Prelude.{◌≤◌, ◌^◌, take};
    ghost use Rattle.snapshot_file.specs.ReaderState.{ReaderState};

    ghost Value = { ReaderState };

    ghost view = { λ r. record { base = r.base; slot = r.slot; fed = r.fed; field = r.field; held = take r.len r.held; wrong = r.wrong } };

    ghost invariant = { λ r. (r.len ≤ 7) × (r.len ≤ r.fed) × (r.base ≤ 2 ^ 62) };
}

impl BodyReader {
    /// A reader of the body that stands at the place `base` of the file, in that slot. It has read
    /// nothing.
    pub fn new(base: u64, slot: u64) -> BodyReader
        requires { base ≤ 2 ^ 62 }
        ensures nothing { (shape : Starts) (into : SnapshotParts) → HasRead shape result [] into }
        ensures base { result.base ≡ base }
        ensures slot { result.slot ≡ slot }
        ensures fed { result.fed ≡ 0 }
    {
        BodyReader {
            base,
            slot,
            fed: 0,
            field: Field::Epoch,
            held: [0; 8],
            len: 0,
            wrong: None,
        }
    }

    /// The bytes that were read: of a damaged body those up to the end of its first wrong field.
    pub fn fed(&self) -> u64
        ensures { result ≡ self.now.fed }
    {
        self.fed
    }

    /// Reads the next piece of the body into a snapshot, which is the one that the pieces before were
    /// read into, with the same shape. However the body was cut, the whole of it gives what `decode`
    /// gives.
    ///
    /// `Damaged` comes exactly where the bytes so far show the first wrong field, with its place: once
    /// its last byte is there. Each later call answers the same, and reads nothing. After an `Ok` the
    /// bytes so far show no wrong field.
    pub fn feed(&mut self, piece: &[u8], shape: &Shape, into: &mut Snapshot) -> Result<(), Damaged>
        requires shape { IsShape shape.now }
        requires into { HaveShape shape.now.parts into.old.parts }
        requires length { self.old.fed + length piece.now ≤ body_length shape.now }
        ensures more { (bytes : List ℕ) → HasRead shape.now self.old bytes into.old → OnOk result (HasRead shape.now self.new (bytes ++ piece.now) into.new) }
        ensures damaged { (bytes : List ℕ) → HasRead shape.now self.old bytes into.old → IfErr result (λ e. Shows shape.now self.old.slot self.old.base (bytes ++ piece.now) e.place) }
        ensures sound { (bytes : List ℕ) → HasRead shape.now self.old bytes into.old → OnOk result ((place : ℕ) → Shows shape.now self.old.slot self.old.base (bytes ++ piece.now) place → ⊥) }

        // The last piece: the whole body reads as the snapshot.
        ensures whole { (bytes : List ℕ) → HasRead shape.now self.old bytes into.old → length (bytes ++ piece.now) ≡ body_length shape.now
            → OnOk result (decoded shape.now self.old.slot self.old.base (bytes ++ piece.now) ≡ Ok into.new) }
        ensures form { (bytes : List ℕ) → HasRead shape.now self.old bytes into.old → length (bytes ++ piece.now) ≡ body_length shape.now
            → OnOk result (Form shape.now self.old.slot (bytes ++ piece.now) into.new) }

        ensures err { IfErr result (λ e. self.new.wrong ≡ Some e.place) }
        ensures again { (place : ℕ) → self.old.wrong ≡ Some place → (result ≡ Err (record { place = place })) × (self.new ≡ self.old) × (into.new ≡ into.old) }

        ensures fed { OnOk result (self.new.fed ≡ self.old.fed + length piece.now) }
        ensures within { self.new.fed ≤ self.old.fed + length piece.now }
        ensures base { self.new.base ≡ self.old.base }
        ensures slot { self.new.slot ≡ self.old.slot }
        ensures same_shape { HaveShape shape.now.parts into.new.parts }
    {
        if let Some(place) = self.wrong {
            return Err(Damaged { place });
        }
        self.read_bytes(piece, shape, into)
    }

    /// The same of a reader that has found no wrong field.
    fn read_bytes(
        &mut self,
        piece: &[u8],
        shape: &Shape,
        into: &mut Snapshot,
    ) -> Result<(), Damaged>
        requires shape { IsShape shape.now }
        requires into { HaveShape shape.now.parts into.old.parts }
        requires length { self.old.fed + length piece.now ≤ body_length shape.now }
        ensures more { (bytes : List ℕ) → HasRead shape.now self.old bytes into.old → OnOk result (HasRead shape.now self.new (bytes ++ piece.now) into.new) }
        ensures damaged { (bytes : List ℕ) → HasRead shape.now self.old bytes into.old → IfErr result (λ e. Shows shape.now self.old.slot self.old.base (bytes ++ piece.now) e.place) }
        ensures err { IfErr result (λ e. self.new.wrong ≡ Some e.place) }
        ensures fed { OnOk result (self.new.fed ≡ self.old.fed + length piece.now) }
        ensures within { self.new.fed ≤ self.old.fed + length piece.now }
        ensures base { self.new.base ≡ self.old.base }
        ensures slot { self.new.slot ≡ self.old.slot }
        ensures same_shape { HaveShape shape.now.parts into.new.parts }
    {
        for byte in piece {
            self.read_byte(*byte, shape, into)?;
        }
        Ok(())
    }

    fn read_byte(&mut self, byte: u8, shape: &Shape, into: &mut Snapshot) -> Result<(), Damaged>
        requires shape { IsShape shape.now }
        requires into { HaveShape shape.now.parts into.old.parts }
        requires length { self.old.fed < body_length shape.now }
        ensures more { (bytes : List ℕ) → HasRead shape.now self.old bytes into.old → OnOk result (HasRead shape.now self.new (bytes ++ byte ∷ []) into.new) }
        ensures damaged { (bytes : List ℕ) → HasRead shape.now self.old bytes into.old → IfErr result (λ e. Shows shape.now self.old.slot self.old.base (bytes ++ byte ∷ []) e.place) }
        ensures err { IfErr result (λ e. self.new.wrong ≡ Some e.place) }
        ensures fed { self.new.fed ≡ self.old.fed + 1 }
        ensures base { self.new.base ≡ self.old.base }
        ensures slot { self.new.slot ≡ self.old.slot }
        ensures same_shape { HaveShape shape.now.parts into.new.parts }
    {
        let width = self.field.width();
        let _small = body_len(shape);
        self.held[self.len] = byte;
        self.fed += 1;
        if self.len + 1 < width {
            self.len += 1;
            return Ok(());
        }
        self.len = 0;
        if !self.field.is_in(&shape.parts) {
            return Ok(());
        }
        if !self.field.put(&self.held, self.slot, shape, into) {
            let place = self.base + (self.fed - width as u64);
            self.wrong = Some(place);
            return Err(Damaged { place });
        }
        self.field = self.field.next(&shape.parts);
        Ok(())
    }
}
