ghost use Rattle.std.specs.Prelude.{◌≡◌, ℕ, ◌+◌, ◌<◌, ◌≤◌, List, [], ◌++◌, length, take, OnOk, OnErr, decimal};
ghost use Rattle.grape_port.specs.Ports.{Rose, Appends, AppendsFront, IsAllFlushed};
ghost use Rattle.answer_text.specs.Waiting.{Puts};

use grape_port::{Failed, Sink, write_all};
use itoa::Buffer;
use std::marker::Model;

/// How many bytes a piece holds.
pub const PIECE_LEN: usize = 4096;

/// The next bytes for a sink, which wait to be written together.
#[derive(Drop)]
pub struct Piece {
    bytes: [u8; PIECE_LEN],
    len: usize,
}

impl Model for Piece {
    ghost use Rattle.std.specs.Prelude.{◌≤◌, ℕ, List, take};

    ghost Value = { List ℕ };

    ghost view = { λ p. take p.len p.bytes };

    ghost invariant = { λ p. p.len ≤ 4096 };
}

impl Piece {
    /// An empty piece.
    pub fn new() -> Piece
        ensures { result ≡ [] }
    {
        Piece {
            bytes: [0; PIECE_LEN],
            len: 0,
        }
    }

    /// Adds some bytes, for which there is room.
    pub fn push(&mut self, bytes: &[u8])
        requires { length self.old + length bytes.now ≤ PIECE_LEN }
        ensures { self.new ≡ self.old ++ bytes.now }
    {
        let end = self.len + bytes.len();
        self.bytes[self.len..end].copy_from_slice(bytes);
        self.len = end;
    }

    /// Adds a number in decimal, which takes at most 20 digits.
    pub fn push_number(&mut self, number: u64)
        requires { length self.old + 20 ≤ PIECE_LEN }
        ensures digits { self.new ≡ self.old ++ decimal number }
        ensures short { length self.new ≤ length self.old + 20 }
        ensures two_digits { number < 100 → length self.new ≤ length self.old + 2 }
    {
        let mut buffer = Buffer::new();
        self.push(buffer.format(number).as_bytes());
    }

    /// Adds a number of up to 128 bits in decimal, which takes at most 39 digits.
    pub fn push_wide_number(&mut self, number: u128)
        requires { length self.old + 39 ≤ PIECE_LEN }
        ensures digits { self.new ≡ self.old ++ decimal number }
        ensures short { length self.new ≤ length self.old + 39 }
    {
        let mut buffer = Buffer::new();
        self.push(buffer.format(number).as_bytes());
    }

    /// Writes out what waits.
    pub fn write_out<O: Sink>(&mut self, out: &mut O) -> Result<(), Failed>
        ensures appended { OnOk result (Appends (O.written out.old) self.old (O.written out.new)) }
        ensures emptied { OnOk result (self.new ≡ []) }
        ensures err { OnErr result (AppendsFront (O.written out.old) self.old (O.written out.new)) }
        ensures fault { OnErr result (Rose (O.faults out.old) (O.faults out.new)) }
        ensures faults_stay { O.faults out.old ≤ O.faults out.new }
    {
        write_all(out, &self.bytes[..self.len])?;
        self.len = 0;
        Ok(())
    }

    /// Writes out what waits, and flushes all.
    pub fn finish<O: Sink>(&mut self, out: &mut O) -> Result<(), Failed>
        ensures appended { OnOk result (Appends (O.written out.old) self.old (O.written out.new)) }
        ensures flushed { OnOk result (IsAllFlushed (O.written out.new) (O.flushed out.new)) }
        ensures err { OnErr result (AppendsFront (O.written out.old) self.old (O.written out.new)) }
        ensures fault { OnErr result (Rose (O.faults out.old) (O.faults out.new)) }
        ensures faults_stay { O.faults out.old ≤ O.faults out.new }
    {
        self.write_out(out)?;
        out.flush()
    }

    /// Makes room for `count` bytes: where there is none, what waits is written out.
    pub fn make_room<O: Sink>(&mut self, out: &mut O, count: usize) -> Result<(), Failed>
        requires { count ≤ PIECE_LEN }
        ensures room { OnOk result (length self.new + count ≤ PIECE_LEN) }
        ensures put { OnOk result
            (Puts (O.written out.old) self.old [] (O.written out.new) self.new) }
        ensures err { OnErr result (AppendsFront (O.written out.old) self.old (O.written out.new)) }
        ensures fault { OnErr result (Rose (O.faults out.old) (O.faults out.new)) }
        ensures faults_stay { O.faults out.old ≤ O.faults out.new }
    {
        if PIECE_LEN - self.len < count {
            self.write_out(out)?;
        }
        Ok(())
    }
}
