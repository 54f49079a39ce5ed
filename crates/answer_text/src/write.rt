ghost use Rattle.std.specs.Prelude.{◌≡◌, ◌+◌, ◌<◌, ◌≤◌, [], ◌++◌, List, length, if◌then◌else◌, flat_map, codes, decimal, OnOk, OnErr};
ghost use Rattle.grape_port.specs.Ports.{Rose, Appends, AppendsFront, IsAllFlushed};
ghost use Rattle.answer_text.specs.AnswerText.{answer_text, head_text, kind_text, bits_of, numbers_text, value_text, row_text};
ghost use Rattle.answer_text.specs.Waiting.{Puts};

use crate::answer::{Answer, AnswerRow, Kind};
use crate::piece::{PIECE_LEN, Piece};
use grape_port::{Failed, Sink};
use graph_core::FAR;

// 64 numbers of at most two digits, each with a comma.
const LONGEST_VALUE: usize = 192;

// A value, and room for any number behind it.
const VALUE_ROOM: usize = 224;

// A number, a space, a value and the end of the line.
const ROW_ROOM: usize = 256;

/// Writes the answer as text and flushes it: a first line with its kind and its number of rows, a
/// line for each row, and a last line. It goes through a fixed piece of 4,096 bytes, and takes no
/// memory.
///
/// After `Failed`, which comes only where the sink counted a fault, a front of the text is written.
pub fn write_answer<O: Sink>(answer: &Answer, out: &mut O) -> Result<(), Failed>
    ensures written { OnOk result (Appends (O.written out.old)
        (answer_text answer.now.kind answer.now.rows) (O.written out.new)) }
    ensures flushed { OnOk result (IsAllFlushed (O.written out.new) (O.flushed out.new)) }
    ensures err { OnErr result (AppendsFront (O.written out.old)
        (answer_text answer.now.kind answer.now.rows) (O.written out.new)) }
    ensures fault { OnErr result (Rose (O.faults out.old) (O.faults out.new)) }
    ensures faults_stay { O.faults out.old ≤ O.faults out.new }
{
    write_rows(answer.kind, &answer.rows, out)
}

fn write_rows<O: Sink>(kind: Kind, rows: &[AnswerRow], out: &mut O) -> Result<(), Failed>
    ensures written { OnOk result
        (Appends (O.written out.old) (answer_text kind rows.now) (O.written out.new)) }
    ensures flushed { OnOk result (IsAllFlushed (O.written out.new) (O.flushed out.new)) }
    ensures err { OnErr result
        (AppendsFront (O.written out.old) (answer_text kind rows.now) (O.written out.new)) }
    ensures fault { OnErr result (Rose (O.faults out.old) (O.faults out.new)) }
    ensures faults_stay { O.faults out.old ≤ O.faults out.new }
{
    let mut piece = Piece::new();
    push_head(&mut piece, kind, rows.len());
    put_rows(&mut piece, out, kind, rows)?;
    put_end(&mut piece, out)
}

fn push_head(piece: &mut Piece, kind: Kind, count: usize)
    requires { length piece.old + 64 ≤ PIECE_LEN }
    ensures { piece.new ≡ piece.old ++ head_text kind count }
{
    piece.push(b"answer ");
    piece.push(kind_bytes(kind));
    piece.push(b" ");
    piece.push_number(count as u64);
    piece.push(b"\n");
}

fn kind_bytes(kind: Kind) -> &'static [u8]
    ensures text { result.now ≡ kind_text kind }
    ensures short { length result.now ≤ 5 }
{
    match kind {
        Kind::Dist => b"dist",
        Kind::Label => b"label",
        Kind::Reach => b"reach",
        Kind::Sim => b"sim",
    }
}

fn put_rows<O: Sink>(
    piece: &mut Piece,
    out: &mut O,
    kind: Kind,
    rows: &[AnswerRow],
) -> Result<(), Failed>
    ensures put { OnOk result (Puts (O.written out.old) piece.old
        (flat_map (row_text kind) rows.now) (O.written out.new) piece.new) }
    ensures err { OnErr result (AppendsFront (O.written out.old)
        (piece.old ++ flat_map (row_text kind) rows.now) (O.written out.new)) }
    ensures fault { OnErr result (Rose (O.faults out.old) (O.faults out.new)) }
    ensures faults_stay { O.faults out.old ≤ O.faults out.new }
{
    for row in rows {
        piece.make_room(out, ROW_ROOM)?;
        push_row(piece, kind, row);
    }
    Ok(())
}

fn put_end<O: Sink>(piece: &mut Piece, out: &mut O) -> Result<(), Failed>
    ensures appended { OnOk result (Appends (O.written out.old)
        (piece.old ++ codes "end\n") (O.written out.new)) }
    ensures flushed { OnOk result (IsAllFlushed (O.written out.new) (O.flushed out.new)) }
    ensures err { OnErr result (AppendsFront (O.written out.old)
        (piece.old ++ codes "end\n") (O.written out.new)) }
    ensures fault { OnErr result (Rose (O.faults out.old) (O.faults out.new)) }
    ensures faults_stay { O.faults out.old ≤ O.faults out.new }
{
    piece.make_room(out, 4)?;
    piece.push(b"end\n");
    piece.finish(out)
}

fn push_row(piece: &mut Piece, kind: Kind, row: &AnswerRow)
    requires { length piece.old + ROW_ROOM ≤ PIECE_LEN }
    ensures { piece.new ≡ piece.old ++ row_text kind row.now }
{
    piece.push_number(u64::from(row.id));
    piece.push(b" ");
    push_value(piece, kind, row.value);
    piece.push(b"\n");
}

fn push_value(piece: &mut Piece, kind: Kind, value: u64)
    requires { length piece.old + VALUE_ROOM ≤ PIECE_LEN }
    ensures text { piece.new ≡ piece.old ++ value_text kind value }
    ensures short { length piece.new ≤ length piece.old + LONGEST_VALUE }
{
    match kind {
        Kind::Dist if value == FAR => piece.push(b"far"),
        Kind::Dist | Kind::Label => piece.push_number(value),
        Kind::Reach if value == 0 => piece.push(b"yes"),
        Kind::Reach => piece.push(b"no"),
        Kind::Sim => push_bits(piece, value),
    }
}

fn push_bits(piece: &mut Piece, mask: u64)
    requires { length piece.old + VALUE_ROOM ≤ PIECE_LEN }
    ensures text { piece.new ≡ piece.old ++ numbers_text (bits_of mask) }
    ensures short { length piece.new ≤ length piece.old + LONGEST_VALUE }
{
    let mut none = true;
    'bits: for bit in 0..64u64 {
        if (mask >> bit) % 2 == 1 {
            push_bit(piece, bit, none);
            none = false;
        }
    }
    if none {
        piece.push(b"-");
    }
}

fn push_bit(piece: &mut Piece, bit: u64, first: bool)
    requires room { length piece.old + 21 ≤ PIECE_LEN }
    requires in_mask { bit < 64 }
    ensures text { piece.new ≡ piece.old ++ (if first then [] else codes ",") ++ decimal bit }
    ensures short { length piece.new ≤ length piece.old + 3 }
{
    if !first {
        piece.push(b",");
    }
    piece.push_number(bit);
}
