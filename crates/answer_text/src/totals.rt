ghost use Rattle.std.specs.Prelude.{◌≡◌, ◌+◌, ◌≤◌, ◌++◌, length, OnOk, OnErr};
ghost use Rattle.grape_port.specs.Ports.{Rose, Appends, AppendsFront, IsAllFlushed};
ghost use Rattle.answer_text.specs.declared.answer.Kind.TheVariants.{Dist};
ghost use Rattle.answer_text.specs.Summary.{totals_of, summary_text};

use crate::answer::{Answer, AnswerRow};
use crate::piece::{PIECE_LEN, Piece};
use grape_port::{Failed, Sink};
use graph_core::FAR;

/// What the distances of an answer come to.
#[derive(Clone, Copy, Debug, PartialEq, Eq)]
pub struct Totals {
    /// How many rows there are, at most 1,000,000.
    pub count: u32,
    /// How many of them have a distance other than `FAR`.
    pub reached: u32,
    /// The sum of these distances.
    pub sum: u128,
    /// The greatest of them, and 0 where there are none.
    pub greatest: u64,
}

/// What the distances of an answer come to, in one pass over its rows, of which there are at most 1,000,000.
pub fn summary(answer: &Answer) -> Totals
    requires kind { answer.now.kind ≡ Dist }
    requires few { length answer.now.rows ≤ 1000000 }
    ensures { result ≡ totals_of answer.now.rows }
{
    totals_of_rows(&answer.rows)
}

fn totals_of_rows(rows: &[AnswerRow]) -> Totals
    requires { length rows.now ≤ 1000000 }
    ensures { result ≡ totals_of rows.now }
{
    let mut totals = Totals {
        count: rows.len() as u32,
        reached: 0,
        sum: 0,
        greatest: 0,
    };
    for row in rows {
        if row.value != FAR {
            totals.reached += 1;
            totals.sum += u128::from(row.value);
            totals.greatest = totals.greatest.max(row.value);
        }
    }
    totals
}

/// Writes the line of totals and flushes it: `summary dist`, and the count, how many are reached, the sum and the greatest,
/// each behind its word but the count. It takes no memory.
///
/// After `Failed`, which comes only where the sink counted a fault, a front of the line is written.
pub fn write_summary<O: Sink>(totals: &Totals, out: &mut O) -> Result<(), Failed>
    ensures written { OnOk result (Appends (O.written out.old) (summary_text totals.now) (O.written out.new)) }
    ensures flushed { OnOk result (IsAllFlushed (O.written out.new) (O.flushed out.new)) }
    ensures err { OnErr result (AppendsFront (O.written out.old) (summary_text totals.now) (O.written out.new)) }
    ensures fault { OnErr result (Rose (O.faults out.old) (O.faults out.new)) }
    ensures faults_stay { O.faults out.old ≤ O.faults out.new }
{
    let mut piece = Piece::new();
    push_totals(&mut piece, totals);
    piece.finish(out)
}

fn push_totals(piece: &mut Piece, totals: &Totals)
    requires { length piece.old + 256 ≤ PIECE_LEN }
    ensures { piece.new ≡ piece.old ++ summary_text totals.now }
{
    piece.push(b"summary dist ");
    piece.push_number(u64::from(totals.count));
    piece.push(b" reached ");
    piece.push_number(u64::from(totals.reached));
    piece.push(b" sum ");
    piece.push_wide_number(totals.sum);
    piece.push(b" greatest ");
    piece.push_number(totals.greatest);
    piece.push(b"\n");
}
