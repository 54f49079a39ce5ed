ghost use Rattle.std.specs.Prelude.{◌≡◌, ◌<◌, ◌≤◌, ◌++◌, OnOk, OnErr};
ghost use Rattle.grape_port.specs.Ports.{Rose, Appends, AppendsFront};
ghost use Rattle.grape_run.specs.Notes.{note_text, why_text, bad_line_text, state_there_text, other_job_text, bad_state_text, hex, hex_digit};
ghost use Rattle.grape_run.specs.Runs.{AppendsUnlessFault};

use crate::status::Status;
use grape_port::{Failed, Sink, write_all};
use graph_text::Why;
use itoa::Buffer;

/// Writes the line of a status, and flushes it. `Done` has no line. A failing sink gets a front of
/// the line, and changes nothing else.
pub(crate) fn write_note<N: Sink>(note: &mut N, status: &Status)
    ensures note { AppendsUnlessFault (N.written note.old) (note_text status.now) (N.written note.new) (N.faults note.old) (N.faults note.new) }
    ensures faults_stay { N.faults note.old ≤ N.faults note.new }
{
    if matches!(status, Status::Done) {
        return;
    }
    if write_line(note, status).is_ok() {
        let _ = note.flush();
    }
}

fn write_line<N: Sink>(note: &mut N, status: &Status) -> Result<(), Failed>
    ensures appended { OnOk result (Appends (N.written note.old) (note_text status.now) (N.written note.new)) }
    ensures err { OnErr result (AppendsFront (N.written note.old) (note_text status.now) (N.written note.new)) }
    ensures fault { OnErr result (Rose (N.faults note.old) (N.faults note.new)) }
    ensures faults_stay { N.faults note.old ≤ N.faults note.new }
{
    match status {
        Status::Done => Ok(()),
        Status::BadWords => write_all(
            note,
            b"grape: usage: run, resume, or demo VERTICES NUMBER\n",
        ),
        Status::BadInput { line, why } => write_bad_line(note, *line, *why),
        Status::ReadFault => write_all(note, b"grape: read fault\n"),
        Status::WriteFault => write_all(note, b"grape: write fault\n"),
        Status::DiskFault => write_all(note, b"grape: disk fault\n"),
        Status::StateThere { length } => write_state_there(note, *length),
        Status::OtherJob { kept, here } => write_other_job(note, kept, here),
        Status::BadState { place } => write_bad_state(note, *place),
        Status::NoMemory => write_all(note, b"grape: out of memory\n"),
    }
}

fn write_bad_line<N: Sink>(note: &mut N, line: u64, why: Why) -> Result<(), Failed>
    ensures appended { OnOk result (Appends (N.written note.old) (bad_line_text line why) (N.written note.new)) }
    ensures err { OnErr result (AppendsFront (N.written note.old) (bad_line_text line why) (N.written note.new)) }
    ensures fault { OnErr result (Rose (N.faults note.old) (N.faults note.new)) }
    ensures faults_stay { N.faults note.old ≤ N.faults note.new }
{
    let mut number = Buffer::new();
    write_all(note, b"grape: input line ")?;
    write_all(note, number.format(line).as_bytes())?;
    write_all(note, b": ")?;
    write_all(note, word_of(why))?;
    write_all(note, b"\n")
}

fn word_of(why: Why) -> &'static [u8]
    ensures { result.now ≡ why_text why }
{
    match why {
        Why::Word => b"word",
        Why::Number => b"number",
        Why::Count => b"count",
        Why::Range => b"range",
        Why::Twice => b"twice",
        Why::TooMany => b"too-many",
        Why::NoQuery => b"no-query",
        Why::NoSource => b"no-source",
        Why::NoPattern => b"no-pattern",
        Why::TooLong => b"too-long",
    }
}

fn write_state_there<N: Sink>(note: &mut N, size: u64) -> Result<(), Failed>
    ensures appended { OnOk result (Appends (N.written note.old) (state_there_text size) (N.written note.new)) }
    ensures err { OnErr result (AppendsFront (N.written note.old) (state_there_text size) (N.written note.new)) }
    ensures fault { OnErr result (Rose (N.faults note.old) (N.faults note.new)) }
    ensures faults_stay { N.faults note.old ≤ N.faults note.new }
{
    let mut number = Buffer::new();
    write_three(
        note,
        b"grape: state file has ",
        number.format(size).as_bytes(),
        b" bytes\n",
    )
}

fn write_bad_state<N: Sink>(note: &mut N, place: u64) -> Result<(), Failed>
    ensures appended { OnOk result (Appends (N.written note.old) (bad_state_text place) (N.written note.new)) }
    ensures err { OnErr result (AppendsFront (N.written note.old) (bad_state_text place) (N.written note.new)) }
    ensures fault { OnErr result (Rose (N.faults note.old) (N.faults note.new)) }
    ensures faults_stay { N.faults note.old ≤ N.faults note.new }
{
    let mut number = Buffer::new();
    write_three(
        note,
        b"grape: state damaged at ",
        number.format(place).as_bytes(),
        b"\n",
    )
}

fn write_other_job<N: Sink>(note: &mut N, kept: &[u8; 32], here: &[u8; 32]) -> Result<(), Failed>
    ensures appended { OnOk result (Appends (N.written note.old) (other_job_text kept.now here.now) (N.written note.new)) }
    ensures err { OnErr result (AppendsFront (N.written note.old) (other_job_text kept.now here.now) (N.written note.new)) }
    ensures fault { OnErr result (Rose (N.faults note.old) (N.faults note.new)) }
    ensures faults_stay { N.faults note.old ≤ N.faults note.new }
{
    let kept = hex_of(kept);
    let here = hex_of(here);
    write_three(note, b"grape: state of another job: ", &kept, b" not ")?;
    write_two(note, &here, b"\n")
}

/// Writes three parts of a line.
fn write_three<N: Sink>(
    note: &mut N,
    first: &[u8],
    second: &[u8],
    third: &[u8],
) -> Result<(), Failed>
    ensures appended { OnOk result (Appends (N.written note.old) (first.now ++ second.now ++ third.now) (N.written note.new)) }
    ensures err { OnErr result (AppendsFront (N.written note.old) (first.now ++ second.now ++ third.now) (N.written note.new)) }
    ensures fault { OnErr result (Rose (N.faults note.old) (N.faults note.new)) }
    ensures faults_stay { N.faults note.old ≤ N.faults note.new }
{
    write_two(note, first, second)?;
    write_all(note, third)
}

fn write_two<N: Sink>(note: &mut N, first: &[u8], second: &[u8]) -> Result<(), Failed>
    ensures appended { OnOk result (Appends (N.written note.old) (first.now ++ second.now) (N.written note.new)) }
    ensures err { OnErr result (AppendsFront (N.written note.old) (first.now ++ second.now) (N.written note.new)) }
    ensures fault { OnErr result (Rose (N.faults note.old) (N.faults note.new)) }
    ensures faults_stay { N.faults note.old ≤ N.faults note.new }
{
    write_all(note, first)?;
    write_all(note, second)
}

/// The digits of a digest.
fn hex_of(digest: &[u8; 32]) -> [u8; 64]
    ensures { result ≡ hex digest.now }
{
    let mut digits = [0; 64];
    'digits: for place in 0..32 {
        digits[2 * place] = digit_of(digest[place] / 16);
        digits[2 * place + 1] = digit_of(digest[place] % 16);
    }
    digits
}

fn digit_of(number: u8) -> u8
    requires { number < 16 }
    ensures { result ≡ hex_digit number }
{
    if number < 10 {
        b'0' + number
    } else {
        b'a' - 10 + number
    }
}
