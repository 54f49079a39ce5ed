ghost use Rattle.std.specs.Prelude.{◌≡◌};
ghost use Rattle.grape_run.specs.Notes.{code_of};

use crate::input::InputFault;
use graph_text::{TextFault, Why};

/// How a run ended.
#[derive(Clone, Copy, Debug, PartialEq, Eq)]
pub enum Status {
    /// The whole answer was written and flushed.
    Done,
    /// The words ask for nothing that there is.
    BadWords,
    /// The first bad line of the input, by its number from 1, and why it is bad.
    BadInput { line: u64, why: Why },
    /// A read of the input failed.
    ReadFault,
    /// A write or the flush of the answer failed; a front of the answer may stand there.
    WriteFault,
    /// A call of the disk failed, before the run or in it.
    DiskFault,
    /// A fresh run that is to keep snapshots found a state file, of that many bytes.
    StateThere { length: u64 },
    /// The state file is of another input: the digest that it keeps, and that of this input.
    OtherJob { kept: [u8; 32], here: [u8; 32] },
    /// The state file is damaged at that place.
    BadState { place: u64 },
    /// Memory ran out before anything was written.
    NoMemory,
}

impl From<InputFault> for Status {
    ghost use Rattle.grape_run.specs.Runs.{status_of};

    ghost from_gives = { λ fault status. status ≡ status_of fault };

    fn from(fault: InputFault) -> Status {
        match fault {
            InputFault::Text(TextFault::Bad { line, why }) => Status::BadInput { line, why },
            InputFault::Text(TextFault::NoMemory) => Status::NoMemory,
            InputFault::Failed => Status::ReadFault,
        }
    }
}

/// The number with which a program of this status ends: 0 Done, 2 BadWords, 3 BadInput, 4 ReadFault, 5 WriteFault,
/// 6 DiskFault, 7 StateThere, 8 OtherJob, 9 BadState, 10 NoMemory.
pub fn code(status: &Status) -> u8
    ensures { result ≡ code_of status.now }
{
    match status {
        Status::Done => 0,
        Status::BadWords => 2,
        Status::BadInput { line: _, why: _ } => 3,
        Status::ReadFault => 4,
        Status::WriteFault => 5,
        Status::DiskFault => 6,
        Status::StateThere { length: _ } => 7,
        Status::OtherJob { kept: _, here: _ } => 8,
        Status::BadState { place: _ } => 9,
        Status::NoMemory => 10,
    }
}
