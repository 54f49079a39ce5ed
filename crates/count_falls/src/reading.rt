ghost use Rattle.std.specs.Prelude.{◌≡◌, IfOk};
ghost use Rattle.graph_core.specs.Graphs.{IsJob};

use crate::fault::Fault;
use grape_port::{NoMemory, Source};
use graph_core::Job;
use graph_text::LineReader;
use std::alloc::Global;

/// How many bytes are asked for at once.
const PIECE: usize = 65_536;

/// Reads the job that a source has, to its end. One that asks for snapshots is refused.
pub(crate) fn read_job<S: Source>(alloc: Global, input: &mut S) -> Result<Job, Fault>
    ensures job { IfOk result (λ job. IsJob job) }
    ensures unsealed { IfOk result (λ job. job.settings.snapshot ≡ 0) }
{
    let job = match read_whole(alloc, input) {
        Ok(job) => job,
        Err(fault) => return Err(fault),
    };
    if job.settings.snapshot == 0 {
        Ok(job)
    } else {
        Err(Fault::Snapshots)
    }
}

/// Reads the job that a source has, to its end.
fn read_whole<S: Source>(alloc: Global, input: &mut S) -> Result<Job, Fault>
    ensures { IfOk result (λ job. IsJob job) }
{
    let Ok(mut reader) = LineReader::new(alloc) else {
        return Err(Fault::NoMemory);
    };
    let Ok(mut buffer) = zeros(alloc, PIECE) else {
        return Err(Fault::NoMemory);
    };
    'pieces: for _ in 0..u64::MAX {
        match read_piece(input, buffer.as_mut_slice(), &mut reader) {
            Ok(true) => (),
            Ok(false) => break,
            Err(fault) => return Err(fault),
        }
    }
    match reader.finish() {
        Ok(job) => Ok(job),
        Err(fault) => Err(Fault::from(fault)),
    }
}

/// Hands the next piece to the reader, and says whether there was one.
fn read_piece<S: Source>(
    input: &mut S,
    piece: &mut [u8],
    reader: &mut LineReader,
) -> Result<bool, Fault> {
    let Ok(count) = input.read(piece) else {
        return Err(Fault::Unread);
    };
    if count == 0 {
        return Ok(false);
    }
    match reader.feed(&piece[..count]) {
        Ok(()) => Ok(true),
        Err(fault) => Err(Fault::from(fault)),
    }
}

fn zeros(alloc: Global, count: usize) -> Result<Vec<u8>, NoMemory> {
    vec![in alloc; 0u8; count].map_err(|_| NoMemory)
}
