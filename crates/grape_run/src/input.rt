ghost use Rattle.std.specs.Prelude.{◌≡◌, ◌≤◌, Err, IfOk, vec_len};
ghost use Rattle.grape_port.specs.Ports.{Rose};
ghost use Rattle.graph_core.specs.Graphs.{IsJob};
ghost use Rattle.grape_run.specs.Runs.{ReadsInput};

use grape_port::{Failed, NoMemory, Source};
use graph_core::Job;
use graph_text::{LineReader, TextFault};
use sha2::{Digest, Sha256};
use std::alloc::Global;

/// A job, and the digest of the input that it was read from: the SHA-256 of its bytes (FIPS 180-4).
#[derive(Drop)]
pub struct JobText {
    pub job: Job,
    pub digest: [u8; 32],
}

/// Why no job was read.
#[derive(Clone, Copy, Debug, PartialEq, Eq)]
pub enum InputFault {
    /// The input is none, or memory ran out.
    Text(TextFault),
    /// A read failed.
    Failed,
}

/// How many bytes are asked for at once.
const PIECE: usize = 65_536;

/// The most bytes that an input has.
const MAX_BYTES: u64 = 268_435_456;

/// Reads the job that a source has, in pieces of 65,536 bytes, to the end or to the first fault. Each piece is handed to
/// the digest and to the reader, and no byte of the input is kept.
///
/// A bad line is the first one, as soon as what was read shows it, or at the end of the input. `Failed` comes only
/// where a read failed before a bad line was shown.
pub fn read_job<S: Source>(alloc: Global, input: &mut S) -> Result<JobText, InputFault>
    ensures read { ReadsInput (S.left input.old) (S.left input.new) result }
    ensures job { IfOk result (λ text. IsJob text.job) }
    ensures fault { result ≡ Err InputFault.Failed → Rose (S.faults input.old) (S.faults input.new) }
    ensures faults_stay { S.faults input.old ≤ S.faults input.new }
{
    let Ok(mut reader) = LineReader::new(alloc) else {
        return Err(InputFault::Text(TextFault::NoMemory));
    };
    let Ok(mut buffer) = zeros(alloc, PIECE) else {
        return Err(InputFault::Text(TextFault::NoMemory));
    };
    let mut hasher = Sha256::new();
    let piece = buffer.as_mut_slice();
    for turn in 0..=MAX_BYTES {
        let Ok(count) = input.read(piece) else {
            return Err(InputFault::Failed);
        };
        if count == 0 {
            let job = match reader.finish() {
                Ok(job) => job,
                Err(fault) => return Err(InputFault::Text(fault)),
            };
            let digest = hasher.finalize();
            return Ok(JobText { job, digest });
        }
        hasher.update(&piece[..count]);
        if let Err(fault) = reader.feed(&piece[..count]) {
            return Err(InputFault::Text(fault));
        }
    }
    unreachable!()
}

fn zeros(alloc: Global, count: usize) -> Result<Vec<u8>, NoMemory>
    ensures { IfOk result (λ bytes. vec_len bytes ≡ count) }
{
    vec![in alloc; 0u8; count].map_err(|_| NoMemory)
}
