//! A command, from its words to its status: `grape`.
//!
//! It reads its words, then its input from a source, begins or opens the state file, lets the coordinator run the job on
//! the fragments of the graph by as many lanes as the input says, and writes the answer to a sink and a line on what
//! went wrong to another. Proved of `grape` for every source, sink and disk, if it returns: each status says what was
//! read, which fault was counted, what was refused of the state file and what was written; the bytes of `Done` are the
//! answer of the job that the input is, whose story ended by a probe; and a crash at any moment leaves a state file that
//! opens as the last snapshot that was kept or as a later one, or before any was kept as when the call began. Where no
//! port and no disk fails, an input is answered unless the state file is refused, and any other text is refused by its
//! first bad line, or memory ran out.
#![tactic(auto)]

mod answers;
mod beginning;
mod demo;
mod entering;
mod finish;
mod input;
#[cfg(test)]
mod lane_tests;
mod laws;
mod notes;
mod run;
mod running;
mod status;
#[cfg(test)]
mod tests;

pub use beginning::Beginning;
pub use command_words::{Mode, WordFault, Words, read_words};
pub use finish::Finish;
pub use input::{InputFault, JobText, read_job};
pub use laws::files_stay_resumable;
pub use run::grape;
pub use status::{Status, code};
