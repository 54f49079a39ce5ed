use crate::{LineReader, TextFault, Why};
use graph_core::Job;
use std::alloc::Global;
use std::process::Abort;

mod jobs;
mod lines;
mod patterns;
mod policies;
mod refused;
mod refused_settings;

/// Feeds a text in pieces of this size.
fn feed(reader: &mut LineReader, text: &[u8], size: usize) -> Result<(), TextFault> {
    for piece in text.chunks(size.max(1)) {
        reader.feed(piece)?;
    }
    Ok(())
}

/// What a text is read as that comes in pieces of this size.
fn read(alloc: Global, text: &[u8], size: usize) -> Result<Job, TextFault> {
    let mut reader = LineReader::new(alloc)?;
    feed(&mut reader, text, size)?;
    reader.finish()
}

/// What a text is read as that is cut once, at this place.
fn read_cut(alloc: Global, text: &[u8], place: usize) -> Result<Job, TextFault> {
    let mut reader = LineReader::new(alloc)?;
    let (front, rest) = text.split_at(place.min(text.len()));
    reader.feed(front)?;
    reader.feed(rest)?;
    reader.finish()
}

/// Checks that each text of a table is refused at its line for its cause, however it is cut.
fn check_refused(rt: &impl Abort, alloc: Global, table: &[(&'static [u8], u64, Why)]) {
    for (text, line, why) in table {
        let want = Some(TextFault::Bad {
            line: *line,
            why: *why,
        });
        for size in [1, 3, 64] {
            let fault = read(alloc, text, size).err();
            assert_eq!(rt; fault, want, "of {text:?} in pieces of {size}");
        }
        for place in 0..text.len() {
            let fault = read_cut(alloc, text, place).err();
            assert_eq!(rt; fault, want, "of {text:?} cut at {place}");
        }
    }
}
