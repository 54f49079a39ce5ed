use std::fs::{File, Files, OpenFile};
use std::io::{self, ErrorKind, Read, Seek, SeekFrom, Write};
use std::path::Path;

/// A file of the system that the first call opens, and makes where it is missing.
#[derive(Drop)]
pub(crate) struct LateFile<R: Files> {
    rt: R,
    path: String,
    file: Option<R::File>,
}

impl<R: Files + Drop> LateFile<R> {
    pub(crate) fn new(rt: R, path: String) -> LateFile<R> {
        LateFile {
            rt,
            path,
            file: None,
        }
    }

    pub(crate) fn len(&mut self) -> io::Result<u64> {
        Ok(self.ready()?.metadata()?.len())
    }

    pub(crate) fn read_at(&mut self, at: u64, to: &mut [u8]) -> io::Result<()> {
        let file = self.ready()?;
        file.seek(SeekFrom::Start(at))?;
        file.read_exact(to)
    }

    pub(crate) fn write_at(&mut self, at: u64, from: &[u8]) -> io::Result<()> {
        let file = self.ready()?;
        file.seek(SeekFrom::Start(at))?;
        file.write_all(from)
    }

    /// Waits until the device has the file's bytes and its length.
    pub(crate) fn sync(&mut self) -> io::Result<()> {
        self.ready()?.sync_all()
    }

    fn ready(&mut self) -> io::Result<&mut R::File> {
        if self.file.is_none() {
            self.file = Some(open(&self.rt, &self.path)?);
        }
        match &mut self.file {
            Some(file) => Ok(file),
            None => Err(io::Error::from(ErrorKind::NotFound)),
        }
    }
}

// The file's own sync comes before anything is read of it: what another process wrote may stand in
// the system's cache alone, and a crash would take back what was believed. The entry of a new file
// is on the device only once its folder is.
//
// The system gives a file the lowest descriptor that is free. While the folder is open three times,
// none of 0, 1 and 2 is, so a process that was started without its standard streams never writes
// an answer or a note into this file.
fn open<R: Files>(rt: &R, path: &str) -> io::Result<R::File> {
    let place = match Path::new(path).parent() {
        Some(place) if !place.as_str().is_empty() => place,
        _ => Path::new("."),
    };
    let folder = File::open(rt, place)?;
    let second = File::open(rt, place)?;
    let third = File::open(rt, place)?;
    let file = File::options()
        .read(true)
        .write(true)
        .create(true)
        .open(rt, path)?;
    drop(second);
    drop(third);
    file.sync_all()?;
    folder.sync_all()?;
    Ok(file)
}
