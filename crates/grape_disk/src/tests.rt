use crate::{Disk, Failed, FileDisk, MemDisk, Pick};
use std::alloc::{Allocator, Global};
use std::cell::Cell;
use std::fs::{self, Files, Metadata, OpenFile, OpenOptions};
use std::io::{self, ErrorKind, Read, Seek, SeekFrom, Write};
use std::test::Fail;

// The images of this moment are these: the stable bytes, what a read gives, and the mixed ones by
// 254 and by 71.
fn has_images(disk: &MemDisk, alloc: Global, want: [&[u8]; 4]) -> Result<bool, Fail> {
    let picks = [Pick::Synced, Pick::Read, Pick::Mixed(254), Pick::Mixed(71)];
    for (pick, image) in picks.iter().zip(want) {
        if disk.crash_image(alloc, *pick)?.as_slice() != image {
            return Ok(false);
        }
    }
    Ok(true)
}

fn all_of(image: &[u8]) -> [&[u8]; 4] {
    [image, image, image, image]
}

#[test]
fn images_after_writes_and_syncs(rt: HostRuntime) -> Result<(), Fail> {
    let alloc = rt.alloc();
    let mut disk = MemDisk::new(alloc, 8, b"abcd", Vec::new(alloc), None)?;
    assert!(rt; has_images(&disk, alloc, all_of(b"abcd"))?);
    assert_eq!(rt; disk.write_at(1, b"XY"), Ok(()));
    let over: [&[u8]; 4] = [b"abcd", b"aXYd", b"a\xff\x00d", b"aHId"];
    assert!(rt; has_images(&disk, alloc, over)?);
    assert_eq!(rt; disk.write_at(6, b"Z"), Ok(()));
    let past: [&[u8]; 4] = [b"abcd", b"aXYd\0\0Z", b"a\xff\x00d\x02\x03\x04", b"aHId"];
    assert!(rt; has_images(&disk, alloc, past)?);
    assert_eq!(rt; disk.sync(), Ok(()));
    assert!(rt; has_images(&disk, alloc, all_of(b"aXYd\0\0Z"))?);
    Ok(())
}

// The second and the third call fail, and the eighth and all after it.
#[test]
fn calls_fail_by_their_numbers(rt: HostRuntime) -> Result<(), Fail> {
    let alloc = rt.alloc();
    let fails = Vec::from_slice(alloc, &[2, 3])?;
    let mut disk = MemDisk::new(alloc, 4, b"abcd", fails, Some(8))?;
    assert_eq!(rt; disk.write_at(0, b"P"), Ok(()));
    assert_eq!(rt; disk.write_at(1, b"Q"), Err(Failed));
    assert_eq!(rt; disk.sync(), Err(Failed));
    let pending: [&[u8]; 4] = [b"abcd", b"PQcd", b"\xfe\xffcd", b"GHcd"];
    assert!(rt; has_images(&disk, alloc, pending)?);
    assert_eq!(rt; disk.sync(), Ok(()));
    assert_eq!(rt; disk.write_at(3, b"RS"), Err(Failed));
    assert!(rt; has_images(&disk, alloc, all_of(b"PQcd"))?);
    assert_eq!(rt; disk.len(), Ok(4));
    let mut two = [0; 2];
    assert_eq!(rt; disk.read_at(1, &mut two), Ok(()));
    assert_eq!(rt; two, *b"Qc");
    assert_eq!(rt; disk.calls(), 7);
    assert_eq!(rt; disk.len(), Err(Failed));
    assert_eq!(rt; disk.read_at(0, &mut two), Err(Failed));
    assert_eq!(rt; disk.write_at(2, b"T"), Err(Failed));
    assert_eq!(rt; disk.sync(), Err(Failed));
    let stopped: [&[u8]; 4] = [b"PQcd", b"PQTd", b"PQ\x00d", b"PQId"];
    assert!(rt; has_images(&disk, alloc, stopped)?);
    assert_eq!(rt; disk.calls(), 11);
    Ok(())
}

const FOLDER: &str = "grape_disk_test";

#[test]
fn a_file_of_the_system(rt: HostRuntime) -> Result<(), Fail> {
    let _ = fs::remove_dir_all(&rt, FOLDER);
    let path = String::from_str(rt.alloc(), "grape_disk_test/state")?;
    let mut disk = FileDisk::new(&rt, path);
    assert_eq!(rt; disk.len(), Err(Failed));
    fs::create_dir(&rt, FOLDER)?;
    assert_eq!(rt; disk.len(), Ok(0));
    assert_eq!(rt; disk.write_at(3, b"xyz"), Ok(()));
    assert_eq!(rt; disk.write_at(1, b"b"), Ok(()));
    assert_eq!(rt; disk.sync(), Ok(()));
    assert_eq!(rt; disk.len(), Ok(6));
    let mut four = [9; 4];
    assert_eq!(rt; disk.read_at(1, &mut four), Ok(()));
    assert_eq!(rt; four, *b"b\0xy");
    assert_eq!(rt; disk.read_at(3, &mut four), Err(Failed));
    assert_eq!(rt; disk.calls(), 8);
    drop(disk);
    assert_eq!(rt;
        fs::read(&rt, "grape_disk_test/state")?.as_slice(),
        b"\0b\0xyz".as_slice()
    );
    fs::remove_dir_all(&rt, FOLDER)?;
    Ok(())
}

// What was done, as digits: 1 the file is opened and 2 it is synced, 3 its folder is opened and 4 it
// is synced, 5 the file is read and 6 written. Descriptors are bits: a file has the lowest free one
// while it is open. The first syncs fail, as many as that.
#[derive(Drop)]
struct Notes {
    done: Cell<u64>,
    taken: Cell<u64>,
    state: Cell<u64>,
    failing: Cell<u64>,
}

impl Notes {
    fn new(failing: u64) -> Notes {
        Notes {
            done: Cell::new(0),
            taken: Cell::new(0),
            state: Cell::new(0),
            failing: Cell::new(failing),
        }
    }

    fn add(&self, digit: u64) {
        self.done
            .set(self.done.get().wrapping_mul(10).wrapping_add(digit));
    }

    fn take(&self) -> u64 {
        let taken = self.taken.get();
        let lowest = !taken & taken.wrapping_add(1);
        self.taken.set(taken | lowest);
        lowest
    }
}

struct NotedFile<'a> {
    notes: &'a Notes,
    descriptor: u64,
    sync: u64,
}

impl<'a> Drop for NotedFile<'a> {
    fn drop(self) {
        let NotedFile {
            notes,
            descriptor,
            sync: _sync,
        } = self;
        notes.taken.set(notes.taken.get() & !descriptor);
    }
}

#[derive(Drop)]
struct NotedFiles<'a> {
    notes: &'a Notes,
}

fn unsupported() -> io::Error {
    io::Error::from(ErrorKind::Unsupported)
}

impl<'a> Files for NotedFiles<'a> {
    type File = NotedFile<'a>;

    type Dir = io::Empty;

    fn open_file(&self, how: &OpenOptions, path: &str) -> io::Result<NotedFile<'a>> {
        let opened = if path == "states/a" && how.asks_create() && !how.asks_truncate() {
            1
        } else if path == "states" && !how.asks_write() {
            3
        } else {
            return Err(unsupported());
        };
        self.notes.add(opened);
        let descriptor = self.notes.take();
        if opened == 1 {
            self.notes.state.set(descriptor);
        }
        Ok(NotedFile {
            notes: self.notes,
            descriptor,
            sync: opened + 1,
        })
    }

    fn open_dir(&self, _path: &str) -> io::Result<io::Empty> {
        Err(unsupported())
    }

    fn metadata(&self, _path: &str) -> io::Result<Metadata> {
        Err(unsupported())
    }

    fn symlink_metadata(&self, _path: &str) -> io::Result<Metadata> {
        Err(unsupported())
    }

    fn copy(&self, _from: &str, _to: &str) -> io::Result<u64> {
        Err(unsupported())
    }

    fn rename(&self, _from: &str, _to: &str) -> io::Result<()> {
        Err(unsupported())
    }

    fn remove_file(&self, _path: &str) -> io::Result<()> {
        Err(unsupported())
    }

    fn create_dir(&self, _path: &str) -> io::Result<()> {
        Err(unsupported())
    }

    fn remove_dir(&self, _path: &str) -> io::Result<()> {
        Err(unsupported())
    }

    fn remove_dir_all<B: Allocator>(&self, _alloc: B, _path: &str) -> io::Result<()> {
        Err(unsupported())
    }
}

impl<'a> OpenFile for NotedFile<'a> {
    fn metadata(&self) -> io::Result<Metadata> {
        Err(unsupported())
    }

    fn set_len(&self, _size: u64) -> io::Result<()> {
        Err(unsupported())
    }

    fn sync_all(&self) -> io::Result<()> {
        self.notes.add(self.sync);
        let failing = self.notes.failing.get();
        if failing > 0 {
            self.notes.failing.set(failing - 1);
            return Err(unsupported());
        }
        Ok(())
    }

    fn sync_data(&self) -> io::Result<()> {
        Err(unsupported())
    }
}

impl<'a> Read for NotedFile<'a> {
    fn read(&mut self, _buf: &mut [u8]) -> io::Result<usize> {
        self.notes.add(5);
        Ok(0)
    }
}

impl<'a> Write for NotedFile<'a> {
    fn write(&mut self, _buf: &[u8]) -> io::Result<usize> {
        self.notes.add(6);
        Ok(0)
    }

    fn flush(&mut self) -> io::Result<()> {
        Ok(())
    }
}

impl<'a> Seek for NotedFile<'a> {
    fn seek(&mut self, _to: SeekFrom) -> io::Result<u64> {
        Ok(0)
    }
}

#[test]
fn a_file_is_synced_before_it_is_read(rt: HostRuntime) -> Result<(), Fail> {
    let notes = Notes::new(0);
    let files = NotedFiles { notes: &notes };
    let mut disk = FileDisk::new(&files, String::from_str(rt.alloc(), "states/a")?);
    assert_eq!(rt; notes.done.get(), 0);
    assert_eq!(rt; disk.read_at(0, &mut [0]), Err(Failed));
    assert_eq!(rt; notes.done.get(), 3331245);
    assert_eq!(rt; disk.write_at(0, b"x"), Err(Failed));
    assert_eq!(rt; disk.sync(), Ok(()));
    assert_eq!(rt; notes.done.get(), 333124562);
    // No descriptor was taken at the beginning, and this one is that after 0, 1 and 2.
    assert_eq!(rt; notes.state.get(), 8);
    assert_eq!(rt; notes.taken.get(), 8);
    Ok(())
}

#[test]
fn a_file_that_is_not_synced_is_not_believed(rt: HostRuntime) -> Result<(), Fail> {
    let notes = Notes::new(1);
    let files = NotedFiles { notes: &notes };
    let mut disk = FileDisk::new(&files, String::from_str(rt.alloc(), "states/a")?);
    assert_eq!(rt; disk.sync(), Err(Failed));
    assert_eq!(rt; notes.done.get(), 33312);
    assert_eq!(rt; notes.taken.get(), 0);
    assert_eq!(rt; disk.sync(), Ok(()));
    assert_eq!(rt; notes.done.get(), 333123331242);
    assert_eq!(rt; disk.calls(), 2);
    Ok(())
}
