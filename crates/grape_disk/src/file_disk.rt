ghost use Rattle.std.specs.Prelude.{◌≡◌, ◌-◌, ◌^◌, ◌<◌, ◌≤◌, is_ok, if◌then◌else◌, IsErr};
ghost use Rattle.grape_port.specs.Ports.{Rose, one_more};
ghost use Rattle.grape_disk.specs.Images.{Counts};
ghost use Rattle.grape_disk.specs.FileDisks.{content_of, images_of, calls_of, faults_of, never};

use crate::disk::Disk;
use crate::late_file::LateFile;
use grape_port::Failed;
use std::fs::Files;
use std::io;
use std::marker::Model;

/// A file of the system as a disk. Each `Err` of the system is a fault, also where it only
/// interrupted the call.
///
/// The first call opens the file, and makes it where it is missing; where that fails, the next call
/// tries it again. Opening syncs the file and its folder, so that what is read is on the device
/// before it is believed, and the entry of a new file before anything is written. `sync` is the
/// `sync_all` of the system's file, which waits until the device has its bytes and its length. The
/// file never has one of the descriptors of the standard streams, 0, 1 and 2.
///
/// It tells nothing of what the file holds, nor of what a crash leaves: those are the system's.
/// Where a sync failed, Linux may drop what it could not write and go on as if it had: such a file
/// isn't to be trusted before the system was started anew.
#[derive(Drop)]
pub struct FileDisk<R: Files> {
    file: LateFile<R>,
    calls: u64,
    faults: u64,
}

impl<R: Files> Model for FileDisk<R> {
    ghost use Rattle.grape_disk.specs.FileDisks.{FileDiskState};

    ghost Value = { FileDiskState };

    ghost view = { λ d. record { calls = d.calls; faults = d.faults } };
}

impl<R: Files + Drop> FileDisk<R> {
    /// The file at this path. It isn't opened yet.
    pub fn new(rt: R, path: String) -> FileDisk<R>
        ensures { result ≡ record { calls = 0; faults = 0 } }
    {
        FileDisk {
            file: LateFile::new(rt, path),
            calls: 0,
            faults: 0,
        }
    }

    // Counts a call by its outcome.
    fn count<T: Drop>(&mut self, outcome: io::Result<T>) -> Result<T, Failed>
        requires { self.old.calls < 2 ^ 64 - 1 }
        ensures outcome { is_ok result ≡ is_ok outcome }
        ensures counted { self.new.faults
            ≡ (if is_ok result then self.old.faults else one_more self.old.faults) }
        ensures counts { Counts calls_of faults_of never result self.old self.new }
    {
        self.calls = self.calls.saturating_add(1);
        match outcome {
            Ok(value) => Ok(value),
            Err(_) => self.fail(),
        }
    }

    // Counts a fault.
    fn fail<T>(&mut self) -> Result<T, Failed>
        ensures err { IsErr result }
        ensures calls { self.new.calls ≡ self.old.calls }
        ensures faults { self.new.faults ≡ one_more self.old.faults }
        ensures rose { Rose self.old.faults self.new.faults }
        ensures faults_stay { self.old.faults ≤ self.new.faults }
    {
        self.faults = self.faults.saturating_add(1);
        Err(Failed)
    }
}

impl<R: Files + Drop> Disk for FileDisk<R> {
    ghost content = { content_of };

    ghost images = { images_of };

    ghost moment = { calls_of };

    ghost honest = { never };

    ghost faults = { faults_of };

    fn calls(&self) -> u64 {
        self.calls
    }

    fn len(&mut self) -> Result<u64, Failed>
        ensures counted { self.new.faults
            ≡ (if is_ok result then self.old.faults else one_more self.old.faults) }
        ensures counts { Counts calls_of faults_of never result self.old self.new }
    {
        if self.calls == u64::MAX {
            return self.fail();
        }
        let outcome = self.file.len();
        self.count(outcome)
    }

    fn read_at(&mut self, at: u64, to: &mut [u8]) -> Result<(), Failed>
        ensures counted { self.new.faults
            ≡ (if is_ok result then self.old.faults else one_more self.old.faults) }
        ensures counts { Counts calls_of faults_of never result self.old self.new }
    {
        if self.calls == u64::MAX {
            return self.fail();
        }
        let outcome = self.file.read_at(at, to);
        self.count(outcome)
    }

    fn write_at(&mut self, at: u64, from: &[u8]) -> Result<(), Failed>
        ensures counted { self.new.faults
            ≡ (if is_ok result then self.old.faults else one_more self.old.faults) }
        ensures counts { Counts calls_of faults_of never result self.old self.new }
    {
        if self.calls == u64::MAX {
            return self.fail();
        }
        let outcome = self.file.write_at(at, from);
        self.count(outcome)
    }

    fn sync(&mut self) -> Result<(), Failed>
        ensures counted { self.new.faults
            ≡ (if is_ok result then self.old.faults else one_more self.old.faults) }
        ensures counts { Counts calls_of faults_of never result self.old self.new }
    {
        if self.calls == u64::MAX {
            return self.fail();
        }
        let outcome = self.file.sync();
        self.count(outcome)
    }

    ghost reads_an_image = { λ d file honest told. tt };

    ghost since_earlier = { λ d earlier later c le image. tt };
}
