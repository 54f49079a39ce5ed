ghost use Rattle.std.specs.Prelude.{◌≡◌, ◌<◌, length, IfOk, OnOk};
ghost use Rattle.snapshot_file.specs.Examples.{six_vertices};
ghost use Rattle.snapshot_store.specs.Rows.{one_vertex, kept};

use crate::{Opened, Store, StoreFault};
use grape_disk::{Disk, MemDisk, Pick};
use grape_port::NoMemory;
use std::alloc::Global;
use std::test::Fail;
use token_cut::{Part, Phase, Shape, ShapePart, Snapshot};
use value_order::Order;

// any 32 bytes in the place of an input's digest
const DIGEST: [u8; 32] = [0xA5; 32];

fn starts(alloc: Global, owned: &[u64], mirrors: &[u64]) -> Result<ShapePart, NoMemory>
    ensures { IfOk result (λ part. part ≡ record { owned = owned.now; mirrors = mirrors.now }) }
{
    let owned = Vec::from_slice(alloc, owned)?;
    let mirrors = Vec::from_slice(alloc, mirrors)?;
    Ok(ShapePart { owned, mirrors })
}

// One vertex, which starts with 0.
fn one_vertex(alloc: Global) -> Result<Shape, NoMemory>
    ensures { IfOk result (λ shape. shape ≡ one_vertex) }
{
    let mut parts = Vec::new(alloc);
    parts.push(starts(alloc, &[0], &[])?)?;
    Ok(Shape {
        order: Order::Least,
        parts,
    })
}

// Six vertices in three parts, each of which starts with its own number.
fn six_vertices(alloc: Global) -> Result<Shape, NoMemory>
    ensures { IfOk result (λ shape. shape ≡ six_vertices) }
{
    let mut parts = Vec::new(alloc);
    parts.push(starts(alloc, &[1, 2], &[3, 6])?)?;
    parts.push(starts(alloc, &[3, 4], &[2])?)?;
    parts.push(starts(alloc, &[5, 6], &[1])?)?;
    Ok(Shape {
        order: Order::Least,
        parts,
    })
}

fn snapshot_of(alloc: Global, epoch: u64) -> Result<Snapshot, NoMemory>
    ensures { IfOk result (λ snapshot. snapshot ≡ kept epoch) }
{
    let values = Vec::from_slice(alloc, &[0])?;
    let mail = Vec::new(alloc);
    let mut parts = Vec::new(alloc);
    parts.push(Part {
        phase: Phase::Rest,
        values,
        mail,
    })?;
    Ok(Snapshot { epoch, parts })
}

// What a creation answers on a disk with these bytes, and the disk. A file of less than 64 bytes stands for nothing.
fn created(
    alloc: Global,
    bytes: &[u8],
    fails: Vec<u64>,
    stop: Option<u64>,
) -> Result<(MemDisk, Result<Store, StoreFault>), NoMemory>
    requires { length bytes.now < 64 }
{
    let shape = one_vertex(alloc)?;
    let mut disk = MemDisk::new(alloc, 128, bytes, fails, stop)?;
    let store = Store::create(alloc, &mut disk, &shape, &DIGEST);
    Ok((disk, store))
}

fn put_next(alloc: Global, store: &mut Store, disk: &mut MemDisk) -> Result<(), StoreFault> {
    let shape = one_vertex(alloc)?;
    let last = store.last();
    if last > 1000 {
        return Ok(());
    }
    let snapshot = snapshot_of(alloc, last + 1)?;
    store.put(disk, &shape, &snapshot)
}

// What an open answers, by the epoch of the snapshot.
#[derive(Clone, Copy, Debug, PartialEq, Eq)]
enum Answer {
    Nothing,
    Last(u64),
    Fault(StoreFault),
}

fn answer_of(opened: Result<Opened, StoreFault>) -> Answer {
    match opened {
        Ok(Opened::Nothing) => Answer::Nothing,
        Ok(Opened::Last(store, snapshot)) if store.last() == snapshot.epoch => {
            Answer::Last(snapshot.epoch)
        }
        Ok(Opened::Last(..)) => Answer::Fault(StoreFault::NoMemory),
        Err(fault) => Answer::Fault(fault),
    }
}

fn open_bytes(alloc: Global, bytes: &[u8], digest: &[u8; 32]) -> Result<Answer, NoMemory> {
    let shape = one_vertex(alloc)?;
    let mut disk = MemDisk::new(alloc, bytes.len(), bytes, Vec::new(alloc), None)?;
    Ok(answer_of(Store::open(alloc, &mut disk, &shape, digest)))
}

fn open_six(alloc: Global, bytes: &[u8]) -> Result<Answer, NoMemory> {
    let shape = six_vertices(alloc)?;
    let mut disk = MemDisk::new(alloc, bytes.len(), bytes, Vec::new(alloc), None)?;
    Ok(answer_of(Store::open(alloc, &mut disk, &shape, &DIGEST)))
}

// What stands at a place of an image: the byte on the disk, the one that is read, any byte where it is pending, an open gate
// where it is pending, or the first two in turn.
#[derive(Clone, Copy, Debug, PartialEq, Eq)]
enum Choice {
    Old,
    New,
    Any,
    Open,
    InTurn,
}

// The bytes on the disk, those that are read, and two more images, which differ where a byte is pending.
#[derive(Drop)]
struct Images {
    old: Vec<u8>,
    new: Vec<u8>,
    any: Vec<u8>,
    other: Vec<u8>,
}

impl Images {
    fn new(alloc: Global, disk: &MemDisk) -> Result<Images, NoMemory> {
        Ok(Images {
            old: disk.crash_image(alloc, Pick::Synced)?,
            new: disk.crash_image(alloc, Pick::Read)?,
            any: disk.crash_image(alloc, Pick::Mixed(0))?,
            other: disk.crash_image(alloc, Pick::Mixed(2))?,
        })
    }

    fn byte(&self, place: usize, choice: Choice) -> u8 {
        let any = byte_at(&self.any, place);
        let old = self.old.get(place).copied().unwrap_or(any);
        let new = byte_at(&self.new, place);
        match choice {
            Choice::Old => old,
            Choice::New => new,
            Choice::Any => any,
            Choice::Open if any != byte_at(&self.other, place) => 0x47,
            Choice::Open => any,
            Choice::InTurn if place % 2 == 0 => old,
            Choice::InTurn => new,
        }
    }

    // An image of that length, with one choice at the three gates and one elsewhere.
    fn mixed(
        &self,
        alloc: Global,
        len: usize,
        gate: Choice,
        rest: Choice,
    ) -> Result<Vec<u8>, NoMemory> {
        let mut image = Vec::new(alloc);
        for place in 0..len {
            let is_gate = place == 0 || place == 64 || place == 82;
            image.push(self.byte(place, if is_gate { gate } else { rest }))?;
        }
        Ok(image)
    }
}

fn byte_at(bytes: &[u8], place: usize) -> u8 {
    bytes.get(place).copied().unwrap_or(0)
}

// A file gate, the name, the digest, the slot length and zeros.
fn header(alloc: Global, slot_length: u8) -> Result<Vec<u8>, NoMemory> {
    let mut bytes = Vec::from_slice(alloc, b"GRAPEST1")?;
    bytes.extend_from_slice(&DIGEST)?;
    bytes.extend_from_slice(&[0, 0, 0, 0, 0, 0, 0])?;
    bytes.push(slot_length)?;
    bytes.extend_from_slice(&[0; 16])?;
    Ok(bytes)
}

fn slot(epoch: u8) -> [u8; 18] {
    let gate = if epoch == 0 { 0 } else { 0x47 };
    let phase = if epoch == 0 { 0 } else { 1 };
    [
        gate, 0, 0, 0, 0, 0, 0, 0, epoch, phase, 0, 0, 0, 0, 0, 0, 0, 0,
    ]
}

fn file_of(alloc: Global, zero: u8, one: u8) -> Result<Vec<u8>, NoMemory> {
    let mut bytes = header(alloc, 18)?;
    bytes.extend_from_slice(&slot(zero))?;
    bytes.extend_from_slice(&slot(one))?;
    Ok(bytes)
}

fn front(bytes: &[u8], len: usize) -> &[u8] {
    bytes.get(..len).unwrap_or(bytes)
}

#[test]
fn a_creation_and_puts_leave_these_bytes(rt: HostRuntime) -> Result<(), Fail> {
    let alloc = rt.alloc();
    let (mut disk, store) = created(alloc, &[], Vec::new(alloc), None)?;
    assert!(rt; store.is_ok());
    if let Ok(mut store) = store {
        let slots = [(0, 0), (0, 1), (2, 1), (2, 3)];
        for i in 0..4 {
            let (zero, one) = slots[i];
            let file = file_of(alloc, zero, one)?;
            assert_eq!(rt; file.len(), 100);
            assert_eq!(rt; store.last(), i as u64);
            for pick in [Pick::Synced, Pick::Read, Pick::Mixed(0), Pick::Mixed(71)] {
                assert_eq!(rt; disk.crash_image(alloc, pick)?.as_slice(), file.as_slice());
            }
            assert_eq!(rt; put_next(alloc, &mut store, &mut disk), Ok(()));
        }
    }
    Ok(())
}

#[test]
fn files_open_as_they_stand(rt: HostRuntime) -> Result<(), Fail> {
    let alloc = rt.alloc();
    let file = file_of(alloc, 0, 1)?;
    assert_eq!(rt; open_bytes(alloc, &file, &DIGEST)?, Answer::Last(1));
    assert_eq!(rt; open_bytes(alloc, &[], &DIGEST)?, Answer::Nothing);
    assert_eq!(rt;
        open_bytes(alloc, front(&file, 10), &DIGEST)?,
        Answer::Nothing
    );
    assert_eq!(rt;
        open_bytes(alloc, front(&file, 99), &DIGEST)?,
        Answer::Nothing
    );
    let none = file_of(alloc, 0, 0)?;
    assert_eq!(rt; open_bytes(alloc, &none, &DIGEST)?, Answer::Nothing);
    let both = file_of(alloc, 2, 1)?;
    assert_eq!(rt; open_bytes(alloc, &both, &DIGEST)?, Answer::Last(2));
    let both = file_of(alloc, 2, 3)?;
    assert_eq!(rt; open_bytes(alloc, &both, &DIGEST)?, Answer::Last(3));
    let equal = file_of(alloc, 1, 1)?;
    let damaged = Answer::Fault(StoreFault::Damaged { place: 65 });
    assert_eq!(rt; open_bytes(alloc, &equal, &DIGEST)?, damaged);
    let here = [0xA6; 32];
    let other = Answer::Fault(StoreFault::Other { kept: DIGEST, here });
    assert_eq!(rt; open_bytes(alloc, &file, &here)?, other);
    assert_eq!(rt; open_bytes(alloc, front(&file, 64), &here)?, other);
    let mut longer = file_of(alloc, 0, 1)?;
    longer.extend_from_slice(b"and more")?;
    assert_eq!(rt; open_bytes(alloc, &longer, &DIGEST)?, Answer::Last(1));
    Ok(())
}

// The first phase byte of slot 1 is 9.
#[test]
fn a_damaged_body_is_named_by_its_place(rt: HostRuntime) -> Result<(), Fail> {
    let alloc = rt.alloc();
    let mut bytes = header(alloc, 124)?;
    bytes.extend_from_slice(&[0; 124])?;
    bytes.extend_from_slice(&[0x47, 0, 0, 0, 0, 0, 0, 0, 1, 9])?;
    bytes.extend_from_slice(&[0; 114])?;
    assert_eq!(rt; bytes.len(), 312);
    let damaged = Answer::Fault(StoreFault::Damaged { place: 197 });
    assert_eq!(rt; open_six(alloc, &bytes)?, damaged);
    Ok(())
}

// Every image that a pick gives, and those that mix them, opens as an epoch from `least` to `most`, where 0 stands for
// nothing, and is no longer than the file.
fn images_open(alloc: Global, disk: &MemDisk, least: u64, most: u64) -> Result<bool, NoMemory> {
    for number in [0, 7, 71, 245] {
        let image = disk.crash_image(alloc, Pick::Mixed(number))?;
        if !is_expected(alloc, &image, least, most)? {
            return Ok(false);
        }
    }
    let images = Images::new(alloc, disk)?;
    let short = images.old.len();
    let long = images.new.len();
    for len in [short, short / 2 + long / 2, long] {
        if !mixed_open(alloc, &images, len, least, most)? {
            return Ok(false);
        }
        if short == long {
            return Ok(true);
        }
    }
    Ok(true)
}

fn mixed_open(
    alloc: Global,
    images: &Images,
    len: usize,
    least: u64,
    most: u64,
) -> Result<bool, NoMemory> {
    for gate in [Choice::Old, Choice::New, Choice::Open] {
        for rest in [Choice::Old, Choice::New, Choice::Any, Choice::InTurn] {
            let image = images.mixed(alloc, len, gate, rest)?;
            if !is_expected(alloc, &image, least, most)? {
                return Ok(false);
            }
        }
    }
    Ok(true)
}

fn is_expected(alloc: Global, image: &[u8], least: u64, most: u64) -> Result<bool, NoMemory> {
    let stands = match open_bytes(alloc, image, &DIGEST)? {
        Answer::Nothing => least == 0,
        Answer::Last(epoch) => 0 < epoch && least <= epoch && epoch <= most,
        Answer::Fault(_) => false,
    };
    Ok(stands && image.len() <= 100)
}

// A creation and four puts on a disk that stops at that call: whether all were done, and whether the images after the one that
// failed open as they should. Where none failed, these are the images after each of them: a run that stops later is the same
// until then.
fn run_until(alloc: Global, bytes: &[u8], stop: u64) -> Result<(bool, bool), NoMemory>
    requires { length bytes.now < 64 }
{
    let (mut disk, store) = created(alloc, bytes, Vec::new(alloc), Some(stop))?;
    let mut good = images_open(alloc, &disk, 0, 0)?;
    let Ok(mut store) = store else {
        return Ok((false, good));
    };
    for _ in 0..4 {
        let last = store.last();
        let answer = put_next(alloc, &mut store, &mut disk);
        let next = u64::wrapping_add(last, 1);
        let least = if answer.is_ok() { next } else { last };
        if answer.is_err() || stop == u64::MAX {
            good = good && images_open(alloc, &disk, least, next)?;
        }
        if answer.is_err() {
            return Ok((
                false,
                good && answer == Err(StoreFault::Disk) && store.last() == last,
            ));
        }
    }
    Ok((true, good))
}

// A creation makes 10 calls over an empty file, and 11 over one with an open gate. The first two puts make 6 each, as their
// slots are closed, and the others 8.
#[test]
fn a_stop_at_each_call_leaves_the_last_kept_or_the_next(rt: HostRuntime) -> Result<(), Fail> {
    let alloc = rt.alloc();
    for stop in 1..42 {
        let (done, good) = run_until(alloc, &[], stop)?;
        assert!(rt; good);
        assert_eq!(rt; done, stop > 38);
        let (done, good) = run_until(alloc, &[0x47], stop)?;
        assert!(rt; good);
        assert_eq!(rt; done, stop > 39);
    }
    assert_eq!(rt; run_until(alloc, &[], u64::MAX)?, (true, true));
    assert_eq!(rt; run_until(alloc, &[0x47], u64::MAX)?, (true, true));
    Ok(())
}

// A second snapshot whose gate was opened and not synced, then an open, which makes 4 calls, with a sync before it or without,
// and a third snapshot whose old gate was closed and not synced. These calls fail.
fn resumed(alloc: Global, syncs: bool, fails: [u64; 2]) -> Result<(MemDisk, Answer), NoMemory> {
    let fails = Vec::from_slice(alloc, &fails)?;
    let (mut disk, store) = created(alloc, &[], fails, None)?;
    let Ok(mut store) = store else {
        return Ok((disk, Answer::Nothing));
    };
    let _first = put_next(alloc, &mut store, &mut disk);
    let _second = put_next(alloc, &mut store, &mut disk);
    if syncs && disk.sync().is_err() {
        return Ok((disk, Answer::Nothing));
    }
    let shape = one_vertex(alloc)?;
    let Ok(Opened::Last(mut store, snapshot)) = Store::open(alloc, &mut disk, &shape, &DIGEST)
    else {
        return Ok((disk, Answer::Nothing));
    };
    let _third = put_next(alloc, &mut store, &mut disk);
    Ok((disk, Answer::Last(snapshot.epoch)))
}

// What is read and not synced may be lost, and with it what was kept before.
#[test]
fn a_sync_before_the_open_keeps_what_was_read(rt: HostRuntime) -> Result<(), Fail> {
    let alloc = rt.alloc();
    let (disk, answer) = resumed(alloc, false, [22, 30])?;
    assert_eq!(rt; answer, Answer::Last(2));
    let image = disk.crash_image(alloc, Pick::Mixed(0))?;
    assert_eq!(rt; open_bytes(alloc, &image, &DIGEST)?, Answer::Nothing);
    let (disk, answer) = resumed(alloc, true, [22, 31])?;
    assert_eq!(rt; answer, Answer::Last(2));
    assert!(rt; images_open(alloc, &disk, 2, 2)?);
    Ok(())
}
