// A snapshot whose body is read in three pieces.
ghost use Rattle.std.specs.Prelude.{◌≡◌, ◌≤◌, length, IfOk};
ghost use Rattle.token_cut.specs.Form.{IsInSlotForm};
ghost use Rattle.token_cut.specs.Shapes.{IsShape};

use crate::{Opened, Store, StoreFault};
use byteorder::{BigEndian, ByteOrder};
use grape_disk::{Disk, MemDisk, Pick};
use grape_port::NoMemory;
use snapshot_file::{body_len, decode};
use std::alloc::Global;
use std::test::Fail;
use token_cut::{Shape, ShapePart, Snapshot};
use value_order::Order;

// any 32 bytes in the place of an input's digest
const DIGEST: [u8; 32] = [0xA5; 32];

// A worker with so many vertices, each of which starts with 1,000,000.
fn alike(alloc: Global, count: usize) -> Result<ShapePart, NoMemory>
    ensures { IfOk result (λ part. (length part.owned ≡ count) × (length part.mirrors ≡ 0)) }
{
    Ok(ShapePart {
        owned: vec![in alloc; 1_000_000; count]?,
        mirrors: Vec::new(alloc),
    })
}

fn shape_of(alloc: Global, count: usize) -> Result<Shape, NoMemory>
    requires { count ≤ 1000000 }
    ensures { IfOk result (λ shape. IsShape shape) }
{
    let mut parts = Vec::new(alloc);
    parts.push(alike(alloc, count)?)?;
    Ok(Shape {
        order: Order::Least,
        parts,
    })
}

// The first epoch, a phase and so many numbers that rise.
fn body_of(alloc: Global, count: u64) -> Result<Vec<u8>, NoMemory> {
    let mut bytes = Vec::from_slice(alloc, &[0, 0, 0, 0, 0, 0, 0, 1, 1])?;
    for number in 0..count {
        let mut field = [0; 8];
        BigEndian::write_u64(&mut field, number);
        bytes.extend_from_slice(&field)?;
    }
    Ok(bytes)
}

// A disk whose file keeps the snapshot.
fn kept(alloc: Global, shape: &Shape, snapshot: &Snapshot) -> Result<MemDisk, StoreFault>
    requires shape { IsShape shape.now }
    requires form { IsInSlotForm shape.now 1 snapshot.now }
    requires epoch { snapshot.now.epoch ≡ 1 }
{
    let mut disk = MemDisk::new(alloc, 400_000, &[], Vec::new(alloc), None)?;
    let mut store = Store::create(alloc, &mut disk, shape, &DIGEST)?;
    store.put(&mut disk, shape, snapshot)?;
    Ok(disk)
}

// The snapshot that a body of so many values reads as, and the disk whose file keeps it.
fn kept_body(
    alloc: Global,
    shape: &Shape,
    count: u64,
) -> Result<Option<(Snapshot, MemDisk)>, StoreFault>
    requires { IsShape shape.now }
{
    let body = body_of(alloc, count)?;
    let mut snapshot = Snapshot::fresh(alloc, shape)?;
    if body.len() as u64 != body_len(shape) {
        return Ok(None);
    }
    decode(&body, 0, 1, shape, &mut snapshot)?;
    if snapshot.epoch != 1 {
        return Ok(None);
    }
    let disk = kept(alloc, shape, &snapshot)?;
    Ok(Some((snapshot, disk)))
}

fn values(snapshot: &Snapshot) -> &[u64] {
    match snapshot.parts.first() {
        Some(part) => &part.values,
        None => &[],
    }
}

// What an open of these bytes answers, where it is damaged.
fn damage(alloc: Global, shape: &Shape, bytes: &[u8]) -> Result<Option<u64>, NoMemory>
    requires { IsShape shape.now }
{
    let mut disk = MemDisk::new(alloc, bytes.len(), bytes, Vec::new(alloc), None)?;
    match Store::open(alloc, &mut disk, shape, &DIGEST) {
        Err(StoreFault::Damaged { place }) => Ok(Some(place)),
        _ => Ok(None),
    }
}

// The body has 160,009 bytes. An open asks for the length, and reads the header with the first gate and epoch, the second gate
// and epoch, and then three pieces.
#[test]
fn a_long_body_is_opened_as_it_was_put(rt: HostRuntime) -> Result<(), Fail> {
    let alloc = rt.alloc();
    let shape = shape_of(alloc, 20_000)?;
    let Ok(Some((snapshot, mut disk))) = kept_body(alloc, &shape, 20_000) else {
        panic!(rt; "nothing was kept")
    };
    let calls = disk.calls();
    let Ok(Opened::Last(store, last)) = Store::open(alloc, &mut disk, &shape, &DIGEST) else {
        panic!(rt; "nothing was opened")
    };
    assert_eq!(rt; u64::wrapping_sub(disk.calls(), calls), 6);
    assert_eq!(rt; store.last(), 1);
    assert_eq!(rt; values(&last), values(&snapshot));
    assert_eq!(rt; values(&last).last().copied(), Some(19_999));
    // a number in the first piece, and the last one
    for place in [160_092, 320_076] {
        let mut image = disk.crash_image(alloc, Pick::Read)?;
        assert_eq!(rt; image.len(), 320_084);
        if let Some(byte) = image.get_mut(place) {
            *byte = 1;
        }
        assert_eq!(rt; damage(alloc, &shape, &image)?, Some(place as u64));
    }
    Ok(())
}
