ghost use Rattle.std.specs.Prelude.{◌≡◌, IfOk};
ghost use Rattle.snapshot_file.specs.Examples.{six_vertices, sealed, marked};

use crate::{
    BodyReader, Damaged, body_len, decode, encode, encode_piece, epoch_of, file_len, phase_place,
    slot_len,
};
use grape_port::NoMemory;
use std::alloc::Global;
use std::test::Fail;
use token_cut::{Part, Phase, Shape, ShapePart, Snapshot};
use value_order::{NOTHING, Order};

fn starts(alloc: Global, owned: &[u64], mirrors: &[u64]) -> Result<ShapePart, NoMemory>
    ensures { IfOk result (λ part. part ≡ record { owned = owned.now; mirrors = mirrors.now }) }
{
    let owned = Vec::from_slice(alloc, owned)?;
    let mirrors = Vec::from_slice(alloc, mirrors)?;
    Ok(ShapePart { owned, mirrors })
}

fn part(alloc: Global, phase: Phase, values: &[u64], mail: &[u64]) -> Result<Part, NoMemory>
    ensures { IfOk result (λ part. part ≡ record { phase = phase; values = values.now; mail = mail.now }) }
{
    let values = Vec::from_slice(alloc, values)?;
    let mail = Vec::from_slice(alloc, mail)?;
    Ok(Part {
        phase,
        values,
        mail,
    })
}

fn six_vertices(alloc: Global) -> Result<Shape, NoMemory>
    ensures { IfOk result (λ shape. shape ≡ six_vertices) }
{
    let mut parts = Vec::new(alloc);
    parts.push(starts(alloc, &[1, 2], &[3, 6])?)?;
    parts.push(starts(alloc, &[3, 4], &[2])?)?;
    parts.push(starts(alloc, &[5, 6], &[1])?)?;
    Ok(Shape {
        order: Order::Least,
        parts,
    })
}

fn sealed(alloc: Global) -> Result<Snapshot, NoMemory>
    ensures { IfOk result (λ snapshot. snapshot ≡ sealed) }
{
    let mut parts = Vec::new(alloc);
    parts.push(part(alloc, Phase::Fresh, &[1, 2, 3, 6], &[2, 1])?)?;
    parts.push(part(alloc, Phase::Rest, &[2, 4, 2], &[NOTHING])?)?;
    parts.push(part(alloc, Phase::Rest, &[1, 1, 1], &[NOTHING])?)?;
    Ok(Snapshot { epoch: 1, parts })
}

fn marked(alloc: Global) -> Result<Snapshot, NoMemory>
    ensures { IfOk result (λ snapshot. snapshot ≡ marked) }
{
    let mut parts = Vec::new(alloc);
    parts.push(part(alloc, Phase::Rest, &[101, 102, 103, 104], &[105, 106])?)?;
    parts.push(part(alloc, Phase::Fresh, &[107, 108, 109], &[110])?)?;
    parts.push(part(alloc, Phase::Fresh, &[111, 112, 113], &[114])?)?;
    Ok(Snapshot { epoch: 100, parts })
}

fn sealed_body(alloc: Global) -> Result<Vec<u8>, NoMemory> {
    let snapshot = sealed(alloc)?;
    let mut body = Vec::with_capacity(alloc, 123)?;
    encode(&snapshot, &mut body);
    Ok(body)
}

// So many bytes of that body from that place on; none where they don't lie in it.
fn sealed_piece(alloc: Global, from: u64, len: u32) -> Result<Vec<u8>, NoMemory> {
    let shape = six_vertices(alloc)?;
    let snapshot = sealed(alloc)?;
    let mut piece = vec![in alloc; 7; len as usize]?;
    if from > 123 || from + len as u64 > body_len(&shape) {
        return Ok(Vec::new(alloc));
    }
    encode_piece(&snapshot, &shape, from, &mut piece);
    Ok(piece)
}

fn stands_at(body: &[u8], from: usize, piece: &[u8]) -> bool {
    if body.len() < from {
        return false;
    }
    let (_, behind) = body.split_at(from);
    behind.starts_with(piece)
}

// What the marked snapshot becomes where a body is read into it, and the answer; none for a body of
// another length.
fn read_marked(
    alloc: Global,
    body: &[u8],
    base: u64,
) -> Result<Option<(Result<(), Damaged>, Snapshot)>, NoMemory> {
    let shape = six_vertices(alloc)?;
    let mut snapshot = marked(alloc)?;
    if body.len() as u64 != body_len(&shape) || base > 1 << 62 {
        return Ok(None);
    }
    let answer = decode(body, base, 1, &shape, &mut snapshot);
    Ok(Some((answer, snapshot)))
}

// The same of a body that is fed in pieces of that length: the last answer, and how much was read.
fn feed_marked(
    alloc: Global,
    body: &[u8],
    len: usize,
) -> Result<(Result<(), Damaged>, Snapshot, u64), NoMemory> {
    let shape = six_vertices(alloc)?;
    let mut snapshot = marked(alloc)?;
    let mut reader = BodyReader::new(1000, 1);
    for piece in body.chunks(len.max(1)) {
        if body_len(&shape).saturating_sub(reader.fed()) < piece.len() as u64 {
            break;
        }
        if let Err(damaged) = reader.feed(piece, &shape, &mut snapshot) {
            let again = reader.feed(&[], &shape, &mut snapshot);
            let answer = if again == Err(damaged) { again } else { Ok(()) };
            return Ok((answer, snapshot, reader.fed()));
        }
    }
    Ok((Ok(()), snapshot, reader.fed()))
}

fn has_part(part: &Part, phase: Phase, values: &[u64], mail: &[u64]) -> bool {
    part.phase == phase && part.values.as_slice() == values && part.mail.as_slice() == mail
}

fn has_parts(snapshot: &Snapshot, want: [(Phase, &[u64], &[u64]); 3]) -> bool {
    if snapshot.parts.len() != 3 {
        return false;
    }
    for i in 0..3 {
        let (phase, values, mail) = want[i];
        if !has_part(&snapshot.parts[i], phase, values, mail) {
            return false;
        }
    }
    true
}

#[test]
fn lengths_and_places(rt: HostRuntime) -> Result<(), Fail> {
    let shape = six_vertices(rt.alloc())?;
    assert_eq!(rt; body_len(&shape), 123);
    assert_eq!(rt; slot_len(&shape), 124);
    assert_eq!(rt; file_len(&shape), 312);
    assert_eq!(rt; phase_place(&shape, 0), 8);
    assert_eq!(rt; phase_place(&shape, 1), 57);
    assert_eq!(rt; phase_place(&shape, 2), 90);
    Ok(())
}

#[test]
fn a_body_reads_back(rt: HostRuntime) -> Result<(), Fail> {
    let alloc = rt.alloc();
    let body = sealed_body(alloc)?;
    assert_eq!(rt; body.len(), 123);
    assert!(rt; body.starts_with(&[0, 0, 0, 0, 0, 0, 0, 1, 0, 0, 0, 0, 0, 0, 0, 0, 1]));
    assert!(rt; body.ends_with(&[0, 1, 255, 255, 255, 255, 255, 255, 255, 255]));
    let read = read_marked(alloc, &body, 189)?;
    assert!(rt; read.is_some());
    if let Some((answer, snapshot)) = read {
        assert_eq!(rt; answer, Ok(()));
        assert_eq!(rt; snapshot.epoch, 1);
        let want: [(Phase, &[u64], &[u64]); 3] = [
            (Phase::Fresh, &[1, 2, 3, 6], &[2, 1]),
            (Phase::Rest, &[2, 4, 2], &[NOTHING]),
            (Phase::Rest, &[1, 1, 1], &[NOTHING]),
        ];
        assert!(rt; has_parts(&snapshot, want));
    }
    Ok(())
}

#[test]
fn a_piece_from_each_place(rt: HostRuntime) -> Result<(), Fail> {
    let alloc = rt.alloc();
    let body = sealed_body(alloc)?;
    for from in 0..123u32 {
        for len in [1, 7, 20, 123 - from] {
            let len = len.min(123 - from);
            let piece = sealed_piece(alloc, from as u64, len)?;
            assert_eq!(rt; piece.len(), len as usize);
            assert!(rt; stands_at(&body, from as usize, &piece));
        }
    }
    Ok(())
}

#[test]
fn a_body_is_fed_in_pieces(rt: HostRuntime) -> Result<(), Fail> {
    let alloc = rt.alloc();
    let body = sealed_body(alloc)?;
    for len in [1, 7, 123] {
        let (answer, snapshot, fed) = feed_marked(alloc, &body, len)?;
        assert_eq!(rt; answer, Ok(()));
        assert_eq!(rt; fed, 123);
        assert_eq!(rt; snapshot.epoch, 1);
        let want: [(Phase, &[u64], &[u64]); 3] = [
            (Phase::Fresh, &[1, 2, 3, 6], &[2, 1]),
            (Phase::Rest, &[2, 4, 2], &[NOTHING]),
            (Phase::Rest, &[1, 1, 1], &[NOTHING]),
        ];
        assert!(rt; has_parts(&snapshot, want));
    }
    Ok(())
}

#[test]
fn a_wrong_field_is_shown_with_its_last_byte(rt: HostRuntime) -> Result<(), Fail> {
    let alloc = rt.alloc();
    for (at, byte, place) in damages() {
        let mut body = sealed_body(alloc)?;
        if at < body.len() {
            body[at] = byte;
        }
        let (answer, _snapshot, fed) = feed_marked(alloc, &body, 1)?;
        assert_eq!(rt; answer, Err(Damaged { place }));
        assert_eq!(rt;
            fed,
            if place == 1008 {
                9
            } else {
                place.saturating_sub(992)
            }
        );
    }
    Ok(())
}

// A byte of the body is another one, and the body stands at place 1,000 of the file.
fn damages() -> [(usize, u8, u64); 9] {
    [
        // no epoch, an epoch of the other slot, an epoch of more than 2^62
        (7, 0, 1000),
        (7, 2, 1000),
        (0, 0x40, 1000),
        // no phase
        (8, 2, 1008),
        // a value of a part that has not begun, which isn't the start
        (16, 0, 1009),
        // mail above the start of its mirror
        (48, 4, 1041),
        // a value above its start, one far above it, and mail that is not quite nothing
        (65, 4, 1058),
        (74, 1, 1074),
        (89, 254, 1082),
    ]
}

#[test]
fn the_first_wrong_field_is_named(rt: HostRuntime) -> Result<(), Fail> {
    let alloc = rt.alloc();
    for (at, byte, place) in damages() {
        let mut body = sealed_body(alloc)?;
        if at < body.len() {
            body[at] = byte;
        }
        let read = read_marked(alloc, &body, 1000)?;
        assert!(rt; matches!(read, Some((Err(damaged), _)) if damaged == Damaged { place }));
    }
    Ok(())
}

// The second value of the second part is 5, and its start is 4.
#[test]
fn only_the_fields_before_the_wrong_one_are_replaced(rt: HostRuntime) -> Result<(), Fail> {
    let alloc = rt.alloc();
    let mut body = sealed_body(alloc)?;
    if body.len() > 73 {
        body[73] = 5;
    }
    let read = read_marked(alloc, &body, 189)?;
    assert!(rt; read.is_some());
    if let Some((answer, snapshot)) = read {
        assert_eq!(rt; answer, Err(Damaged { place: 255 }));
        assert_eq!(rt; snapshot.epoch, 1);
        let want: [(Phase, &[u64], &[u64]); 3] = [
            (Phase::Fresh, &[1, 2, 3, 6], &[2, 1]),
            (Phase::Rest, &[2, 108, 109], &[110]),
            (Phase::Fresh, &[111, 112, 113], &[114]),
        ];
        assert!(rt; has_parts(&snapshot, want));
    }
    Ok(())
}

#[test]
fn an_epoch_is_read_highest_byte_first(rt: HostRuntime) -> Result<(), Fail> {
    assert_eq!(rt; epoch_of(&[1, 2, 3, 4, 5, 6, 7, 8, 9]), 0x0102030405060708);
    Ok(())
}
