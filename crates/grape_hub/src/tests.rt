ghost use Rattle.std.specs.Prelude.{◌≡◌, ◌∷◌, [], replicate, IfOk};
ghost use Rattle.value_order.specs.declared.order.Order.TheVariants.{Least};

use grape_port::NoMemory;
use message_buffer::{Buffer, Hand};
use std::alloc::Global;
use std::test::Fail;
use token_cut::{CutState, Part, Phase, Shape, ShapePart, Snapshot};
use value_order::{NOTHING, Order};

// A part with so many owned places and mirrors, all of which start with 0.
fn sized(alloc: Global, owned: usize, mirrors: usize) -> Result<ShapePart, NoMemory>
    ensures { IfOk result (λ part. part ≡ record { owned = replicate owned 0; mirrors = replicate mirrors 0 }) }
{
    Ok(ShapePart {
        owned: vec![in alloc; 0; owned]?,
        mirrors: vec![in alloc; 0; mirrors]?,
    })
}

// The sizes of the labels of six vertices on three fragments: 1 and 2, 3 and 4, 5 and 6.
fn three_parts(alloc: Global) -> Result<Shape, NoMemory>
    ensures { IfOk result (λ shape. shape ≡ record { order = Least; parts = record { owned = replicate 2 0; mirrors = replicate 2 0 } ∷ record { owned = replicate 2 0; mirrors = replicate 1 0 } ∷ record { owned = replicate 2 0; mirrors = replicate 1 0 } ∷ [] }) }
{
    let mut parts = Vec::new(alloc);
    parts.push(sized(alloc, 2, 2)?)?;
    parts.push(sized(alloc, 2, 1)?)?;
    parts.push(sized(alloc, 2, 1)?)?;
    Ok(Shape {
        order: Order::Least,
        parts,
    })
}

fn is_part(part: &Part, phase: Phase, values: &[u64], mail: &[u64]) -> bool {
    part.phase == phase && part.values.as_slice() == values && part.mail.as_slice() == mail
}

// The edges are 1 2, 2 3, 5 6 and 6 1. Worker 1 has given, so the value 2 for vertex 3 waits for worker 0, which is marked
// before its first work. Then worker 0 takes and gives: its value 1 for vertex 2 is tagged. The value 1 of worker 2 for
// vertex 6 comes late to worker 0, and isn't tagged. The others are marked, and their tagged mail isn't recorded.
#[test]
fn late_mail_is_recorded_and_tagged_mail_is_not(rt: HostRuntime) -> Result<(), Fail> {
    let alloc = rt.alloc();
    let shape = three_parts(alloc)?;
    let mut cut = CutState::new(alloc, &shape)?;
    let mut sealed = Snapshot::fresh(alloc, &shape)?;
    let mut first = Buffer::new(alloc, Order::Least, 2)?;
    let mut second = Buffer::new(alloc, Order::Least, 1)?;
    let third = Buffer::new(alloc, Order::Least, 1)?;
    let mut hand = Hand::new(alloc, Order::Least, 2)?;

    first.begin_batch(false);
    first.post(false, 0, 2);
    cut.begin(1);
    cut.mark(0, Phase::Fresh, &[1, 2, 3, 6], first.plain());
    first.take(&mut hand);
    assert_eq!(rt; hand.values(), [2, NOTHING].as_slice());
    second.begin_batch(true);
    second.post(true, 0, 1);
    first.begin_batch(false);
    first.post(false, 1, 1);
    cut.late(0, 1, 1);
    cut.mark(1, Phase::Rest, &[2, 4, 2], second.plain());
    cut.mark(2, Phase::Rest, &[1, 1, 1], third.plain());
    cut.seal(&mut sealed);
    second.fold();

    assert_eq!(rt; sealed.epoch, 1);
    assert_eq!(rt; sealed.parts.len(), 3);
    assert!(rt; is_part(&sealed.parts[0], Phase::Fresh, &[1, 2, 3, 6], &[2, 1]));
    assert!(rt; is_part(&sealed.parts[1], Phase::Rest, &[2, 4, 2], &[NOTHING]));
    assert!(rt; is_part(&sealed.parts[2], Phase::Rest, &[1, 1, 1], &[NOTHING]));
    assert_eq!(rt; (second.tagged(), second.batches()), (0, 1));
    assert_eq!(rt; second.plain(), [1].as_slice());
    Ok(())
}
