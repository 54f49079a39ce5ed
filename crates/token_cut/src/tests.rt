ghost use Rattle.std.specs.Prelude.{◌≡◌, IfOk};
ghost use Rattle.token_cut.specs.Worked.{six_vertices};

use crate::{CutState, Part, Phase, Shape, ShapePart, Snapshot};
use grape_port::NoMemory;
use std::alloc::Global;
use std::test::Fail;
use value_order::{NOTHING, Order};

fn starts(alloc: Global, owned: &[u64], mirrors: &[u64]) -> Result<ShapePart, NoMemory>
    ensures { IfOk result (λ part. part ≡ record { owned = owned.now; mirrors = mirrors.now }) }
{
    let owned = Vec::from_slice(alloc, owned)?;
    let mirrors = Vec::from_slice(alloc, mirrors)?;
    Ok(ShapePart { owned, mirrors })
}

fn six_vertices(alloc: Global) -> Result<Shape, NoMemory>
    ensures { IfOk result (λ shape. shape ≡ six_vertices) }
{
    let mut parts = Vec::new(alloc);
    parts.push(starts(alloc, &[1, 2], &[3, 6])?)?;
    parts.push(starts(alloc, &[3, 4], &[2])?)?;
    parts.push(starts(alloc, &[5, 6], &[1])?)?;
    Ok(Shape {
        order: Order::Least,
        parts,
    })
}

fn has_part(part: &Part, phase: Phase, values: &[u64], mail: &[u64]) -> bool {
    part.phase == phase && part.values.as_slice() == values && part.mail.as_slice() == mail
}

fn has_parts(snapshot: &Snapshot, want: [(Phase, &[u64], &[u64]); 3]) -> bool {
    if snapshot.parts.len() != 3 {
        return false;
    }
    for i in 0..3 {
        let (phase, values, mail) = want[i];
        if !has_part(&snapshot.parts[i], phase, values, mail) {
            return false;
        }
    }
    true
}

#[test]
fn a_fresh_snapshot_has_the_start_values(rt: HostRuntime) -> Result<(), Fail> {
    let alloc = rt.alloc();
    let shape = six_vertices(alloc)?;
    let fresh = Snapshot::fresh(alloc, &shape)?;
    assert_eq!(rt; fresh.epoch, 0);
    let want: [(Phase, &[u64], &[u64]); 3] = [
        (Phase::Fresh, &[1, 2, 3, 6], &[NOTHING, NOTHING]),
        (Phase::Fresh, &[3, 4, 2], &[NOTHING]),
        (Phase::Fresh, &[5, 6, 1], &[NOTHING]),
    ];
    assert!(rt; has_parts(&fresh, want));
    Ok(())
}

// Worker 0 is marked before its first work, while the value 2 for vertex 3 waits for it. The value 1 for vertex 6 comes
// late from worker 2. Then the others are marked.
#[test]
fn a_recording_is_sealed(rt: HostRuntime) -> Result<(), Fail> {
    let alloc = rt.alloc();
    let shape = six_vertices(alloc)?;
    let mut cut = CutState::new(alloc, &shape)?;
    let mut sealed = Snapshot::fresh(alloc, &shape)?;
    assert!(rt; !cut.recording() && !cut.complete());

    cut.begin(1);
    assert!(rt; cut.recording() && !cut.marked(0) && !cut.complete());
    cut.mark(0, Phase::Fresh, &[1, 2, 3, 6], &[2, NOTHING]);
    cut.late(0, 1, 1);
    assert!(rt; cut.marked(0) && !cut.marked(1) && !cut.complete());
    cut.mark(1, Phase::Rest, &[2, 4, 2], &[NOTHING]);
    cut.mark(2, Phase::Rest, &[1, 1, 1], &[NOTHING]);
    assert!(rt; cut.complete());
    cut.seal(&mut sealed);
    assert!(rt; !cut.recording() && !cut.complete());

    let want: [(Phase, &[u64], &[u64]); 3] = [
        (Phase::Fresh, &[1, 2, 3, 6], &[2, 1]),
        (Phase::Rest, &[2, 4, 2], &[NOTHING]),
        (Phase::Rest, &[1, 1, 1], &[NOTHING]),
    ];
    assert_eq!(rt; sealed.epoch, 1);
    assert!(rt; has_parts(&sealed, want));
    let copy = sealed.copy(alloc)?;
    assert_eq!(rt; copy.epoch, 1);
    assert!(rt; has_parts(&copy, want));
    Ok(())
}
