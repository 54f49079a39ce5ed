use crate::{Calm, Pacer, Pulse, Scripted, Seeded};
use grape_port::NoMemory;
use graph_core::Policy;
use std::alloc::Global;
use std::marker::Send;
use std::test::Fail;

/// The pulse of arrivals at these clocks, oldest first, none of which is below the one before.
fn pulse_of(alloc: Global, clocks: &[u64]) -> Result<Pulse, NoMemory> {
    let mut pulse = Pulse::new(alloc)?;
    let mut last = 0;
    for clock in clocks {
        last = (*clock).max(last);
        pulse.arrived(last);
    }
    Ok(pulse)
}

const fn aap(l: u32) -> Policy {
    Policy::Aap { c: 4, l }
}

fn stretch_table() -> [(&'static [u64], Policy, u64, u32); 16] {
    [
        (&[10, 14, 22], aap(3), 1, 12),
        (&[10, 14, 22], aap(3), 2, 6),
        (&[10, 14, 22], aap(3), 3, 0),
        (&[10, 14, 22], aap(3), 4, 0),
        (&[0, 100], aap(2), 1, 64),
        (&[0, 32], aap(2), 0, 64),
        (&[0, 31], aap(2), 0, 62),
        (&[5], aap(3), 0, 0),
        (&[], aap(3), 0, 0),
        (&[5, 5], aap(3), 0, 0),
        (&[0, 1, 5], aap(3), 1, 4),
        (&[0, 18446744073709551615], aap(1_000_000), 0, 64),
        (&[10, 14, 22], Policy::Bsp, 1, 0),
        (&[10, 14, 22], Policy::Ap, 1, 0),
        (&[10, 14, 22], Policy::Ssp { c: 4 }, 1, 0),
        // the first of nine is forgotten
        (&[0, 100, 101, 102, 103, 104, 105, 106, 107], aap(12), 1, 11),
    ]
}

#[test]
fn stretches_by_the_formula(rt: HostRuntime) -> Result<(), Fail> {
    for (clocks, policy, waiting, turns) in stretch_table() {
        let pulse = pulse_of(rt.alloc(), clocks)?;
        assert_eq!(rt; pulse.stretch(&policy, waiting), turns);
    }
    Ok(())
}

/// Whether a pacer answers the numbers of a list, in order.
fn answers_are<P: Pacer>(pacer: &mut P, wanted: &[u32]) -> bool {
    for number in wanted {
        if pacer.extra(0, 7) != *number {
            return false;
        }
    }
    true
}

#[test]
fn pacers_answer(rt: HostRuntime) -> Result<(), Fail> {
    assert!(rt; answers_are(&mut Calm, &[0, 0, 0]));
    let mut scripted = Scripted::new(Vec::from_slice(rt.alloc(), &[3, 0, 4294967295])?);
    assert!(rt; answers_are(&mut scripted, &[3, 0, 4294967295, 0, 0]));
    // The words of SplitMix64 from 0 are e220a8397b1dcdaf, 6e789e6aa1b965f4, 06c45d188009454f and so on.
    assert!(rt; answers_are(&mut Seeded::new(0), &[7, 4, 7, 4, 3, 2, 1, 4]));
    assert!(rt; answers_are(&mut Seeded::new(42), &[5, 3, 2, 4, 2, 6, 5, 4]));
    assert!(rt;
        answers_are(
            &mut Seeded::new(18446744073709551615),
            &[0, 1, 1, 2, 6, 3, 5, 4]
        )
    );
    Ok(())
}

#[test]
fn boxed_pacers_answer(rt: HostRuntime) -> Result<(), Fail> {
    let mut pacers: Vec<Box<dyn Pacer + Send>> = Vec::new(rt.alloc());
    pacers.push(Box::new(rt.alloc(), Calm)?)?;
    pacers.push(Box::new(
        rt.alloc(),
        Scripted::new(Vec::from_slice(rt.alloc(), &[3])?),
    )?)?;
    pacers.push(Box::new(rt.alloc(), Seeded::new(1))?)?;
    for (worker, wanted) in [[0, 0], [3, 0], [1, 7]].iter().enumerate() {
        assert!(rt; answers_are(&mut pacers[worker], wanted));
    }
    Ok(())
}
