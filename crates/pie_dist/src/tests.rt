ghost use Rattle.std.specs.Prelude.{◌≡◌, IfOk};
ghost use Rattle.graph_core.specs.Fragments.{fragment_of};
ghost use Rattle.pie_dist.specs.Worked.{one_range, two_ranges};

use crate::Dist;
use grape_port::NoMemory;
use graph_core::{FAR, Fragment, FragmentParts, Reading, Rows};
use message_buffer::Hand;
use pie_core::{Local, Pie};
use std::alloc::Global;
use std::test::Fail;

/// The second of two fragments of the edges 1 2 5 and 2 3 1: it owns vertex 3 and has the mirror 2.
fn second_part(alloc: Global) -> Result<Fragment, NoMemory>
    ensures { IfOk result (λ part. part ≡ fragment_of two_ranges 1) }
{
    let mut readings = Rows::with_capacity(alloc, 1, 1)?;
    readings.push_row(&[Reading {
        place: 1,
        weight: 1,
    }])?;
    let mut readers = Rows::with_capacity(alloc, 2, 1)?;
    readers.push_row(&[])?;
    readers.push_row(&[Reading {
        place: 0,
        weight: 1,
    }])?;
    let mut routes = Rows::with_capacity(alloc, 1, 0)?;
    routes.push_row(&[])?;
    Ok(Fragment::from_parts(FragmentParts {
        number: 1,
        owned: vec![in alloc; 2]?,
        mirrors: vec![in alloc; 1]?,
        readings,
        readers,
        routes,
    }))
}

#[test]
fn evaluates_the_second_part(rt: HostRuntime) -> Result<(), Fail> {
    let part = second_part(rt.alloc())?;
    let dist = Dist::new();
    let mut local = Local::new(rt.alloc(), &part, dist.counters())?;
    local.load(&[FAR, FAR]);
    dist.peval(&part, &mut local);
    assert_eq!(rt; local.values(), [FAR, FAR].as_slice());
    let mut hand = Hand::new(rt.alloc(), dist.order(), 1)?;
    hand.lower(0, 5);
    dist.inceval(&part, &mut local, &hand);
    assert_eq!(rt; local.values(), [6, 5].as_slice());
    Ok(())
}

fn reading(place: u32, weight: u32) -> Reading
    ensures { result ≡ record { place = place; weight = weight } }
{
    Reading { place, weight }
}

/// All of the edges 1 1 0, twice 1 2, 2 3, 3 3 7 and 4 5 0, where the weights that aren't said are the largest.
fn whole(alloc: Global) -> Result<Fragment, NoMemory>
    ensures { IfOk result (λ part. part ≡ fragment_of one_range 0) }
{
    let readings = vec![in alloc;
        reading(0, 0),
        reading(0, 4_294_967_295),
        reading(0, 4_294_967_295),
        reading(1, 4_294_967_295),
        reading(2, 7),
        reading(3, 0),
    ]?;
    let readers = vec![in alloc;
        reading(0, 0),
        reading(1, 4_294_967_295),
        reading(1, 4_294_967_295),
        reading(2, 4_294_967_295),
        reading(2, 7),
        reading(4, 0),
    ]?;
    Ok(Fragment::from_parts(FragmentParts {
        number: 0,
        owned: vec![in alloc; 0, 1, 2, 3, 4]?,
        mirrors: Vec::new(alloc),
        readings: Rows::from_offsets(readings, vec![in alloc; 0, 1, 3, 5, 5, 6]?),
        readers: Rows::from_offsets(readers, vec![in alloc; 0, 3, 4, 5, 6, 6]?),
        routes: Rows::from_offsets(Vec::new(alloc), vec![in alloc; 0, 0, 0, 0, 0, 0]?),
    }))
}

#[test]
fn evaluates_the_whole(rt: HostRuntime) -> Result<(), Fail> {
    let part = whole(rt.alloc())?;
    let dist = Dist::new();
    let mut local = Local::new(rt.alloc(), &part, dist.counters())?;
    local.load(&[0, FAR, FAR, FAR, FAR]);
    dist.peval(&part, &mut local);
    let want = [0, 4_294_967_295, 8_589_934_590, FAR, FAR];
    assert_eq!(rt; local.values(), want.as_slice());
    Ok(())
}
