ghost use Rattle.std.specs.Prelude.{◌≡◌, ◌∷◌, [], length, IfOk};

use crate::Local;
use crate::fallen::Fallen;
use crate::worklist::Worklist;
use graph_core::{Fragment, FragmentParts, Reading, Rows};
use std::alloc::Global;
use std::test::Fail;

fn reading(place: u32, weight: u32) -> Reading
    ensures { result ≡ record { place = place; weight = weight } }
{
    Reading { place, weight }
}

/// Vertex 4 of a fragment, which reads vertex 9 and itself.
fn fragment(alloc: Global) -> Result<Fragment, Fail>
    ensures { IfOk result (λ part. (length part.owned ≡ 1) × (length part.mirrors ≡ 1)) }
{
    let mut readings = Rows::with_capacity(alloc, 1, 2)?;
    readings.push_row(&[reading(0, 7), reading(1, 8)])?;
    let items = vec![in alloc; reading(0, 7), reading(0, 8)]?;
    let readers = Rows::from_offsets(items, vec![in alloc; 0, 1, 2]?);
    let mut routes = Rows::with_capacity(alloc, 1, 1)?;
    routes.push_row(&[])?;
    Ok(Fragment::from_parts(FragmentParts {
        number: 1,
        owned: vec![in alloc; 4]?,
        mirrors: vec![in alloc; 9]?,
        readings,
        readers,
        routes,
    }))
}

#[test]
fn keeps_values(rt: HostRuntime) -> Result<(), Fail> {
    let part = fragment(rt.alloc())?;
    let mut local = Local::new(rt.alloc(), &part, 3)?;
    assert_eq!(rt; local.values(), [0, 0].as_slice());
    assert_eq!(rt; local.counters(), [0, 0, 0].as_slice());
    assert_eq!(rt; local.before(), [0].as_slice());
    Ok(())
}

/// Whether the places that fell are known, and are these.
fn lists(local: &Local, places: &[u32]) -> bool {
    match local.fallen() {
        Some(listed) => listed == places,
        None => false,
    }
}

#[test]
fn lists_what_fell(rt: HostRuntime) -> Result<(), Fail> {
    let part = fragment(rt.alloc())?;
    let mut local = Local::new(rt.alloc(), &part, 0)?;
    local.set(1, 4);
    local.set(0, 5);
    assert!(rt; local.fallen().is_none());
    local.gather_fallen();
    assert!(rt; lists(&local, &[0]));
    Ok(())
}

#[test]
fn lists_nothing_where_values_settled(rt: HostRuntime) -> Result<(), Fail> {
    let part = fragment(rt.alloc())?;
    let mut local = Local::new(rt.alloc(), &part, 0)?;
    local.set(0, 5);
    local.settle();
    assert_eq!(rt; local.before(), [5].as_slice());
    local.gather_fallen();
    assert!(rt; lists(&local, &[]));
    Ok(())
}

/// Where a value becomes that of before again the list is given up until the values settle.
#[test]
fn lists_again_what_falls_later(rt: HostRuntime) -> Result<(), Fail> {
    let part = fragment(rt.alloc())?;
    let mut local = Local::new(rt.alloc(), &part, 0)?;
    local.set(0, 5);
    local.set(0, 0);
    local.gather_fallen();
    assert!(rt; local.fallen().is_none());
    local.settle();
    local.gather_fallen();
    assert!(rt; lists(&local, &[]));
    Ok(())
}

/// How many places are listed, where the list is kept and in order.
fn count_listed(list: &Fallen) -> Option<usize> {
    match list.sorted() {
        Some(places) => Some(places.len()),
        None => None,
    }
}

#[test]
fn lists_as_many_as_there_is_room_for(rt: HostRuntime) -> Result<(), Fail> {
    let mut list = Fallen::new(rt.alloc(), 2)?;
    'places: for place in 0..64 {
        list.add(place);
    }
    list.sort();
    assert_eq!(rt; count_listed(&list), Some(64));
    list.add(64);
    list.sort();
    assert_eq!(rt; count_listed(&list), None);
    Ok(())
}

#[test]
fn keeps_places_once(rt: HostRuntime) -> Result<(), Fail> {
    let mut list = Worklist::new(rt.alloc(), 3)?;
    list.push(2, 7);
    list.push(0, 9);
    list.push(2, 7);
    assert_eq!(rt; list.pop(), Some(2));
    list.push(2, 8);
    assert_eq!(rt; list.pop(), Some(2));
    assert_eq!(rt; list.pop(), Some(0));
    assert_eq!(rt; list.pop(), None);
    Ok(())
}

/// Values at most 1,000 apart, four to a shelf; those of one shelf come in the order in which they were put on it.
#[test]
fn places_come_by_rising_values(rt: HostRuntime) -> Result<(), Fail> {
    let mut list = Worklist::new(rt.alloc(), 5)?;
    list.space(1000);
    list.push(0, 904);
    list.push(1, 900);
    list.push(2, 43);
    list.push(3, 40);
    list.push(4, 5);
    list.moved(1, 900, 20);
    list.moved(0, 904, 41);
    assert_eq!(rt; list.pop(), Some(4));
    assert_eq!(rt; list.pop(), Some(1));
    list.moved(3, 40, 36);
    assert_eq!(rt; list.pop(), Some(3));
    assert_eq!(rt; list.pop(), Some(2));
    assert_eq!(rt; list.pop(), Some(0));
    assert_eq!(rt; list.pop(), None);
    Ok(())
}

/// Values beyond the last shelf stand on the first ones again; a value below all that wait comes next.
#[test]
fn shelves_go_round(rt: HostRuntime) -> Result<(), Fail> {
    let mut list = Worklist::new(rt.alloc(), 5)?;
    list.space(10);
    list.push(0, 261);
    list.push(1, 258);
    list.push(2, 250);
    list.push(3, 255);
    list.push(4, 1000);
    assert_eq!(rt; list.pop(), Some(2));
    assert_eq!(rt; list.pop(), Some(3));
    list.moved(4, 1000, 254);
    assert_eq!(rt; list.pop(), Some(4));
    assert_eq!(rt; list.pop(), Some(1));
    assert_eq!(rt; list.pop(), Some(0));
    assert_eq!(rt; list.pop(), None);
    Ok(())
}

#[test]
fn shelves_are_spaced_where_none_waits(rt: HostRuntime) -> Result<(), Fail> {
    let mut list = Worklist::new(rt.alloc(), 2)?;
    list.push(0, 100);
    list.push(1, 90);
    list.space(u64::MAX);
    assert_eq!(rt; list.pop(), Some(1));
    assert_eq!(rt; list.pop(), Some(0));
    list.space(u64::MAX);
    list.push(0, 100);
    list.push(1, 90);
    assert_eq!(rt; list.pop(), Some(0));
    assert_eq!(rt; list.pop(), Some(1));
    Ok(())
}
