ghost use Rattle.std.specs.Prelude.{◌≡◌, ◌≤◌, IfOk};
ghost use Rattle.graph_core.specs.Graphs.{IsGraph, IsQuery, IsJob};
ghost use Rattle.graph_core.specs.declared.settings.Policy.TheVariants.{Bsp};

use super::*;
use grape_port::NoMemory;
use graph_core::{Cut, Edge, Fragment, Graph, Job, Policy, Query, Reading, Route, Settings};
use std::alloc::Global;
use std::process::Abort;
use std::test::Fail;

fn settings(fragments: u32, cut: Cut) -> Settings
    ensures { result ≡ record { fragments = fragments; lanes = 2; cut = cut; policy = Bsp; snapshot = 0 } }
{
    Settings {
        fragments,
        lanes: 2,
        cut,
        policy: Policy::Bsp,
        snapshot: 0,
    }
}

fn job(graph: Graph, query: Query, fragments: u32) -> Job
    requires graph { IsGraph graph }
    requires query { IsQuery query }
    requires some { 1 ≤ fragments }
    requires few { fragments ≤ 64 }
    ensures { IsJob result }
{
    Job {
        graph,
        query,
        settings: settings(fragments, Cut::Range),
    }
}

fn edge(from: u32, to: u32, weight: u32) -> Edge
    ensures { result ≡ record { from = from; to = to; weight = weight } }
{
    Edge { from, to, weight }
}

fn reading(place: u32, weight: u32) -> Reading {
    Reading { place, weight }
}

/// The edges from 1 to 2 and from 2 to 3.
fn path(alloc: Global) -> Result<Graph, NoMemory>
    ensures { IfOk result IsGraph }
{
    Graph::build(
        alloc,
        &[(1, 0), (2, 0), (3, 0)],
        &[edge(1, 2, 5), edge(2, 3, 1)],
    )
}

/// A loop at 1, an edge from 1 to 2 that is given twice, and one from 3 to 1.
fn loops(alloc: Global) -> Result<Graph, NoMemory>
    ensures { IfOk result IsGraph }
{
    Graph::build(
        alloc,
        &[(1, 0), (2, 0), (3, 0)],
        &[edge(1, 1, 7), edge(1, 2, 4), edge(3, 1, 2), edge(1, 2, 4)],
    )
}

#[test]
fn owners_by_range(rt: HostRuntime) {
    let table = [
        (0, 2, 64, 0),
        (1, 2, 64, 32),
        (1, 3, 2, 0),
        (2, 3, 2, 1),
        (999_999, 1_000_000, 64, 63),
    ];
    for (index, count, fragments, want) in table {
        if index < count && fragments >= 1 && fragments <= 64 {
            let owner = owner_of(&settings(fragments, Cut::Range), 9, index, count);
            assert_eq!(rt; owner, want, "of {index} of {count}");
        }
    }
}

#[test]
fn owners_by_hash(rt: HostRuntime) {
    let table = [
        (0, 64, 0),
        (1, 64, 39),
        (1, 2, 1),
        (u32::MAX - 1, 64, 48),
        (u32::MAX, 64, 24),
        (u32::MAX, 1, 0),
    ];
    for (number, fragments, want) in table {
        if fragments >= 1 && fragments <= 64 {
            let owner = owner_of(&settings(fragments, Cut::Hash), number, 0, 1);
            assert_eq!(rt; owner, want, "of {number}");
        }
    }
}

// Each of these stops where a fragment has others: vertices, or readings, readers or routes of a place.

fn check_vertices(rt: &impl Abort, part: &Fragment, owned: &[u32], mirrors: &[u32]) {
    assert_eq!(rt; part.owned(), owned);
    assert_eq!(rt; part.mirrors(), mirrors);
}

fn check_readings(rt: &impl Abort, part: &Fragment, place: u32, want: &[Reading]) {
    assert!(rt; (place as usize) < part.owned().len());
    assert_eq!(rt; part.readings(place), want);
}

fn check_readers(rt: &impl Abort, part: &Fragment, place: u32, want: &[Reading]) {
    let owned = part.owned().len();
    assert!(rt; (place as usize) < owned || (place as usize - owned) < part.mirrors().len());
    assert_eq!(rt; part.readers(place), want);
}

fn check_routes(rt: &impl Abort, part: &Fragment, place: u32, want: &[Route]) {
    assert!(rt; (place as usize) < part.owned().len());
    assert_eq!(rt; part.routes(place), want);
}

#[test]
fn cuts_a_path(rt: HostRuntime) -> Result<(), Fail> {
    let parts = fragment(rt.alloc(), &job(path(rt.alloc())?, Query::Dist(1), 2))?;
    assert_eq!(rt; parts.len(), 2);
    let first = &parts[0];
    check_vertices(&rt, first, &[0, 1], &[]);
    check_readings(&rt, first, 0, &[]);
    check_readings(&rt, first, 1, &[reading(0, 5)]);
    check_readers(&rt, first, 0, &[reading(1, 5)]);
    check_routes(&rt, first, 0, &[]);
    check_routes(
        &rt,
        first,
        1,
        &[Route {
            fragment: 1,
            mirror: 0,
        }],
    );
    let second = &parts[1];
    check_vertices(&rt, second, &[2], &[1]);
    check_readings(&rt, second, 0, &[reading(1, 1)]);
    check_readers(&rt, second, 1, &[reading(0, 1)]);
    check_routes(&rt, second, 0, &[]);
    Ok(())
}

#[test]
fn cuts_loops_and_repeated_edges(rt: HostRuntime) -> Result<(), Fail> {
    let parts = fragment(rt.alloc(), &job(loops(rt.alloc())?, Query::Label, 2))?;
    assert_eq!(rt; parts.len(), 2);
    let first = &parts[0];
    let row = [reading(0, 7), reading(1, 4), reading(1, 4), reading(2, 2)];
    check_vertices(&rt, first, &[0, 1], &[2]);
    check_readings(&rt, first, 0, &row);
    check_readings(&rt, first, 1, &[reading(0, 4), reading(0, 4)]);
    check_readers(
        &rt,
        first,
        0,
        &[reading(0, 7), reading(1, 4), reading(1, 4)],
    );
    check_readers(&rt, first, 2, &[reading(0, 2)]);
    check_routes(
        &rt,
        first,
        0,
        &[Route {
            fragment: 1,
            mirror: 0,
        }],
    );
    let second = &parts[1];
    check_vertices(&rt, second, &[2], &[0]);
    check_readings(&rt, second, 0, &[reading(1, 2)]);
    check_readers(&rt, second, 1, &[reading(0, 2)]);
    check_routes(
        &rt,
        second,
        0,
        &[Route {
            fragment: 0,
            mirror: 0,
        }],
    );
    Ok(())
}

#[test]
fn one_fragment_has_all(rt: HostRuntime) -> Result<(), Fail> {
    let parts = fragment(rt.alloc(), &job(loops(rt.alloc())?, Query::Dist(1), 1))?;
    assert_eq!(rt; parts.len(), 1);
    let part = &parts[0];
    check_vertices(&rt, part, &[0, 1, 2], &[]);
    check_readings(&rt, part, 0, &[reading(0, 7), reading(2, 2)]);
    check_readings(&rt, part, 1, &[reading(0, 4), reading(0, 4)]);
    let row = [reading(0, 7), reading(1, 4), reading(1, 4)];
    check_readers(&rt, part, 0, &row);
    check_readers(&rt, part, 2, &[reading(0, 2)]);
    check_routes(&rt, part, 0, &[]);
    Ok(())
}

#[test]
fn leaves_fragments_empty(rt: HostRuntime) -> Result<(), Fail> {
    let graph = Graph::build(rt.alloc(), &[(4, 0), (9, 0)], &[edge(4, 9, 3)])?;
    let parts = fragment(rt.alloc(), &job(graph, Query::Reach(4), 64))?;
    assert_eq!(rt; parts.len(), 64);
    for (number, part) in parts.iter().enumerate() {
        match number {
            0 => check_vertices(&rt, part, &[0], &[]),
            32 => check_vertices(&rt, part, &[1], &[0]),
            _ => check_vertices(&rt, part, &[], &[]),
        }
    }
    Ok(())
}
