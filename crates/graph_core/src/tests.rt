ghost use Rattle.std.specs.Prelude.{◌≡◌};

use super::*;
use crate::sorting::group_and_sort;
use grape_port::NoMemory;
use std::alloc::Global;
use std::test::Fail;

fn edge(from: u32, to: u32, weight: u32) -> Edge
    ensures { result ≡ record { from = from; to = to; weight = weight } }
{
    Edge { from, to, weight }
}

/// Four vertices with gaps between their numbers, an edge that is given twice, and a loop.
fn gaps(alloc: Global) -> Result<Graph, NoMemory> {
    let vertices = [(10, 1), (20, 2), (25, 2), (40, 1)];
    let edges = [
        edge(40, 25, 1),
        edge(10, 40, 9),
        edge(10, 20, 3),
        edge(25, 25, 0),
        edge(10, 20, 3),
        edge(10, 20, 2),
    ];
    Graph::build(alloc, &vertices, &edges)
}

/// The numbers 5, 6 and 7.
fn dense(alloc: Global) -> Result<Graph, NoMemory> {
    let vertices = [(5, 0), (6, 0), (7, 9)];
    let edges = [edge(7, 5, 4), edge(5, 7, 1), edge(7, 5, 4)];
    Graph::build(alloc, &vertices, &edges)
}

#[test]
fn builds_with_gaps(rt: HostRuntime) -> Result<(), Fail> {
    let graph = gaps(rt.alloc())?;
    let want = [
        edge(0, 1, 2),
        edge(0, 1, 3),
        edge(0, 1, 3),
        edge(0, 3, 9),
        edge(2, 2, 0),
        edge(3, 2, 1),
    ];
    assert_eq!(rt; graph.count(), 4);
    assert_eq!(rt; graph.edges(), want.as_slice());
    assert_eq!(rt; graph.id(2), 25);
    assert_eq!(rt; graph.label(3), 1);
    Ok(())
}

#[test]
fn builds_dense_numbers(rt: HostRuntime) -> Result<(), Fail> {
    let graph = dense(rt.alloc())?;
    let want = [edge(0, 2, 1), edge(2, 0, 4), edge(2, 0, 4)];
    assert_eq!(rt; graph.edges(), want.as_slice());
    Ok(())
}

/// Edges that begin at numbers drawn below a bound, times a step.
fn drawn(alloc: Global, bound: u32, step: u32) -> Result<Vec<Edge>, NoMemory> {
    let mut edges = Vec::with_capacity(alloc, 3000)?;
    let mut state: u64 = 7;
    for _ in 0..3000 {
        state = state
            .wrapping_mul(6_364_136_223_846_793_005)
            .wrapping_add(1);
        let number = (state >> 32) as u32 % bound.max(1);
        edges.push(edge(number.wrapping_mul(step), (state >> 62) as u32, 1))?;
    }
    Ok(edges)
}

#[test]
fn groups_bring_edges_into_order(rt: HostRuntime) -> Result<(), Fail> {
    // few beginnings and many, without gaps and spread over all numbers
    let table = [
        (1, 1),
        (3, 1),
        (1000, 1),
        (4000, 1),
        (4000, 1_000_003),
        (1_000_000_000, 4),
    ];
    for (bound, step) in table {
        let mut edges = drawn(rt.alloc(), bound, step)?;
        group_and_sort(&mut edges);
        assert!(rt; edges.is_sorted(), "below {bound}, times {step}");
    }
    Ok(())
}

#[test]
fn finds_indexes(rt: HostRuntime) -> Result<(), Fail> {
    let graph = gaps(rt.alloc())?;
    let table = [
        (9, None),
        (10, Some(0)),
        (11, None),
        (20, Some(1)),
        (25, Some(2)),
        (40, Some(3)),
        (u32::MAX, None),
    ];
    for (number, want) in table {
        assert_eq!(rt; graph.index_of(number), want, "at {number}");
    }
    Ok(())
}

fn job(graph: Graph, query: Query) -> Job {
    let settings = Settings {
        fragments: 4,
        lanes: 2,
        cut: Cut::Hash,
        policy: Policy::Aap { c: 4, l: 2 },
        snapshot: 0,
    };
    Job {
        graph,
        query,
        settings,
    }
}

#[test]
fn copies_jobs(rt: HostRuntime) -> Result<(), Fail> {
    let nodes = vec![in rt.alloc();
        PatternNode {
            number: 3,
            label: 2
        },
    ]?;
    let links = vec![in rt.alloc(); PatternLink { from: 3, to: 3 }]?;
    let copy = job(gaps(rt.alloc())?, Query::Sim(Pattern { nodes, links })).copy(rt.alloc())?;
    assert_eq!(rt; copy.graph.count(), 4);
    assert_eq!(rt; copy.graph.edges().len(), 6);
    assert_eq!(rt; copy.settings.policy, Policy::Aap { c: 4, l: 2 });
    match &copy.query {
        Query::Sim(pattern) => {
            assert_eq!(rt;
                pattern.nodes.as_slice(),
                [PatternNode {
                    number: 3,
                    label: 2
                }]
                .as_slice()
            );
            assert_eq!(rt;
                pattern.links.as_slice(),
                [PatternLink { from: 3, to: 3 }].as_slice()
            );
        }
        _ => assert!(rt; false, "another query"),
    }
    Ok(())
}

fn reading(place: u32, weight: u32) -> Reading
    ensures { result ≡ record { place = place; weight = weight } }
{
    Reading { place, weight }
}

#[test]
fn keeps_rows(rt: HostRuntime) -> Result<(), Fail> {
    let mut rows: Rows<u32> = Rows::with_capacity(rt.alloc(), 1, 1)?;
    assert!(rt; rows.is_empty());
    rows.push_row(&[1, 2])?;
    rows.push_row(&[3])?;
    assert_eq!(rt; rows.len(), 2);
    assert_eq!(rt; rows.row(1), [3].as_slice());
    Ok(())
}

/// Vertex 4 of a fragment, which reads vertex 9 and itself, and is mirrored twice.
fn fragment(alloc: Global) -> Result<Fragment, Fail> {
    let mut readings = Rows::with_capacity(alloc, 1, 2)?;
    readings.push_row(&[reading(0, 7), reading(1, 8)])?;
    let items = vec![in alloc; reading(0, 7), reading(0, 8)]?;
    let readers = Rows::from_offsets(items, vec![in alloc; 0, 1, 2]?);
    let mut routes = Rows::with_capacity(alloc, 1, 1)?;
    routes.push_row(&[Route {
        fragment: 0,
        mirror: 5,
    }])?;
    Ok(Fragment::from_parts(FragmentParts {
        number: 1,
        owned: vec![in alloc; 4]?,
        mirrors: vec![in alloc; 9]?,
        readings,
        readers,
        routes,
    }))
}

#[test]
fn keeps_parts(rt: HostRuntime) -> Result<(), Fail> {
    let part = fragment(rt.alloc())?;
    assert_eq!(rt; part.number(), 1);
    assert_eq!(rt; part.owned(), [4].as_slice());
    assert_eq!(rt; part.mirrors(), [9].as_slice());
    Ok(())
}

#[test]
fn draws_graphs(rt: HostRuntime) -> Result<(), Fail> {
    // The words from 1234567 on, as they are published with the generator: 6457827717110365317, 3203168211198807973,
    // 9817491932198370423, 4593380528125082431, 16408922859458223821 and so on.
    let graph = make_graph(rt.alloc(), 1000, 1_234_567)?;
    assert_eq!(rt; graph.count(), 1000);
    assert_eq!(rt; graph.edges().len(), 4000);
    assert!(rt; graph.edges().contains(&edge(317, 973, 424)));
    Ok(())
}
