ghost use Rattle.std.specs.Prelude.{◌≡◌, IfOk};
ghost use Rattle.graph_core.specs.Graphs.{IsGraph, IsPattern, IsQuery, IsJob};

use crate::shape_of;
use fragment_cut::fragment;
use grape_port::NoMemory;
use graph_core::{Cut, Edge, FAR, Graph, Job, Pattern, PatternNode, Policy, Query, Settings};
use std::alloc::Global;
use std::process::Abort;
use std::test::Fail;
use value_order::Order;

/// A job of two fragments.
fn job(graph: Graph, query: Query) -> Job
    requires graph { IsGraph graph }
    requires query { IsQuery query }
    ensures { IsJob result }
{
    Job {
        graph,
        query,
        settings: Settings {
            fragments: 2,
            lanes: 1,
            cut: Cut::Range,
            policy: Policy::Bsp,
            snapshot: 0,
        },
    }
}

/// The edges from 1 to 2 and from 2 to 3, where 2 has another label.
fn path(alloc: Global) -> Result<Graph, NoMemory>
    ensures { IfOk result IsGraph }
{
    let first = Edge {
        from: 1,
        to: 2,
        weight: 5,
    };
    let second = Edge {
        from: 2,
        to: 3,
        weight: 1,
    };
    Graph::build(alloc, &[(1, 4), (2, 6), (3, 4)], &[first, second])
}

/// One node, number 3, for the vertices with label 4.
fn one_node(alloc: Global) -> Result<Pattern, NoMemory>
    ensures { IfOk result IsPattern }
{
    let mut nodes = Vec::new(alloc);
    nodes.push(PatternNode {
        number: 3,
        label: 4,
    })?;
    Ok(Pattern {
        nodes,
        links: Vec::new(alloc),
    })
}

/// Stops where the shape of a query on the path has another order, or other start values. The first fragment owns 1 and
/// 2, the second one owns 3.
fn check(
    rt: &impl Abort,
    alloc: Global,
    query: Query,
    order: Order,
    want: [(&[u64], &[u64]); 2],
) -> Result<(), NoMemory>
    requires { IsQuery query }
{
    let job = job(path(alloc)?, query);
    let fragments = fragment(alloc, &job)?;
    let shape = shape_of(alloc, &job, &fragments)?;
    assert_eq!(rt; shape.order, order);
    assert_eq!(rt; shape.parts.len(), 2);
    for (part, (owned, mirrors)) in shape.parts.iter().zip(want) {
        assert_eq!(rt; part.owned.as_slice(), owned);
        assert_eq!(rt; part.mirrors.as_slice(), mirrors);
    }
    Ok(())
}

#[test]
fn numbers_start_high(rt: HostRuntime) -> Result<(), Fail> {
    let alloc = rt.alloc();
    let distances: [(&[u64], &[u64]); 2] = [(&[0, FAR], &[]), (&[FAR], &[FAR])];
    check(&rt, alloc, Query::Dist(1), Order::Least, distances)?;
    let labels: [(&[u64], &[u64]); 2] = [(&[1, 2], &[3]), (&[3], &[2])];
    check(&rt, alloc, Query::Label, Order::Least, labels)?;
    let reached: [(&[u64], &[u64]); 2] = [(&[1, 0], &[]), (&[1], &[0])];
    check(&rt, alloc, Query::Reach(2), Order::Least, reached)?;
    Ok(())
}

#[test]
fn sets_of_nodes_start_by_labels(rt: HostRuntime) -> Result<(), Fail> {
    let alloc = rt.alloc();
    let nodes: [(&[u64], &[u64]); 2] = [(&[8, 0], &[8]), (&[8], &[])];
    let query = Query::Sim(one_node(alloc)?);
    check(&rt, alloc, query, Order::Mask, nodes)?;
    Ok(())
}
