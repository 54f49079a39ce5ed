ghost use Rattle.std.specs.Prelude.{◌≡◌};

use crate::compared::{compare_all, expect_values};
use crate::graphs::{closed_cycle, fork, generated, grid, hub_of_a_path, open_cycle, row_and_loop};
use crate::patterns::{all_nodes, chain};
use graph_core::{Cut, PatternLink, PatternNode};
use std::test::Fail;

fn node(number: u8, label: u32) -> PatternNode
    ensures { result ≡ record { number = number; label = label } }
{
    PatternNode { number, label }
}

fn link(from: u8, to: u8) -> PatternLink
    ensures { result ≡ record { from = from; to = to } }
{
    PatternLink { from, to }
}

#[test]
fn finds_a_cycle(rt: HostRuntime) -> Result<(), Fail> {
    let nodes = [node(0, 1), node(1, 2)];
    let links = [link(0, 1), link(1, 0)];
    let asked = (nodes.as_slice(), links.as_slice());
    let open = open_cycle(rt.alloc())?;
    expect_values(&rt, rt.alloc(), open, asked, [0, 0, 0, 0].as_slice())?;
    let closed = closed_cycle(rt.alloc())?;
    expect_values(&rt, rt.alloc(), closed, asked, [1, 2, 1, 2].as_slice())?;
    Ok(())
}

#[test]
fn asks_for_all_links_of_a_node(rt: HostRuntime) -> Result<(), Fail> {
    let nodes = [node(63, 1), node(5, 2), node(6, 3)];
    let both = [link(63, 5), link(63, 6)];
    let bit_63 = 9_223_372_036_854_775_808;
    let graph = fork(rt.alloc())?;
    let asked = (nodes.as_slice(), both.as_slice());
    expect_values(
        &rt,
        rt.alloc(),
        graph,
        asked,
        [bit_63, 32, 64, 0].as_slice(),
    )?;
    let one = [link(63, 5)];
    let graph = fork(rt.alloc())?;
    let asked = (nodes.as_slice(), one.as_slice());
    expect_values(
        &rt,
        rt.alloc(),
        graph,
        asked,
        [bit_63, 32, 64, bit_63].as_slice(),
    )?;
    Ok(())
}

#[test]
fn finds_no_node_that_has_no_vertex(rt: HostRuntime) -> Result<(), Fail> {
    let nodes = [node(0, 1), node(1, 9), node(2, 2), node(3, 2)];
    let links = [link(0, 1), link(3, 0)];
    let graph = closed_cycle(rt.alloc())?;
    let asked = (nodes.as_slice(), links.as_slice());
    expect_values(&rt, rt.alloc(), graph, asked, [0, 4, 0, 4].as_slice())?;
    Ok(())
}

#[test]
fn finds_nodes_that_link_to_themselves(rt: HostRuntime) -> Result<(), Fail> {
    let nodes = [node(2, 7), node(0, 7)];
    let links = [link(2, 2), link(2, 2)];
    let graph = row_and_loop(rt.alloc())?;
    let asked = (nodes.as_slice(), links.as_slice());
    expect_values(&rt, rt.alloc(), graph, asked, [1, 1, 1, 5, 5].as_slice())?;
    Ok(())
}

#[test]
fn takes_all_64_nodes(rt: HostRuntime) -> Result<(), Fail> {
    let nodes = all_nodes(rt.alloc())?;
    let ring = chain(rt.alloc(), 64)?;
    let graph = row_and_loop(rt.alloc())?;
    let asked = (nodes.as_slice(), ring.as_slice());
    let want = [0, 0, 0, u64::MAX, u64::MAX];
    expect_values(&rt, rt.alloc(), graph, asked, want.as_slice())?;
    let open = chain(rt.alloc(), 63)?;
    let graph = row_and_loop(rt.alloc())?;
    let asked = (nodes.as_slice(), open.as_slice());
    let want = [7 << 61, 3 << 62, 1 << 63, u64::MAX, u64::MAX];
    expect_values(&rt, rt.alloc(), graph, asked, want.as_slice())?;
    for fragments in 1..4 {
        let graph = row_and_loop(rt.alloc())?;
        compare_all(&rt, rt.alloc(), graph, asked, fragments, Cut::Hash, 1 << 63)?;
    }
    Ok(())
}

#[test]
fn falls_along_a_path_that_a_hub_reads(rt: HostRuntime) -> Result<(), Fail> {
    let nodes = [node(5, 7), node(9, 7)];
    let links = [link(5, 5), link(9, 5)];
    let asked = (nodes.as_slice(), links.as_slice());
    let graph = hub_of_a_path(rt.alloc())?;
    expect_values(
        &rt,
        rt.alloc(),
        graph,
        asked,
        [0, 0, 0, 0, 0, 0, 0].as_slice(),
    )?;
    for fragments in 1..4 {
        let by_range = hub_of_a_path(rt.alloc())?;
        compare_all(&rt, rt.alloc(), by_range, asked, fragments, Cut::Range, 512)?;
        let by_hash = hub_of_a_path(rt.alloc())?;
        compare_all(&rt, rt.alloc(), by_hash, asked, fragments, Cut::Hash, 32)?;
    }
    Ok(())
}

#[test]
fn falls_over_a_grid(rt: HostRuntime) -> Result<(), Fail> {
    let nodes = [node(0, 1), node(1, 2)];
    let links = [link(0, 1), link(1, 0)];
    let asked = (nodes.as_slice(), links.as_slice());
    let graph = grid(rt.alloc())?;
    expect_values(
        &rt,
        rt.alloc(),
        graph,
        asked,
        [1, 2, 1, 0, 0, 0, 0, 0, 0].as_slice(),
    )?;
    for fragments in 1..4 {
        let by_range = grid(rt.alloc())?;
        compare_all(&rt, rt.alloc(), by_range, asked, fragments, Cut::Range, 1)?;
        let by_hash = grid(rt.alloc())?;
        compare_all(&rt, rt.alloc(), by_hash, asked, fragments, Cut::Hash, 2)?;
    }
    Ok(())
}

#[test]
fn agrees_with_plain_evaluation(rt: HostRuntime) -> Result<(), Fail> {
    let alloc = rt.alloc();
    let nodes = [node(0, 1), node(1, 2), node(2, 3), node(3, 1), node(4, 2)];
    let few = [link(0, 1), link(1, 0), link(3, 4), link(4, 3)];
    let many = [
        link(0, 1),
        link(1, 0),
        link(0, 2),
        link(3, 4),
        link(4, 4),
        link(4, 3),
    ];
    let asks_few = (nodes.as_slice(), few.as_slice());
    let asks_many = (nodes.as_slice(), many.as_slice());
    for number in 1..13 {
        for fragments in 1..4 {
            let by_range = generated(alloc, number)?;
            compare_all(&rt, alloc, by_range, asks_few, fragments, Cut::Range, 22)?;
            let by_hash = generated(alloc, number)?;
            compare_all(&rt, alloc, by_hash, asks_many, fragments, Cut::Hash, 25)?;
            let by_range = generated(alloc, number)?;
            compare_all(&rt, alloc, by_range, asks_many, fragments, Cut::Range, 7)?;
            let by_hash = generated(alloc, number)?;
            compare_all(&rt, alloc, by_hash, asks_few, fragments, Cut::Hash, 9)?;
        }
    }
    Ok(())
}
