//! Inputs, and the jobs that they are.

use super::{read, read_cut};
use graph_core::{Cut, Job, Policy, Query};
use std::alloc::Global;
use std::process::Abort;
use std::test::Fail;

/// The query of a job.
#[derive(Clone, Copy, Debug, PartialEq, Eq)]
enum Asked {
    Dist(u32),
    Label,
    Reach(u32),
    Sim,
}

fn question_of(query: &Query) -> Asked {
    match query {
        Query::Dist(source) => Asked::Dist(*source),
        Query::Label => Asked::Label,
        Query::Reach(source) => Asked::Reach(*source),
        Query::Sim(_) => Asked::Sim,
    }
}

/// What a job has: its query, settings, vertices with labels, and edges between indexes.
#[derive(Clone, Copy)]
struct Wanted {
    query: Asked,
    fragments: u32,
    lanes: u32,
    cut: Cut,
    policy: Policy,
    vertices: &'static [(u32, u32)],
    edges: &'static [(u32, u32, u32)],
}

/// What a job has of which the table says no more.
fn plain() -> Wanted {
    Wanted {
        query: Asked::Dist(0),
        fragments: 4,
        lanes: 2,
        cut: Cut::Hash,
        policy: Policy::Aap { c: 4, l: 2 },
        vertices: &[(0, 0), (11342, 0), (824020, 0)],
        edges: &[(0, 1, 1), (0, 2, 1), (1, 0, 1)],
    }
}

/// Each query, with edges, and lines that are not used.
fn query_jobs() -> [(&'static [u8], Wanted); 6] {
    [
        (
            b"# Directed graph\r\n# FromNodeId\tToNodeId\r\nquery reach 0\r\n0\t11342\r\n0\t824020\r\n11342\t0",
            Wanted {
                query: Asked::Reach(0),
                ..plain()
            },
        ),
        (
            b"query label",
            Wanted {
                query: Asked::Label,
                vertices: &[],
                edges: &[],
                ..plain()
            },
        ),
        (
            b"v 8\n query\treach  4294967295 \nv 4294967295\r\nfragments 3",
            Wanted {
                query: Asked::Reach(4294967295),
                fragments: 3,
                vertices: &[(8, 0), (4294967295, 0)],
                edges: &[],
                ..plain()
            },
        ),
        (
            b"1 1 0\n \t\r\n% 7 7\n2  1\t4294967295 \n1 2 9\n\nquery dist 2\n1 2 4\n1 2 9\n",
            Wanted {
                query: Asked::Dist(2),
                vertices: &[(1, 0), (2, 0)],
                edges: &[
                    (0, 0, 0),
                    (0, 1, 4),
                    (0, 1, 9),
                    (0, 1, 9),
                    (1, 0, 4294967295),
                ],
                ..plain()
            },
        ),
        (
            b"query dist 1\n1 2\r",
            Wanted {
                query: Asked::Dist(1),
                vertices: &[(1, 0), (2, 0)],
                edges: &[(0, 1, 1)],
                ..plain()
            },
        ),
        (
            b"query dist 1\nnode 0 1\nlink 0 0\nlink 63 9\n1 2",
            Wanted {
                query: Asked::Dist(1),
                vertices: &[(1, 0), (2, 0)],
                edges: &[(0, 1, 1)],
                ..plain()
            },
        ),
    ]
}

/// Vertices with labels, and settings.
fn labelled_jobs() -> [(&'static [u8], Wanted); 4] {
    [
        (
            b"query dist 7\nv 7 0",
            Wanted {
                query: Asked::Dist(7),
                vertices: &[(7, 0)],
                edges: &[],
                ..plain()
            },
        ),
        (
            b"v 9 3\n5 8\nv 8 4294967295\nv 4294967295\n cut\trange\nfragments 64\nv 5 007\r\n8 1 2\nquery dist 9\nv 0\t1",
            Wanted {
                query: Asked::Dist(9),
                fragments: 64,
                cut: Cut::Range,
                vertices: &[
                    (0, 1),
                    (1, 0),
                    (5, 7),
                    (8, 4294967295),
                    (9, 3),
                    (4294967295, 0),
                ],
                edges: &[(2, 3, 1), (3, 1, 2)],
                ..plain()
            },
        ),
        (
            b"fragments 1\nv 1 1\nv 2 2\nv 3 3\nv 4 4\ncut hash\nquery dist 4\n3 1\n",
            Wanted {
                query: Asked::Dist(4),
                fragments: 1,
                vertices: &[(1, 1), (2, 2), (3, 3), (4, 4)],
                edges: &[(2, 0, 1)],
                ..plain()
            },
        ),
        (
            b"v 4 4\nv 3 3\nv 1 1\nv 2 2\nquery dist 1\nfragments 02",
            Wanted {
                query: Asked::Dist(1),
                fragments: 2,
                vertices: &[(1, 1), (2, 2), (3, 3), (4, 4)],
                edges: &[],
                ..plain()
            },
        ),
    ]
}

/// One edge, written plainly and in other ways, and edges of the largest numbers.
fn edge_jobs() -> [(&'static [u8], Wanted); 2] {
    [
        (
            b"query dist 7\n7 8\n0000000007 8 1\n00000000007 8\n7  8\n7\t8\n7 8\r\n7 8",
            Wanted {
                query: Asked::Dist(7),
                vertices: &[(7, 0), (8, 0)],
                edges: &[
                    (0, 1, 1),
                    (0, 1, 1),
                    (0, 1, 1),
                    (0, 1, 1),
                    (0, 1, 1),
                    (0, 1, 1),
                    (0, 1, 1),
                ],
                ..plain()
            },
        ),
        (
            b"8 4294967295 0\n4294967295 8 4294967295\nquery dist 8\n8 8\n",
            Wanted {
                query: Asked::Dist(8),
                vertices: &[(8, 0), (4294967295, 0)],
                edges: &[(0, 0, 1), (0, 1, 0), (1, 0, 4294967295)],
                ..plain()
            },
        ),
    ]
}

fn check_job(rt: &impl Abort, alloc: Global, job: &Job, want: &Wanted) -> Result<(), Fail> {
    assert_eq!(rt; question_of(&job.query), want.query);
    assert_eq!(rt; job.settings.fragments, want.fragments);
    assert_eq!(rt; job.settings.cut, want.cut);
    assert_eq!(rt; job.settings.lanes, want.lanes);
    assert_eq!(rt; job.settings.policy, want.policy);
    assert_eq!(rt; job.settings.snapshot, 0);
    let vertices: Vec<(u32, u32)> = (0..job.graph.count())
        .map(|index| (job.graph.id(index), job.graph.label(index)))
        .collect(alloc)?;
    assert_eq!(rt; vertices.as_slice(), want.vertices);
    let edges: Vec<(u32, u32, u32)> = job
        .graph
        .edges()
        .iter()
        .map(|edge| (edge.from, edge.to, edge.weight))
        .collect(alloc)?;
    assert_eq!(rt; edges.as_slice(), want.edges);
    Ok(())
}

/// Checks that each text of a table is its job, however it is cut.
fn check_jobs(
    rt: &impl Abort,
    alloc: Global,
    table: &[(&'static [u8], Wanted)],
) -> Result<(), Fail> {
    for (text, want) in table {
        for size in [1, 3, 4096] {
            let Ok(job) = read(alloc, text, size) else {
                panic!(rt; "no job of {text:?} in pieces of {size}")
            };
            check_job(rt, alloc, &job, want)?;
        }
        for place in 0..text.len() {
            let Ok(job) = read_cut(alloc, text, place) else {
                panic!(rt; "no job of {text:?} cut at {place}")
            };
            check_job(rt, alloc, &job, want)?;
        }
    }
    Ok(())
}

#[test]
fn jobs(rt: HostRuntime) -> Result<(), Fail> {
    check_jobs(&rt, rt.alloc(), &query_jobs())?;
    check_jobs(&rt, rt.alloc(), &labelled_jobs())
}

#[test]
fn edges(rt: HostRuntime) -> Result<(), Fail> {
    check_jobs(&rt, rt.alloc(), &edge_jobs())
}
