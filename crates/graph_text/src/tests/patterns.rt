//! The pattern of a simulation, and how many links it may have.

use super::read;
use crate::{LineReader, TextFault, Why};
use graph_core::{PatternLink, PatternNode, Query};
use std::test::Fail;

#[test]
fn patterns(rt: HostRuntime) {
    let nodes: [PatternNode; 3] = [
        PatternNode {
            number: 63,
            label: 7,
        },
        PatternNode {
            number: 0,
            label: 4294967295,
        },
        PatternNode {
            number: 5,
            label: 7,
        },
    ];
    let links: [PatternLink; 4] = [
        PatternLink { from: 63, to: 0 },
        PatternLink { from: 5, to: 5 },
        PatternLink { from: 0, to: 5 },
        PatternLink { from: 63, to: 0 },
    ];
    let text =
        b"link 63 0\nnode 63 7\nlink 5 5\nquery sim\nnode 0 4294967295\n1 2\nlink\t0 5\r\nnode 5 007\nlink 63 0";
    for size in [1usize, 3, 4096] {
        let Ok(job) = read(rt.alloc(), text, size) else {
            panic!(rt; "no job of pieces of {size}")
        };
        assert_eq!(rt; job.graph.count(), 2);
        let Query::Sim(pattern) = &job.query else {
            panic!(rt; "another query of pieces of {size}")
        };
        assert_eq!(rt; pattern.nodes.as_slice(), nodes.as_slice());
        assert_eq!(rt; pattern.links.as_slice(), links.as_slice());
    }
}

#[test]
fn many_links(rt: HostRuntime) -> Result<(), Fail> {
    let mut reader = LineReader::new(rt.alloc())?;
    assert_eq!(rt; reader.feed(b"query sim\nnode 0 0\n"), Ok(()));
    for _ in 0..4096 {
        assert_eq!(rt; reader.feed(b"link 0 0\n"), Ok(()));
    }
    let many = TextFault::Bad {
        line: 4099,
        why: Why::TooMany,
    };
    assert_eq!(rt; reader.feed(b"link 0 0\n"), Err(many));
    Ok(())
}
