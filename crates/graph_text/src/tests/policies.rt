//! The lanes, the policy and the snapshots of a job.

use super::feed;
use crate::LineReader;
use graph_core::Policy;
use std::test::Fail;

/// Lines that give the lanes or the policy, and which these are.
fn policy_table() -> [(&'static [u8], u32, Policy); 12] {
    let missing = Policy::Aap { c: 4, l: 2 };
    [
        (b"", 2, missing),
        (b"lanes 1", 1, missing),
        (b"lanes 16\r\n", 16, missing),
        (b"policy bsp", 2, Policy::Bsp),
        (
            b"policy ap\nlanes 3\nfragments 2\ncut range\n",
            3,
            Policy::Ap,
        ),
        (b"policy ssp 0", 2, Policy::Ssp { c: 0 }),
        (
            b" policy\tssp  1000000 \nlanes 016",
            16,
            Policy::Ssp { c: 1_000_000 },
        ),
        (b"policy aap 0 1", 2, Policy::Aap { c: 0, l: 1 }),
        (
            b"policy aap 1000000 1",
            2,
            Policy::Aap { c: 1_000_000, l: 1 },
        ),
        (
            b"policy aap 0 1000000",
            2,
            Policy::Aap { c: 0, l: 1_000_000 },
        ),
        (
            b"lanes 8\npolicy aap 3 5\r\n",
            8,
            Policy::Aap { c: 3, l: 5 },
        ),
        (
            b"# policy bsp\npolicy aap 5 3",
            2,
            Policy::Aap { c: 5, l: 3 },
        ),
    ]
}

/// Lines that give the Takes from one snapshot to the next, and how many these are.
fn snapshot_table() -> [(&'static [u8], u32); 6] {
    [
        (b"", 0),
        (b"snapshot 0\n", 0),
        (b"snapshot 1", 1),
        (b"lanes 1\n snapshot\t002 \r\npolicy ap\n", 2),
        (b"# snapshot 7\nsnapshot 4294967294\n1 2", 4_294_967_294),
        (b"snapshot 4294967295\r\n", 4_294_967_295),
    ]
}

#[test]
fn snapshots(rt: HostRuntime) -> Result<(), Fail> {
    for (lines, snapshot) in snapshot_table() {
        for size in [1usize, 3, 4096] {
            let mut reader = LineReader::new(rt.alloc())?;
            assert_eq!(rt; reader.feed(b"query label\n"), Ok(()));
            assert_eq!(rt; feed(&mut reader, lines, size), Ok(()));
            let Ok(job) = reader.finish() else {
                panic!(rt; "no job of {lines:?} in pieces of {size}")
            };
            assert_eq!(rt; job.settings.snapshot, snapshot);
        }
    }
    Ok(())
}

#[test]
fn policies(rt: HostRuntime) -> Result<(), Fail> {
    for (lines, lanes, policy) in policy_table() {
        for size in [1usize, 3, 4096] {
            let mut reader = LineReader::new(rt.alloc())?;
            assert_eq!(rt; reader.feed(b"query label\n"), Ok(()));
            assert_eq!(rt; feed(&mut reader, lines, size), Ok(()));
            let Ok(job) = reader.finish() else {
                panic!(rt; "no job of {lines:?} in pieces of {size}")
            };
            assert_eq!(rt; job.settings.lanes, lanes);
            assert_eq!(rt; job.settings.policy, policy);
            assert_eq!(rt; job.settings.snapshot, 0);
        }
    }
    Ok(())
}
