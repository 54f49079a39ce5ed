//! Lines of settings that are refused.

use super::check_refused;
use crate::Why;

// The tables stand in functions of their own, so that the proofs of the tests don't see their bytes.

fn bad_fragments_and_cuts() -> [(&'static [u8], u64, Why); 24] {
    [
        (b"fragment 2", 1, Why::Word),
        (b"Fragments 2", 1, Why::Word),
        (b"fragments", 1, Why::Count),
        (b"fragments 2 2", 1, Why::Count),
        (b"fragments x 2", 1, Why::Count),
        (b"fragments x", 1, Why::Number),
        (b"fragments -1", 1, Why::Number),
        (b"fragments 0", 1, Why::Range),
        (b"query dist 0\nfragments 65\n0 1\n", 2, Why::Range),
        (b"fragments 4294967297", 1, Why::Range),
        (b"fragments 64\nfragments 64\n", 2, Why::Twice),
        (b"fragments 1\n1 2\nfragments 2\nhello", 3, Why::Twice),
        (b"fragments 3\nfragments 0\nfragments 3", 2, Why::Range),
        (b"cut", 1, Why::Count),
        (b"cut up", 1, Why::Word),
        (b"cut up 1", 1, Why::Word),
        (b"cut ranges", 1, Why::Word),
        (b"cut 1", 1, Why::Word),
        (b"cut range 1", 1, Why::Count),
        (b"cut hash range", 1, Why::Count),
        (b"cut hash\ncut hash", 2, Why::Twice),
        (b"# no cut\ncut range\r\n\ncut hash\r\n", 4, Why::Twice),
        (b"cuts range", 1, Why::Word),
        (b"cut range\nfragments 2\n", 3, Why::NoQuery),
    ]
}

fn bad_lanes() -> [(&'static [u8], u64, Why); 14] {
    [
        (b"lane 2", 1, Why::Word),
        (b"Lanes 2", 1, Why::Word),
        (b"lanes", 1, Why::Count),
        (b"lanes 2 2", 1, Why::Count),
        (b"lanes x 2", 1, Why::Count),
        (b"lanes x", 1, Why::Number),
        (b"lanes 18446744073709551616", 1, Why::Number),
        (b"lanes 0", 1, Why::Range),
        (b"query label\nlanes 17\n", 2, Why::Range),
        (b"lanes 4294967298", 1, Why::Range),
        (b"lanes 1\nlanes 1", 2, Why::Twice),
        (b"lanes 16\nfragments 2\nlanes 2\nhello\n", 3, Why::Twice),
        (b"lanes 2\nlanes 17\nlanes 2", 2, Why::Range),
        (b"lanes 3\nfragments 3\n", 3, Why::NoQuery),
    ]
}

fn bad_snapshots() -> [(&'static [u8], u64, Why); 15] {
    [
        (b"snapshots 2", 1, Why::Word),
        (b"Snapshot 2", 1, Why::Word),
        (b"snapshot", 1, Why::Count),
        (b"snapshot 2 2", 1, Why::Count),
        (b"snapshot x 2", 1, Why::Count),
        (b"snapshot x", 1, Why::Number),
        (b"snapshot -1", 1, Why::Number),
        (b"snapshot 18446744073709551616", 1, Why::Number),
        (b"snapshot 4294967296", 1, Why::Range),
        (
            b"query label\nsnapshot 18446744073709551615\n",
            2,
            Why::Range,
        ),
        (b"snapshot 0\nsnapshot 0", 2, Why::Twice),
        (b"snapshot 1\nlanes 2\nsnapshot 2\nhello\n", 3, Why::Twice),
        (
            b"snapshot 2\nsnapshot 4294967296\nsnapshot 2",
            2,
            Why::Range,
        ),
        (b"snapshot 4294967296\nsnapshot", 1, Why::Range),
        (b"snapshot 3\nfragments 3\n", 3, Why::NoQuery),
    ]
}

fn bad_policies() -> [(&'static [u8], u64, Why); 34] {
    [
        (b"Policy ap", 1, Why::Word),
        (b"bsp", 1, Why::Word),
        (b"policy", 1, Why::Count),
        (b"policy\t\r\n", 1, Why::Count),
        (b"policy foo", 1, Why::Word),
        (b"policy foo 1 2 3", 1, Why::Word),
        (b"policy 4", 1, Why::Word),
        (b"policy AP", 1, Why::Word),
        (b"policy aaps 4 2", 1, Why::Word),
        (b"policy bsp 0", 1, Why::Count),
        (b"policy ap 3", 1, Why::Count),
        (b"policy ap x", 1, Why::Count),
        (b"policy ssp", 1, Why::Count),
        (b"policy ssp 1 2", 1, Why::Count),
        (b"policy ssp 1000001 2", 1, Why::Count),
        (b"policy ssp c", 1, Why::Number),
        (b"policy ssp -1", 1, Why::Number),
        (b"policy ssp 1000001", 1, Why::Range),
        (b"policy ssp 4294967296", 1, Why::Range),
        (b"policy aap", 1, Why::Count),
        (b"policy aap 4", 1, Why::Count),
        (b"policy aap 4 2 1", 1, Why::Count),
        (b"policy aap 4 l", 1, Why::Number),
        (b"policy aap 1000001 l", 1, Why::Number),
        (b"policy aap c 0", 1, Why::Number),
        (b"policy aap 4 0", 1, Why::Range),
        (b"policy aap 4 1000001", 1, Why::Range),
        (b"query label\npolicy aap 1000001 2\n", 2, Why::Range),
        (b"policy aap 4294967300 2", 1, Why::Range),
        (b"policy ap\npolicy ap\n", 2, Why::Twice),
        (b"policy bsp\n1 2\npolicy aap 4 2\nhello", 3, Why::Twice),
        (b"policy ssp 1\npolicy ssp 2", 2, Why::Twice),
        (b"policy aap 4 2\npolicy aap 4 0\npolicy bsp", 2, Why::Range),
        (b"policy aap 4 2\nlanes 2\ncut hash\n", 4, Why::NoQuery),
    ]
}

#[test]
fn bad_settings(rt: HostRuntime) {
    check_refused(&rt, rt.alloc(), &bad_fragments_and_cuts());
    check_refused(&rt, rt.alloc(), &bad_lanes());
    check_refused(&rt, rt.alloc(), &bad_snapshots());
    check_refused(&rt, rt.alloc(), &bad_policies());
}
