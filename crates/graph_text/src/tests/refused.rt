//! Lines that are refused, but for those of settings.

use super::check_refused;
use crate::Why;

// The tables stand in functions of their own, so that the proofs of the tests don't see their bytes.

fn bad_table() -> [(&'static [u8], u64, Why); 22] {
    [
        (b"hello", 1, Why::Word),
        (b"query foo", 1, Why::Word),
        (b"query\tdist 0\nsnapshots 2\n", 2, Why::Word),
        (b"-1 2", 1, Why::Word),
        (b"query", 1, Why::Count),
        (b"query dist", 1, Why::Count),
        (b"1", 1, Why::Count),
        (b"1 2 3 4", 1, Why::Count),
        (b"1 x", 1, Why::Number),
        (b"1 +2", 1, Why::Number),
        (b"12a 3", 1, Why::Number),
        (b"query dist 1\n1 2\r\r", 2, Why::Number),
        (b"query dist 0\n0 4294967296\n", 2, Why::Range),
        (b"query dist 4294967296\n", 1, Why::Range),
        (b"query dist 1\nquery dist 1", 2, Why::Twice),
        (b"query dist 1\n1 2\nquery dist 1\nhello\n", 3, Why::Twice),
        (b"", 1, Why::NoQuery),
        (b"\n\n", 3, Why::NoQuery),
        (b"# one\r\n1 2\r\n% two", 4, Why::NoQuery),
        (b"query dist 9\n1 2\n", 3, Why::NoSource),
        (b"query dist 9\n1 2", 3, Why::NoSource),
        (b"query dist 9", 2, Why::NoSource),
    ]
}

fn bad_queries() -> [(&'static [u8], u64, Why); 20] {
    [
        (b"query sims", 1, Why::Word),
        (b"query labels", 1, Why::Word),
        (b"query reaches x", 1, Why::Word),
        (b"label", 1, Why::Word),
        (b"query label 1", 1, Why::Count),
        (b"query label x", 1, Why::Count),
        (b"query reach", 1, Why::Count),
        (b"query reach x 1", 1, Why::Count),
        (b"query reach x", 1, Why::Number),
        (b"query reach 184467440737095516160", 1, Why::Number),
        (b"query reach 4294967296", 1, Why::Range),
        (b"query label\nquery reach 1", 2, Why::Twice),
        (b"query label\nquery label\n", 2, Why::Twice),
        (b"query dist 1\n1 2\nquery label\nhello\n", 3, Why::Twice),
        (b"query reach 1\nquery reach\n", 2, Why::Count),
        (b"query reach 9\n1 2", 3, Why::NoSource),
        (b"query reach 9\n1 2\n", 3, Why::NoSource),
        (b"1 9\nquery reach 0", 3, Why::NoSource),
        (b"query reach 9", 2, Why::NoSource),
        (b"query label\n1 x\n", 2, Why::Number),
    ]
}

fn bad_vertices() -> [(&'static [u8], u64, Why); 18] {
    [
        (b"V 1", 1, Why::Word),
        (b"v1", 1, Why::Word),
        (b"v", 1, Why::Count),
        (b"v 1 2 3", 1, Why::Count),
        (b"v x 2 3", 1, Why::Count),
        (b"v x", 1, Why::Number),
        (b"v 1 x", 1, Why::Number),
        (b"v 4294967296 x", 1, Why::Number),
        (b"v x 4294967296", 1, Why::Number),
        (b"v 4294967296", 1, Why::Range),
        (b"v 4294967296 1", 1, Why::Range),
        (b"v 1 4294967296", 1, Why::Range),
        (b"v 3\nv 3\n", 2, Why::Twice),
        (b"v 3 1\nv 4 1\n3 4\nv 3 2\nhello\n", 4, Why::Twice),
        (b"3 4\nv 3\nv 03 7", 3, Why::Twice),
        (b"v 3\nv 3 x\n", 2, Why::Number),
        (b"query dist 9\nv 8 9\n", 3, Why::NoSource),
        (b"v 7 0", 2, Why::NoQuery),
    ]
}

fn bad_patterns() -> [(&'static [u8], u64, Why); 22] {
    [
        (b"query sim", 2, Why::NoPattern),
        (b"query sim\n", 2, Why::NoPattern),
        (b"query sim 1", 1, Why::Count),
        (b"query sim\nquery sim\n", 2, Why::Twice),
        (b"Node 1 1", 1, Why::Word),
        (b"node", 1, Why::Count),
        (b"node 0", 1, Why::Count),
        (b"node 0 0 0", 1, Why::Count),
        (b"node x 0", 1, Why::Number),
        (b"node 64 x", 1, Why::Number),
        (b"node 64 0", 1, Why::Range),
        (b"node 256 0", 1, Why::Range),
        (b"node 63 4294967296", 1, Why::Range),
        (b"node 1 1\nnode 1 2", 2, Why::Twice),
        (
            b"query dist 1\n1 2\nnode 63 5\nnode 063 5\nhello\n",
            4,
            Why::Twice,
        ),
        (b"link 0", 1, Why::Count),
        (b"link 0 0 0", 1, Why::Count),
        (b"link 0 x", 1, Why::Number),
        (b"link 64 0", 1, Why::Range),
        (b"query dist 1\nlink 0 64\n1 2", 2, Why::Range),
        (b"query sim\nnode 0 0\nlink 0 1\n", 4, Why::NoPattern),
        (b"link 1 0\nquery sim\nnode 0 0", 4, Why::NoPattern),
    ]
}

/// Edges that are bad behind one that is written plainly.
fn bad_edges() -> [(&'static [u8], u64, Why); 10] {
    [
        (b"1 2\n1 4294967296\n", 2, Why::Range),
        (b"1 2\n4294967296 1 1\n", 2, Why::Range),
        (b"1 2 3\n1 2 9999999999\n1 2\n", 2, Why::Range),
        (b"1 2\n10000000000 1\n", 2, Why::Range),
        (b"1 2\n1 2 3 4\n1 2\n", 2, Why::Count),
        (b"1 2\n1\n2 3\n", 2, Why::Count),
        (b"1 2\n1 \n2 3\n", 2, Why::Count),
        (b"1 2\n1 2x\n2 3\n", 2, Why::Number),
        (b"1 2\n1 2 x\n2 3\n", 2, Why::Number),
        (b"1 2\n1 2\n", 3, Why::NoQuery),
    ]
}

#[test]
fn bad_lines(rt: HostRuntime) {
    check_refused(&rt, rt.alloc(), &bad_table());
    check_refused(&rt, rt.alloc(), &bad_queries());
    check_refused(&rt, rt.alloc(), &bad_vertices());
    check_refused(&rt, rt.alloc(), &bad_patterns());
    check_refused(&rt, rt.alloc(), &bad_edges());
}
