//! The texts that are run.

use grape_port::NoMemory;
use rand_core::SeedableRng;
use rand_core::utils::NextWord;
use rand_xoshiro::SplitMix64;
use std::alloc::Global;

// The texts stand in functions of their own, so that the proofs of the tests don't see their bytes.

/// One vertex, with a snapshot after its only Take.
pub(crate) fn alone() -> &'static [u8] {
    b"query dist 7\nfragments 1\nlanes 1\nsnapshot 1\nv 7 0\n"
}

pub(crate) fn alone_answer() -> &'static [u8] {
    b"answer dist 1\n7 0\nend\n"
}

/// Repeated edges and loops, without snapshots.
pub(crate) fn repeated() -> &'static [u8] {
    b"query dist 1\n1 2 9\n1 2 4\n1 1 0\n2 2 7\n"
}

/// A way of three vertices and a longer edge past the second, with a snapshot after each Take.
pub(crate) fn detour() -> &'static [u8] {
    b"query dist 1\n1 2 5\n2 3 1\n1 3 9\nfragments 3\nlanes 1\nsnapshot 1\n"
}

pub(crate) fn detour_answer() -> &'static [u8] {
    b"answer dist 3\n1 0\n2 5\n3 6\nend\n"
}

/// The chain 5, 6, 1, 2, 3 over three fragments of two vertices, and vertex 4 alone.
pub(crate) fn joined() -> &'static [u8] {
    b"query label\nfragments 3\ncut range\npolicy ap\nsnapshot 2\nlanes 2\n1 2\n2 3\nv 4\n5 6\n6 1\n"
}

pub(crate) fn joined_answer() -> &'static [u8] {
    b"answer label 6\n1 1\n2 1\n3 1\n4 4\n5 1\n6 1\nend\n"
}

/// The same without snapshots, on one lane and on more, by a line that says so and without one.
pub(crate) fn joined_plain() -> [&'static [u8]; 3] {
    [
        b"query label\nfragments 3\nlanes 1\n1 2\n2 3\nv 4\n5 6\n6 1\n",
        b"query label\nfragments 3\nlanes 1\nsnapshot 0\n1 2\n2 3\nv 4\n5 6\n6 1\n",
        b"query label\nfragments 3\nlanes 3\nsnapshot 0\n1 2\n2 3\nv 4\n5 6\n6 1\n",
    ]
}

/// Words that ask for nothing, and inputs with a bad line, beside snapshots.
pub(crate) fn refused_commands() -> [(&'static str, &'static [u8]); 5] {
    [
        ("runs", b"query dist 7\nsnapshot 1\nv 7\n"),
        ("", b"query dist 7\nsnapshot 1\nv 7\n"),
        ("run", b"query dist 7\nsnapshot 1\n"),
        ("resume", b"query dist 7\nsnapshot 1\nv 8\n"),
        ("resume", b"snapshot 4294967296\nquery dist 7\nv 7\n"),
    ]
}

/// The pattern is a cycle of two labels, and a node without links.
pub(crate) fn query_table() -> [&'static str; 4] {
    [
        "query dist 1\n",
        "query label\n",
        "query reach 1\n",
        "query sim\nnode 0 1\nnode 1 2\nnode 2 0\nlink 0 1\nlink 1 0\n",
    ]
}

/// How many vertices a drawn graph has.
const VERTICES: u64 = 7;

/// So many edges between vertices, which a number draws, a way from the vertex 1, and a label for each vertex.
pub(crate) fn drawn(alloc: Global, number: u64, edges: u32) -> Result<String, NoMemory> {
    let mut words = SplitMix64::seed_from_u64(number);
    let mut lines = String::from_str(alloc, "1 7 4\n7 3 4\n3 6 4\n")?;
    for _ in 0..edges {
        let word = words.next_word();
        let from = word % VERTICES;
        let to = (word / 16) % VERTICES;
        let weight = (word / 256) % 16;
        let line = format!(in alloc;
            "{} {} {weight}\n",
            from.saturating_add(1),
            to.saturating_add(1)
        )?;
        lines.push_str(line.as_str())?;
    }
    for vertex in 1..=VERTICES {
        let line = format!(in alloc; "v {vertex} {}\n", vertex % 3)?;
        lines.push_str(line.as_str())?;
    }
    Ok(lines)
}

/// A text of these settings, this query and these lines, with a snapshot after so many Takes.
pub(crate) fn text_of(
    alloc: Global,
    settings: &str,
    snapshot: u32,
    query: &str,
    lines: &str,
) -> Result<String, NoMemory> {
    let mut text = String::from_str(alloc, settings)?;
    let line = format!(in alloc; "snapshot {snapshot}\n")?;
    text.push_str(line.as_str())?;
    text.push_str(query)?;
    text.push_str(lines)?;
    Ok(text)
}
