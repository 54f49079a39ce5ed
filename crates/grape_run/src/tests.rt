ghost use Rattle.std.specs.Prelude.{◌≤◌, length, IfOk, vec_len};

use crate::lane_tests::{Answers, pacers_of};
use crate::notes::write_note;
use crate::{Status, Words, code, grape};
use grape_disk::{Disk, MemDisk};
use grape_port::{MemSink, MemSource, NoMemory};
use graph_text::Why;
use lane_loop::OpenGate;
use std::alloc::Global;
use std::sync::Wait;
use std::test::Fail;
use std::thread::Threads;

// The tables stand in functions of their own, so that the proofs of the tests don't see their bytes.

fn detour() -> &'static [u8] {
    b"query dist 1\n1 2 5\n2 3 1\n1 3 9\n"
}

/// The same, with a snapshot after each Take.
fn kept_detour() -> &'static [u8] {
    b"query dist 1\n1 2 5\n2 3 1\n1 3 9\nsnapshot 1\n"
}

/// The SHA-256 digest of that text.
const DETOUR_DIGEST: [u8; 32] = [
    0x61, 0x0a, 0x36, 0xfa, 0x2a, 0xa8, 0x75, 0xc8, 0x36, 0xfe, 0x5d, 0x00, 0x07, 0x76, 0x4a, 0x52,
    0x78, 0x33, 0x06, 0xb1, 0x36, 0xa4, 0xa4, 0xf1, 0x9d, 0xb3, 0xf6, 0xb7, 0x74, 0xb6, 0xf0, 0xd0,
];

fn bad(line: u64, why: Why) -> Status {
    Status::BadInput { line, why }
}

fn answer_table() -> [(&'static [u8], &'static [u8]); 9] {
    [
        (detour(), b"answer dist 3\n1 0\n2 5\n3 6\nend\n"),
        (
            b"query dist 1\n1 2 9\n1 2 4\n1 1 0\n2 2 7\n",
            b"answer dist 2\n1 0\n2 4\nend\n",
        ),
        (
            b"query dist 0\n0 4294967295 4294967295\n",
            b"answer dist 2\n0 0\n4294967295 4294967295\nend\n",
        ),
        (
            b"query dist 2\n1 2\n2 5\n",
            b"answer dist 3\n1 far\n2 0\n5 1\nend\n",
        ),
        (
            b"# Directed graph\r\n# FromNodeId\tToNodeId\r\nquery dist 0\r\n0\t11342\r\n0\t824020\r\n11342\t0",
            b"answer dist 3\n0 0\n11342 1\n824020 1\nend\n",
        ),
        (
            b"5 6 2\n\n% edges may stand before the query\nquery dist 6\n6 5 3",
            b"answer dist 2\n5 3\n6 0\nend\n",
        ),
        (b"query dist 3\n3 3 7\n", b"answer dist 1\n3 0\nend\n"),
        (
            b"query reach 1\nfragments 64\ncut range\n1 2\n",
            b"answer reach 2\n1 yes\n2 yes\nend\n",
        ),
        (
            b"# Directed graph\r\n# FromNodeId\tToNodeId\r\nquery reach 0\r\n0\t11342\r\n0\t824020\r\n11342\t0",
            b"answer reach 3\n0 yes\n11342 yes\n824020 yes\nend\n",
        ),
    ]
}

fn settings_table() -> [&'static [u8]; 12] {
    [
        b"",
        b"fragments 1\ncut range\n",
        b"fragments 1\ncut hash\n",
        b"fragments 2\ncut range\n",
        b"fragments 2\ncut hash\n",
        b"fragments 64\ncut range\n",
        b"fragments 64\ncut hash\n",
        b"fragments 3\npolicy bsp\n",
        b"fragments 3\npolicy ap\n",
        b"fragments 3\npolicy ssp 1\n",
        b"fragments 3\npolicy aap 2 2\n",
        b"fragments 3\nlanes 3\n",
    ]
}

fn cut_table() -> [(&'static [u8], &'static [u8]); 8] {
    [
        (b"query dist 7\nv 7 0\n", b"answer dist 1\n7 0\nend\n"),
        (
            b"query dist 1\nv 1\n2 3 0\n3 2 0\n",
            b"answer dist 3\n1 0\n2 far\n3 far\nend\n",
        ),
        (
            b"query dist 1\n1 2 9\n1 2 4\n1 1 0\n2 2 7\n",
            b"answer dist 2\n1 0\n2 4\nend\n",
        ),
        (b"query label\n", b"answer label 0\nend\n"),
        (
            b"query label\n1 2\n2 3\nv 4\n5 6\n6 1\n",
            b"answer label 6\n1 1\n2 1\n3 1\n4 4\n5 1\n6 1\nend\n",
        ),
        (
            b"query reach 2\n1 2\n2 5\n5 7\n",
            b"answer reach 4\n1 no\n2 yes\n5 yes\n7 yes\nend\n",
        ),
        (
            b"query sim\nnode 0 1\nnode 1 2\nlink 0 1\nlink 1 0\nv 1 1\nv 2 2\nv 3 1\nv 4 2\n1 2\n2 3\n3 4\n",
            b"answer sim 4\n1 -\n2 -\n3 -\n4 -\nend\n",
        ),
        (
            b"query sim\nnode 0 1\nnode 1 2\nlink 0 1\nlink 1 0\nv 1 1\nv 2 2\nv 3 1\nv 4 2\n1 2\n2 3\n3 4\n4 1\n",
            b"answer sim 4\n1 0\n2 1\n3 0\n4 1\nend\n",
        ),
    ]
}

/// Texts with their first bad line, why it is bad, and the end of its note.
fn bad_table() -> [(&'static [u8], u64, Why, &'static [u8]); 19] {
    [
        (b"query dist 0\n0 4294967296\n", 2, Why::Range, b"2: range"),
        (b"query dist 9\n1 2\n", 3, Why::NoSource, b"3: no-source"),
        (b"", 1, Why::NoQuery, b"1: no-query"),
        (b"hello", 1, Why::Word, b"1: word"),
        (b"query foo\n", 1, Why::Word, b"1: word"),
        (b"query\n", 1, Why::Count, b"1: count"),
        (b"1\n", 1, Why::Count, b"1: count"),
        (b"1 2 3 4\n", 1, Why::Count, b"1: count"),
        (b"1 x\n", 1, Why::Number, b"1: number"),
        (b"12a 3\n", 1, Why::Number, b"1: number"),
        (b"query dist 1\nquery dist 1\n", 2, Why::Twice, b"2: twice"),
        (b"\0\x01\xff\xfe\n\x80\0\n", 1, Why::Word, b"1: word"),
        (b"query dist 1\n1 2\nhello\n1 x\n", 3, Why::Word, b"3: word"),
        (b"query dist 1\n1 2\n1 -2\n", 3, Why::Number, b"3: number"),
        (b"query reach 9\n1 2\n", 3, Why::NoSource, b"3: no-source"),
        (b"fragments 65\n", 1, Why::Range, b"1: range"),
        (b"fragments 2\nfragments 2\n", 2, Why::Twice, b"2: twice"),
        (b"v 3\nv 3\n", 2, Why::Twice, b"2: twice"),
        (b"query dist 1\ncut foo\n", 2, Why::Word, b"2: word"),
    ]
}

fn note_table() -> [(Status, &'static [u8]); 12] {
    [
        (Status::Done, b""),
        (
            Status::BadWords,
            b"grape: usage: run, resume, or demo VERTICES NUMBER\n",
        ),
        (
            bad(18_446_744_073_709_551_615, Why::TooMany),
            b"grape: input line 18446744073709551615: too-many\n",
        ),
        (bad(7, Why::NoPattern), b"grape: input line 7: no-pattern\n"),
        (bad(10, Why::TooLong), b"grape: input line 10: too-long\n"),
        (Status::ReadFault, b"grape: read fault\n"),
        (Status::WriteFault, b"grape: write fault\n"),
        (Status::DiskFault, b"grape: disk fault\n"),
        (
            Status::StateThere {
                length: 272_000_210,
            },
            b"grape: state file has 272000210 bytes\n",
        ),
        (
            Status::OtherJob {
                kept: [0x47; 32],
                here: DETOUR_DIGEST,
            },
            b"grape: state of another job: 4747474747474747474747474747474747474747474747474747474747474747 not 610a36fa2aa875c836fe5d0007764a52783306b136a4a4f19db3f6b774b6f0d0\n",
        ),
        (
            Status::BadState { place: 65 },
            b"grape: state damaged at 65\n",
        ),
        (Status::NoMemory, b"grape: out of memory\n"),
    ]
}

fn word_table() -> [&'static str; 9] {
    [
        "",
        "run extra",
        "-h",
        "Run",
        "demo 0 1",
        "demo 1 5 5",
        "demo 5",
        "resume extra",
        "Resume",
    ]
}

fn words_of(alloc: Global, line: &str) -> Result<Words, NoMemory> {
    let mut words = Words::new(alloc);
    for word in line.split_ascii_whitespace() {
        words.push(word)?;
    }
    Ok(words)
}

/// What a run left.
#[derive(Drop)]
struct Outcome {
    status: Status,
    out: MemSink,
    note: MemSink,
}

/// A disk with these bytes, whose call with that number fails.
fn disk_of(alloc: Global, bytes: &[u8], fails: u64) -> Result<MemDisk, NoMemory>
    requires { length bytes.now ≤ 4096 }
{
    MemDisk::new(alloc, 4096, bytes, Vec::from_slice(alloc, &[fails])?, None)
}

/// Runs with ports that move at most `most` bytes at once, whose calls with these numbers fail, with an empty state file
/// and with calm pacers.
fn run_of<R: Threads + Wait + Sync + AllocGlobal>(
    rt: &R,
    words: &str,
    text: &[u8],
    most: usize,
    fails: [u64; 3],
) -> Result<Outcome, NoMemory>
    requires { 1 ≤ most }
{
    let mut disk = disk_of(rt.alloc(), b"", 0)?;
    run_on(rt, words, text, most, fails, &mut disk)
}

fn run_on<R: Threads + Wait + Sync + AllocGlobal>(
    rt: &R,
    words: &str,
    text: &[u8],
    most: usize,
    fails: [u64; 3],
    disk: &mut MemDisk,
) -> Result<Outcome, NoMemory>
    requires { 1 ≤ most }
{
    let alloc = rt.alloc();
    let words = words_of(alloc, words)?;
    let [read, write, note_write] = fails;
    let mut input = MemSource::new(
        Vec::from_slice(alloc, text)?,
        most,
        Vec::from_slice(alloc, &[read])?,
    );
    let mut out = MemSink::new(alloc, 4096, most, Vec::from_slice(alloc, &[write])?)?;
    let mut note = MemSink::new(alloc, 4096, most, Vec::from_slice(alloc, &[note_write])?)?;
    let pacers = pacers_of(alloc, &Answers::Calm)?;
    let finish = grape(
        rt, alloc, &words, &mut input, &mut out, &mut note, disk, pacers, &OpenGate,
    );
    let status = finish.status;
    Ok(Outcome { status, out, note })
}

#[test]
fn answers(rt: HostRuntime) -> Result<(), Fail> {
    for (text, want) in answer_table() {
        for most in [1, 7, 100_000] {
            let run = run_of(&rt, "run", text, most, [0, 0, 0])?;
            assert_eq!(rt; run.status, Status::Done, "of {text:?}");
            assert_eq!(rt; run.out.bytes(), want, "of {text:?}");
            assert!(rt; run.note.bytes().is_empty());
        }
    }
    Ok(())
}

/// A text with lines put before it.
fn joined(alloc: Global, front: &[u8], text: &[u8]) -> Result<Vec<u8>, NoMemory> {
    let mut whole = Vec::new(alloc);
    whole.extend_from_slice(front)?;
    whole.extend_from_slice(text)?;
    Ok(whole)
}

/// However the graph is cut, the answer is the same.
#[test]
fn answers_on_fragments(rt: HostRuntime) -> Result<(), Fail> {
    for settings in settings_table() {
        for (text, want) in cut_table() {
            let whole = joined(rt.alloc(), settings, text)?;
            let run = run_of(&rt, "run", &whole, 100, [0, 0, 0])?;
            assert_eq!(rt; run.status, Status::Done, "of {whole:?}");
            assert_eq!(rt; run.out.bytes(), want, "of {whole:?}");
            assert!(rt; run.note.bytes().is_empty());
        }
    }
    Ok(())
}

#[test]
fn bad_inputs(rt: HostRuntime) -> Result<(), Fail> {
    for (text, line, why, end) in bad_table() {
        let front = joined(rt.alloc(), b"grape: input line ", end)?;
        let note = joined(rt.alloc(), &front, b"\n")?;
        for most in [1, 7] {
            let run = run_of(&rt, "run", text, most, [0, 0, 0])?;
            assert_eq!(rt; run.status, bad(line, why), "of {text:?}");
            assert!(rt; run.out.bytes().is_empty());
            assert_eq!(rt; run.note.bytes(), note.as_slice(), "of {text:?}");
        }
    }
    Ok(())
}

#[test]
fn bad_words(rt: HostRuntime) -> Result<(), Fail> {
    for words in word_table() {
        let run = run_of(&rt, words, detour(), 8, [1, 1, 0])?;
        assert_eq!(rt; run.status, Status::BadWords, "of {words}");
        assert_eq!(rt; code(&run.status), 2);
        assert!(rt; run.out.bytes().is_empty());
    }
    Ok(())
}

/// A demo reads nothing, calls no disk, and writes its line of totals. The words of SplitMix64 from 5 lead from vertex 0 of
/// two to vertex 1 by an edge of weight 532, and from vertex 0 of three to vertex 1 by one of 610 and to vertex 2 by one of
/// 232, from which none to vertex 1 is shorter than 64.
#[test]
fn demos(rt: HostRuntime) -> Result<(), Fail> {
    let table = [
        ("demo 1 5", "summary dist 1 reached 1 sum 0 greatest 0\n"),
        (
            "demo 2 5",
            "summary dist 2 reached 2 sum 532 greatest 532\n",
        ),
        (
            "demo 0003 5",
            "summary dist 3 reached 3 sum 528 greatest 296\n",
        ),
    ];
    for (words, line) in table {
        let mut disk = disk_of(rt.alloc(), b"x", 1)?;
        let run = run_on(&rt, words, b"hello", 100, [1, 0, 0], &mut disk)?;
        assert_eq!(rt; run.status, Status::Done, "of {words}");
        assert_eq!(rt; run.out.bytes(), line.as_bytes(), "of {words}");
        assert_eq!(rt; disk.calls(), 0);
    }
    Ok(())
}

#[test]
fn a_demo_that_cant_be_written(rt: HostRuntime) -> Result<(), Fail> {
    let run = run_of(&rt, "demo 1 5", b"", 4, [0, 3, 0])?;
    assert_eq!(rt; run.status, Status::WriteFault);
    assert_eq!(rt; run.out.bytes(), b"summary ".as_slice());
    Ok(())
}

#[test]
fn failing_reads_and_writes(rt: HostRuntime) -> Result<(), Fail> {
    let read = run_of(&rt, "run", detour(), 8, [2, 0, 0])?;
    assert_eq!(rt; read.status, Status::ReadFault);
    assert!(rt; read.out.bytes().is_empty());
    let write = run_of(&rt, "run", detour(), 4, [0, 3, 3])?;
    assert_eq!(rt; write.status, Status::WriteFault);
    assert_eq!(rt; write.out.bytes(), b"answer d".as_slice());
    assert_eq!(rt; write.note.bytes(), b"grape: w".as_slice());

    // The eight writes of the 30 bytes pass, and the flush behind them fails.
    let flush = run_of(&rt, "run", detour(), 4, [0, 9, 0])?;
    assert_eq!(rt; flush.status, Status::WriteFault);
    assert_eq!(rt; flush.out.bytes().len(), 30);
    Ok(())
}

/// A file of the job behind kept_detour, long enough, with an open gate and this digest, and else zeros.
fn file_of(alloc: Global, digest: &[u8; 32]) -> Result<Vec<u8>, NoMemory>
    ensures { IfOk result (λ file. vec_len file ≤ 4096) }
{
    let mut file = vec![in alloc; 0; 4096]?;
    let bytes = file.as_mut_slice();
    bytes[0] = b'G';
    for place in 0..32 {
        bytes[8 + place] = digest[place];
    }
    Ok(file)
}

/// The status of a command on a state file with these bytes, where the disk's call with that number fails.
fn status_on<R: Threads + Wait + Sync + AllocGlobal>(
    rt: &R,
    words: &str,
    text: &[u8],
    bytes: &[u8],
    fails: u64,
) -> Result<Status, NoMemory>
    requires { length bytes.now ≤ 4096 }
{
    let mut disk = disk_of(rt.alloc(), bytes, fails)?;
    let run = run_on(rt, words, text, 100, [0, 0, 0], &mut disk)?;
    Ok(run.status)
}

#[test]
fn refused_state_files(rt: HostRuntime) -> Result<(), Fail> {
    let other = file_of(rt.alloc(), &[0x47; 32])?;
    let own = file_of(rt.alloc(), &DETOUR_DIGEST)?;
    let text = kept_detour();
    assert_eq!(rt;
        status_on(&rt, "run", text, b"x", 0)?,
        Status::StateThere { length: 1 }
    );
    assert_eq!(rt; status_on(&rt, "run", text, b"", 1)?, Status::DiskFault);
    assert_eq!(rt;
        status_on(&rt, "resume", text, other.as_slice(), 0)?,
        Status::OtherJob {
            kept: [0x47; 32],
            here: DETOUR_DIGEST
        }
    );
    assert_eq!(rt;
        status_on(&rt, "resume", text, own.as_slice(), 0)?,
        Status::BadState { place: 1 }
    );
    assert_eq!(rt; status_on(&rt, "resume", text, b"", 1)?, Status::DiskFault);
    Ok(())
}

/// Without snapshots a run makes no call of the disk, whatever stands there.
#[test]
fn no_snapshots_no_disk(rt: HostRuntime) -> Result<(), Fail> {
    let mut disk = disk_of(rt.alloc(), b"x", 1)?;
    let run = run_on(&rt, "run", detour(), 100, [0, 0, 0], &mut disk)?;
    assert_eq!(rt; run.status, Status::Done);
    assert_eq!(rt; disk.calls(), 0);
    Ok(())
}

#[test]
fn notes(rt: HostRuntime) -> Result<(), Fail> {
    for (status, want) in note_table() {
        let mut note = MemSink::new(rt.alloc(), 200, 7, Vec::new(rt.alloc()))?;
        write_note(&mut note, &status);
        assert_eq!(rt; note.bytes(), want, "of {status:?}");
    }
    Ok(())
}
