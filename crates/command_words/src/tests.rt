use crate::{Mode, WordFault, Words, read_words};
use grape_port::NoMemory;
use std::alloc::Global;
use std::test::Fail;

fn words_of(alloc: Global, texts: &[&str]) -> Result<Words, NoMemory> {
    let mut words = Words::new(alloc);
    for text in texts {
        words.push(text)?;
    }
    Ok(words)
}

const fn demo(vertices: u32, number: u64) -> Mode {
    Mode::Demo { vertices, number }
}

#[test]
fn words_of_the_grammar_are_read(rt: HostRuntime) -> Result<(), Fail> {
    let table: [(&[&str], Mode); 6] = [
        (&["run"], Mode::Run),
        (&["resume"], Mode::Resume),
        (&["demo", "1", "5"], demo(1, 5)),
        (&["demo", "0001", "00000"], demo(1, 0)),
        (
            &["demo", "1000000", "18446744073709551615"],
            demo(1_000_000, u64::MAX),
        ),
        (&["demo", "00000000000000000007", "7"], demo(7, 7)),
    ];
    for (texts, mode) in table {
        let words = words_of(rt.alloc(), texts)?;
        assert_eq!(rt; read_words(rt.alloc(), &words), Ok(mode), "{texts:?}");
    }
    Ok(())
}

#[test]
fn other_words_are_refused(rt: HostRuntime) -> Result<(), Fail> {
    let table: [&[&str]; 22] = [
        &[],
        &[""],
        &["--"],
        &["-h"],
        &["--help"],
        &["help"],
        &["--version"],
        &["Run"],
        &["run", "extra"],
        &["run", ""],
        &["run", "--", ""],
        &["resume", "run"],
        &["demo"],
        &["demo", "5"],
        &["demo", "0", "7"],
        &["demo", "0", "1"],
        &["demo", "1000001", "7"],
        &["demo", "7", "18446744073709551616"],
        &["demo", "000000000000000000001", "7"],
        &["demo", "+1", "7"],
        &["demo", "1", "-7"],
        &["demo", "1", "2", "3"],
    ];
    for texts in table {
        let words = words_of(rt.alloc(), texts)?;
        assert_eq!(rt;
            read_words(rt.alloc(), &words),
            Err(WordFault::Bad),
            "{texts:?}"
        );
    }
    Ok(())
}
