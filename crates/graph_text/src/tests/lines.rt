//! How long a line may be.

use super::feed;
use crate::{LineReader, TextFault, Why};
use std::test::Fail;

#[test]
fn long_lines(rt: HostRuntime) -> Result<(), Fail> {
    let comment = vec![in rt.alloc(); b'#'; 4097]?;
    let long = Err(TextFault::Bad {
        line: 2,
        why: Why::TooLong,
    });
    for size in [1usize, 1000, 4096] {
        let mut reader = LineReader::new(rt.alloc())?;
        assert_eq!(rt; reader.feed(b"# one\n"), Ok(()));
        assert_eq!(rt; feed(&mut reader, &comment[..4096], size), Ok(()));
        assert_eq!(rt; reader.feed(b"#"), long);
        assert_eq!(rt; reader.feed(b"\nhello\n"), long);
        assert_eq!(rt; reader.finish().err(), long.err());
    }
    Ok(())
}

#[test]
fn longest_lines(rt: HostRuntime) -> Result<(), Fail> {
    let comment = vec![in rt.alloc(); b'#'; 4096]?;
    let long = TextFault::Bad {
        line: 3,
        why: Why::TooLong,
    };
    let mut reader = LineReader::new(rt.alloc())?;
    assert_eq!(rt; reader.feed(&comment), Ok(()));
    assert_eq!(rt; reader.feed(b"\n"), Ok(()));
    assert_eq!(rt; reader.feed(&comment[..4095]), Ok(()));
    assert_eq!(rt; reader.feed(b"\r\n"), Ok(()));
    assert_eq!(rt; reader.feed(&comment), Ok(()));
    assert_eq!(rt; reader.feed(b"\r\n"), Err(long));
    Ok(())
}
