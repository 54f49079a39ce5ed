use crate::{
    Failed, MemSink, MemSource, NoMemory, Sink, Source, StdSink, StdSource, read_number, write_all,
};
use std::alloc::Global;
use std::io::{self, ErrorKind, Read, Write};
use std::test::Fail;

#[test]
fn numbers(rt: HostRuntime) {
    let table: [(&[u8], Option<u64>); 10] = [
        (b"0", Some(0)),
        (b"907", Some(907)),
        (b"18446744073709551615", Some(18_446_744_073_709_551_615)),
        (b"18446744073709551616", None),
        (b"99999999999999999999", None),
        (b"00000000000000000000", Some(0)),
        (b"000000000000000000000", None),
        (b"+1", None),
        (b"1:", None),
        (b"", None),
    ];
    for (text, want) in table {
        assert_eq!(rt; read_number(text), want, "of {text:?}");
    }
}

#[test]
fn a_read_fails_and_the_next_goes_on(rt: HostRuntime) -> Result<(), Fail> {
    let text = Vec::from_slice(rt.alloc(), b"graph 3 2\nvertex 1\n")?;
    let fails = Vec::from_slice(rt.alloc(), &[2])?;
    let mut source = MemSource::new(text, 8, fails);
    let table: [(Result<usize, Failed>, &[u8]); 5] = [
        (Ok(8), b"graph 3 "),
        (Err(Failed), b"graph 3 "),
        (Ok(8), b"2\nvertex"),
        (Ok(3), b" 1\nertex"),
        (Ok(0), b" 1\nertex"),
    ];
    let mut to = [0u8; 16];
    for (want, bytes) in table {
        assert_eq!(rt; source.read(&mut to), want);
        assert!(rt; to.starts_with(bytes));
    }
    Ok(())
}

#[test]
fn a_write_fails_and_a_front_stays(rt: HostRuntime) -> Result<(), Fail> {
    let fails = Vec::from_slice(rt.alloc(), &[3, 5])?;
    let mut sink = MemSink::new(rt.alloc(), 12, 4, fails)?;
    assert_eq!(rt; write_all(&mut sink, b"answer dist 3\n"), Err(Failed));
    assert_eq!(rt; sink.bytes(), b"answer d".as_slice());
    assert_eq!(rt; sink.write(b"ist"), Ok(3));
    assert_eq!(rt; sink.flush(), Err(Failed));
    assert_eq!(rt; sink.flush(), Ok(()));
    Ok(())
}

#[test]
fn a_full_sink_takes_nothing(rt: HostRuntime) -> Result<(), Fail> {
    let mut sink = MemSink::new(rt.alloc(), 6, 4, Vec::new(rt.alloc()))?;
    let table: [(&[u8], Result<usize, Failed>); 4] = [
        (b"answer", Ok(4)),
        (b"er ", Ok(2)),
        (b" ", Err(Failed)),
        (b"", Ok(0)),
    ];
    for (bytes, want) in table {
        assert_eq!(rt; sink.write(bytes), want);
    }
    assert_eq!(rt; sink.bytes(), b"answer".as_slice());
    Ok(())
}

// Gives two bytes, fails, and gives a last one.
#[derive(Drop)]
struct Broken {
    calls: u64,
}

impl Read for Broken {
    fn read(&mut self, buf: &mut [u8]) -> io::Result<usize> {
        self.calls = self.calls.saturating_add(1);
        if self.calls == 2 {
            return Err(io::Error::from(ErrorKind::Interrupted));
        }
        let bytes = match self.calls {
            1 => b"ab".as_slice(),
            3 => b"c".as_slice(),
            _ => b"".as_slice(),
        };
        let count = bytes.len().min(buf.len());
        buf[..count].copy_from_slice(&bytes[..count]);
        Ok(count)
    }
}

// Takes nothing, and can't be flushed.
#[derive(Drop)]
struct Stuffed;

impl Write for Stuffed {
    fn write(&mut self, _buf: &[u8]) -> io::Result<usize> {
        Ok(0)
    }

    fn flush(&mut self) -> io::Result<()> {
        Err(io::Error::from(ErrorKind::Other))
    }
}

#[test]
fn a_reader_of_std(rt: HostRuntime) {
    let mut source = StdSource::new(b"vertex".as_slice());
    let table: [(usize, &[u8]); 3] = [(4, b"vert"), (2, b"exrt"), (0, b"exrt")];
    let mut to = [0u8; 4];
    for (count, bytes) in table {
        assert_eq!(rt; source.read(&mut to), Ok(count));
        assert!(rt; to.starts_with(bytes));
    }
}

#[test]
fn a_broken_reader(rt: HostRuntime) {
    let mut source = StdSource::new(Broken { calls: 0 });
    let mut to = [0u8; 4];
    for want in [Ok(2), Err(Failed), Ok(1), Ok(0)] {
        assert_eq!(rt; source.read(&mut to), want);
    }
    assert!(rt; to.starts_with(b"cb"));
}

#[test]
fn a_writer_of_std(rt: HostRuntime) {
    let mut text: Vec<u8> = Vec::new(rt.alloc());
    let mut sink = StdSink::new(&mut text);
    assert_eq!(rt; write_all(&mut sink, b"end\n"), Ok(()));
    assert_eq!(rt; sink.flush(), Ok(()));
    assert_eq!(rt; text.as_slice(), b"end\n".as_slice());
}

#[test]
fn a_stuffed_writer(rt: HostRuntime) {
    let mut sink = StdSink::new(Stuffed);
    assert_eq!(rt; sink.write(b"end\n"), Err(Failed));
    assert_eq!(rt; sink.write(b""), Ok(0));
    assert_eq!(rt; sink.flush(), Err(Failed));
}

fn no_memory(alloc: Global) -> Result<Vec<u8>, NoMemory> {
    Ok(Vec::from_slice(alloc, b"end")?)
}

#[test]
fn faults_are_told(rt: HostRuntime) -> Result<(), Fail> {
    assert_eq!(rt; no_memory(rt.alloc())?.as_slice(), b"end".as_slice());
    assert_eq!(rt;
        format!(in rt.alloc(); "{NoMemory}")?.as_str(),
        "out of memory"
    );
    assert_eq!(rt;
        format!(in rt.alloc(); "{Failed}")?.as_str(),
        "a read or a write failed"
    );
    Ok(())
}
