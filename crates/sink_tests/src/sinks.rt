//! Sinks: real files and streams, and calls that succeed.

use poet_io::{MemSink, Sink, SinkFault, StdSink, write_all, write_parts};
use std::io::Write;
use std::test::Fail;
use std::{fs, io};

#[test]
fn writes_as_far_as_the_sink_takes(rt: HostRuntime) -> Result<(), Fail> {
    let alloc = rt.alloc();
    let rows = [
        (&[][..], 1, 9, Ok(()), "abcde"),
        (&[], 2, 9, Ok(()), "abcde"),
        (&[], 9, 9, Ok(()), "abcde"),
        (&[3], 1, 9, Err(SinkFault), "abc"),
        (&[3], 2, 9, Ok(()), "abcde"),
        (&[1], 2, 9, Err(SinkFault), "ab"),
        (&[], 2, 4, Err(SinkFault), "abcd"),
    ];
    for (fails, most, room, want, taken) in rows {
        let mut sink = MemSink::new(alloc, Vec::from_slice(alloc, fails)?, most, room)?;
        let got = write_parts(&mut sink, &[b"abc", b"", b"de"]);
        assert_eq!(rt; got, want);
        assert_eq!(rt; sink.taken(), taken.as_bytes());
    }
    Ok(())
}

#[test]
fn writes_real_files(rt: HostRuntime) -> Result<(), Fail> {
    let mut sink = StdSink::new(fs::create(&rt, "poet_io_written")?);
    assert_eq!(rt; write_all(&mut sink, b"some\n"), Ok(()));
    assert_eq!(rt; write_all(&mut sink, b"lines\n"), Ok(()));
    let bytes = fs::read(&rt, "poet_io_written")?;
    assert_eq!(rt; bytes.as_slice(), b"some\nlines\n".as_slice());
    let mut for_reading = StdSink::new(fs::open(&rt, "poet_io_written")?);
    assert_eq!(rt; write_all(&mut for_reading, b"more\n"), Err(SinkFault));
    fs::remove_file(&rt, "poet_io_written")?;
    Ok(())
}

/// A stream that takes at most `most` bytes of a write, and whose flushes may fail.
#[derive(Drop)]
struct Stream {
    most: usize,
    flushes: bool,
}

impl Write for Stream {
    fn write(&mut self, buf: &[u8]) -> io::Result<usize> {
        Ok(buf.len().min(self.most))
    }

    fn flush(&mut self) -> io::Result<()> {
        if self.flushes {
            return Ok(());
        }
        Err(io::Error::from(io::ErrorKind::Other))
    }
}

#[test]
fn counts_writes_that_do_not_reach_the_stream(rt: HostRuntime) {
    let rows = [
        (2, true, Ok(2)),
        (0, true, Err(SinkFault)),
        (2, false, Err(SinkFault)),
    ];
    for (most, flushes, want) in rows {
        let mut sink = StdSink::new(Stream { most, flushes });
        assert_eq!(rt; sink.write(b"abc"), want);
    }
}
