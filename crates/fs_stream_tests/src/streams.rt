// The streams over the standard library's readers and writers.

use fs_io::{Failed, Sink, Source, StdSink, StdSource};
use std::io::{self, Read, Write};

// A reader of the bytes 1, 2, 3, .. and a writer. Each moves one byte a call; the writer moves none at
// its call 2, and both fail at their call 4, numbered from 1.
#[derive(Drop)]
struct Shaky {
    calls: u8,
    moved: u8,
}

impl Shaky {
    // One that was not called yet.
    fn new() -> Shaky {
        Shaky { calls: 0, moved: 0 }
    }

    // One call more, and its number.
    fn next(&mut self) -> u8 {
        self.calls = self.calls.saturating_add(1);
        self.calls
    }
}

impl Read for Shaky {
    fn read(&mut self, buf: &mut [u8]) -> io::Result<usize> {
        if self.next() == 4 {
            return Err(io::Error::from(io::ErrorKind::Interrupted));
        }
        match buf.first_mut() {
            Some(byte) => {
                self.moved = self.moved.saturating_add(1);
                *byte = self.moved;
                Ok(1)
            }
            None => Ok(0),
        }
    }
}

impl Write for Shaky {
    fn write(&mut self, buf: &[u8]) -> io::Result<usize> {
        match self.next() {
            2 => Ok(0),
            4 => Err(io::Error::from(io::ErrorKind::Interrupted)),
            _ => Ok(buf.len().min(1)),
        }
    }

    fn flush(&mut self) -> io::Result<()> {
        Ok(())
    }
}

#[test]
fn source_over_memory(rt: HostRuntime) {
    let mut bytes = [0u8; 4];
    let mut source = StdSource::new(b"job".as_slice());
    assert_eq!(rt; source.take(&mut bytes), Ok(3));
    assert_eq!(rt; bytes, *b"job\0");
    assert_eq!(rt; source.take(&mut bytes), Ok(0));
}

#[test]
fn sink_over_memory(rt: HostRuntime) {
    let mut sink = StdSink::new(Vec::new(rt.alloc()));
    assert_eq!(rt; sink.put(b"answer"), Ok(6));
}

// After a failed call the next one is answered by the reader again.
#[test]
fn source_after_a_fault(rt: HostRuntime) {
    let mut bytes = [0u8; 1];
    let mut source = StdSource::new(Shaky::new());
    for read in 1..4 {
        assert_eq!(rt; source.take(&mut bytes), Ok(1));
        assert_eq!(rt; bytes, [read]);
    }
    assert_eq!(rt; source.take(&mut bytes), Err(Failed));
    for read in 4..7 {
        assert_eq!(rt; source.take(&mut bytes), Ok(1));
        assert_eq!(rt; bytes, [read]);
    }
}

// After a write that takes nothing, and after a failed one, the next one is answered by the
// writer again.
#[test]
fn sink_after_a_fault(rt: HostRuntime) {
    let mut sink = StdSink::new(Shaky::new());
    assert_eq!(rt; sink.put(b"answer"), Ok(1));
    assert_eq!(rt; sink.put(b"nswer"), Err(Failed));
    assert_eq!(rt; sink.put(b"nswer"), Ok(1));
    assert_eq!(rt; sink.put(b"swer"), Err(Failed));
    assert_eq!(rt; sink.put(b"swer"), Ok(1));
    assert_eq!(rt; sink.put(b""), Ok(0));
}
