//! What no clause says: that an interrupted write is tried again, and that a fault is told once.
use outside::{Failed, Sink, WriteSink};
use std::io;
use std::io::{Error, ErrorKind, Write};

/// Is interrupted twice, takes three bytes, fails once, and takes nothing from then on.
#[derive(Drop)]
struct Shaky {
    calls: u32,
}

impl Write for Shaky {
    fn write(&mut self, buf: &[u8]) -> io::Result<usize> {
        self.calls = self.calls.saturating_add(1);
        match self.calls {
            1 | 2 => Err(Error::from(ErrorKind::Interrupted)),
            3 => Ok(buf.len().min(3)),
            4 => Err(Error::from(ErrorKind::BrokenPipe)),
            _ => Ok(0),
        }
    }

    fn flush(&mut self) -> io::Result<()> {
        Ok(())
    }
}

#[test]
fn a_writer_that_is_interrupted_and_fails(rt: HostRuntime) {
    let mut sink = WriteSink::new(Shaky { calls: 0 });
    assert!(rt; sink.write(b"abcdef") == Ok(3));
    assert!(rt; sink.write(b"def") == Err(Failed));
    assert!(rt; sink.write(b"def") == Err(Failed));
    assert!(rt; sink.write(b"") == Ok(0));
}
