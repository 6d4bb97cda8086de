//! What no clause says: that an interrupted read is tried again, and that a fault is told once.
use outside::{Failed, ReadSource, Source};
use std::io;
use std::io::{Error, ErrorKind, Read};

/// Is interrupted twice, passes three bytes, fails once, and passes nothing from then on.
#[derive(Drop)]
struct Shaky {
    calls: u32,
}

impl Read for Shaky {
    fn read(&mut self, buf: &mut [u8]) -> io::Result<usize> {
        self.calls = self.calls.saturating_add(1);
        match self.calls {
            1 | 2 => Err(Error::from(ErrorKind::Interrupted)),
            3 => {
                let count = buf.len().min(3);
                buf[..count].copy_from_slice(&b"abc"[..count]);
                Ok(count)
            }
            4 => Err(Error::from(ErrorKind::BrokenPipe)),
            _ => Ok(0),
        }
    }
}

#[test]
fn a_reader_that_is_interrupted_and_fails(rt: HostRuntime) {
    let mut source = ReadSource::new(Shaky { calls: 0 });
    let mut into = [0u8; 8];
    assert!(rt; source.read(&mut into) == Ok(3));
    assert!(rt; &into[..3] == b"abc".as_slice());
    assert!(rt; source.read(&mut into) == Err(Failed));
    assert!(rt; source.read(&mut into) == Ok(0));
}
