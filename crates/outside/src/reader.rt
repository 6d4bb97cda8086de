//! Readers of std as sources, and so standard input.
ghost use Rattle.std.specs.Prelude.{◌≡◌, ◌≢◌, ◌<◌, length, take, IfOk, IfErr, OnErr};
ghost use Rattle.std.specs.Io.{ReadsAtMost};
ghost use Rattle.std.specs.Io.KnownBytes.{Consumes, IsAtEnd, Keeps};
ghost use Rattle.std.specs.IoError.{error_kind};

use crate::fault::Failed;
use crate::source::Source;
use std::io;
use std::io::{Error, ErrorKind, Read, Stdin};

/// A reader of std, with a count of its errors.
#[derive(Drop)]
pub struct ReadSource<R> {
    input: R,
    faults: u64,
}

/// Standard input.
pub type StdSource = ReadSource<Stdin>;

impl<R: Read> ReadSource<R> {
    /// A reader that had no errors yet.
    pub fn new(input: R) -> ReadSource<R>
        ensures { result ≡ record { input = input; faults = 0 } }
    {
        ReadSource { input, faults: 0 }
    }
}

impl<R: Read> Source for ReadSource<R> {
    ghost left = { λ s. R.remaining s.input };

    ghost faults = { λ s. s.faults };

    fn read(&mut self, into: &mut [u8]) -> Result<usize, Failed> {
        match read_retrying(&mut self.input, into) {
            Ok(n) => Ok(n),
            Err(_) => {
                self.faults = self.faults.saturating_add(1);
                Err(Failed)
            }
        }
    }
}

/// One read, tried again where a signal interrupts it.
fn read_retrying<R: Read>(input: &mut R, into: &mut [u8]) -> io::Result<usize>
    ensures within { ReadsAtMost result into.new }
    ensures took { IfOk result (λ n. Consumes (R.remaining input.old) (R.remaining input.new) (take n into.new)) }
    ensures end { IfOk result (λ n. n ≡ 0 → 0 < length into.old → IsAtEnd (R.remaining input.new)) }
    ensures kept { OnErr result (Keeps (R.remaining input.old) (R.remaining input.new)) }
    ensures retried { IfErr result (λ e. error_kind e ≢ ErrorKind.Interrupted) }
{
    for _ in 0..u64::MAX {
        match input.read(into) {
            Ok(n) => return Ok(n),
            Err(error) => {
                if error.kind() != ErrorKind::Interrupted {
                    return Err(error);
                }
            }
        }
    }
    Err(Error::from(ErrorKind::TimedOut))
}
