//! Writers of std as sinks, and so standard output.
ghost use Rattle.std.specs.Prelude.{◌≡◌, ◌≢◌, [], take, IfOk, IfErr, OnErr};
ghost use Rattle.std.specs.Io.{WritesAtMost};
ghost use Rattle.std.specs.Io.KnownBytes.{Appends, Keeps};
ghost use Rattle.std.specs.IoError.{error_kind};

use crate::fault::Failed;
use crate::sink::Sink;
use std::io;
use std::io::{Error, ErrorKind, Stdout, Write};

/// A writer of std, with a count of its errors.
#[derive(Drop)]
pub struct WriteSink<W> {
    output: W,
    faults: u64,
}

/// Standard output.
pub type StdSink = WriteSink<Stdout>;

impl<W: Write> WriteSink<W> {
    /// A writer that had no errors yet.
    pub fn new(output: W) -> WriteSink<W>
        ensures { result ≡ record { output = output; faults = 0 } }
    {
        WriteSink { output, faults: 0 }
    }
}

impl<W: Write> Sink for WriteSink<W> {
    ghost held = { λ k. W.contents k.output };

    ghost faults = { λ k. k.faults };

    fn write(&mut self, bytes: &[u8]) -> Result<usize, Failed> {
        match write_retrying(&mut self.output, bytes) {
            Ok(n) => Ok(n),
            Err(_) => {
                self.faults = self.faults.saturating_add(1);
                Err(Failed)
            }
        }
    }
}

/// One write, tried again where a signal interrupts it. To take nothing of some bytes is an error.
fn write_retrying<W: Write>(output: &mut W, bytes: &[u8]) -> io::Result<usize>
    ensures within { WritesAtMost result bytes.now }
    ensures gave { IfOk result (λ n. Appends (W.contents output.old) (W.contents output.new) (take n bytes.now)) }
    ensures some { IfOk result (λ n. n ≡ 0 → bytes.now ≡ []) }
    ensures kept { OnErr result (Keeps (W.contents output.old) (W.contents output.new)) }
    ensures retried { IfErr result (λ e. error_kind e ≢ ErrorKind.Interrupted) }
{
    for _ in 0..u64::MAX {
        match output.write(bytes) {
            Ok(0) if !bytes.is_empty() => return Err(Error::from(ErrorKind::WriteZero)),
            Ok(n) => return Ok(n),
            Err(error) => {
                if error.kind() != ErrorKind::Interrupted {
                    return Err(error);
                }
            }
        }
    }
    Err(Error::from(ErrorKind::TimedOut))
}
