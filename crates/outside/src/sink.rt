//! Sinks for bytes.
ghost use Rattle.std.specs.Prelude.{◌≡◌, ℕ, Option, List, [], ◌+◌, ◌<◌, ◌≤◌, length, take, IfOk, OnOk, OnErr};
ghost use Rattle.std.specs.Io.KnownBytes.{Appends, Keeps};
ghost use Rattle.outside.specs.Streams.{Rose, AppendsPart};

use crate::fault::Failed;

/// Takes bytes in pieces.
pub trait Sink {
    // what it holds, where the sink tells it
    ghost held: { Self → Option (List ℕ) };

    // how many writes failed
    ghost faults: { Self → ℕ };

    /// Takes bytes from the front of `bytes`, and answers how many.
    fn write(&mut self, bytes: &[u8]) -> Result<usize, Failed>
        ensures within { IfOk result (λ n. n ≤ length bytes.now) }
        ensures gained { IfOk result (λ n. Appends (held self.old) (held self.new) (take n bytes.now)) }
        ensures some { IfOk result (λ n. n ≡ 0 → bytes.now ≡ []) }
        ensures same { OnOk result (faults self.new ≡ faults self.old) }
        ensures failed { OnErr result (Rose (faults self.old) (faults self.new)) }
        ensures kept { OnErr result (Keeps (held self.old) (held self.new)) };
}

/// Writes all of the bytes, unless the sink fails. After a fault it writes no more.
pub fn write_all<K: Sink>(sink: &mut K, bytes: &[u8]) -> Result<(), Failed>
    ensures ok { OnOk result (Appends (K.held sink.old) (K.held sink.new) bytes.now) }
    ensures same { OnOk result (K.faults sink.new ≡ K.faults sink.old) }
    ensures part { OnErr result (AppendsPart (K.held sink.old) (K.held sink.new) bytes.now) }
    ensures failed { OnErr result (Rose (K.faults sink.old) (K.faults sink.new)) }
{
    let mut done = 0;
    while done < bytes.len() {
        done += sink.write(&bytes[done..])?;
    }
    Ok(())
}
