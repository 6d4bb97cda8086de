//! Sources of bytes.
ghost use Rattle.std.specs.Prelude.{◌≡◌, ◌≢◌, ℕ, Option, List, Err, ◌+◌, ◌<◌, ◌≤◌, ◌++◌, length, min, take, drop, IfOk, OnOk, OnErr, IsErrOf};
ghost use Rattle.std.specs.Io.KnownBytes.{Consumes, IsAtEnd, Keeps};
ghost use Rattle.outside.specs.Streams.{Rose, ConsumedToEnd};

use crate::fault::{Failed, TakeError};
use net_base::Octets;
use std::alloc::Global;

/// Gives bytes in pieces, up to an end.
pub trait Source {
    // what is left, where the source tells it
    ghost left: { Self → Option (List ℕ) };

    // how many reads failed
    ghost faults: { Self → ℕ };

    // how often it was read, where the source counts that
    ghost reads: { Self → ℕ } = { λ _. 0 };

    /// Reads the next bytes into the front of `into`. No bytes are the end.
    fn read(&mut self, into: &mut [u8]) -> Result<usize, Failed>
        requires { 0 < length into.old }
        ensures within { IfOk result (λ n. n ≤ length into.old) }
        ensures took { IfOk result (λ n. Consumes (left self.old) (left self.new) (take n into.new)) }
        ensures end { IfOk result (λ n. n ≡ 0 → IsAtEnd (left self.new)) }
        ensures same { OnOk result (faults self.new ≡ faults self.old) }
        ensures failed { OnErr result (Rose (faults self.old) (faults self.new)) }
        ensures kept { OnErr result (Keeps (left self.old) (left self.new)) }
        ensures once { reads self.new ≤ reads self.old + 1 };
}

/// How many bytes are asked for at once.
const PIECE: usize = 4096;

/// Takes all bytes up to the end, unless there are more than `limit`.
pub fn read_to_end<S: Source>(
    alloc: Global,
    source: &mut S,
    limit: usize,
) -> Result<Octets, TakeError>
    ensures bytes { ConsumedToEnd (S.left source.old) (S.left source.new) limit result }
    ensures failed { IsErrOf result TakeError.Failed → Rose (S.faults source.old) (S.faults source.new) }
    ensures same { result ≢ Err TakeError.Failed → S.faults source.new ≡ S.faults source.old }
    ensures reads { S.reads source.new ≤ S.reads source.old + (limit + 2) }
{
    let mut taken = Octets::new(alloc);
    let mut piece = [0u8; PIECE];
    loop {
        let room = limit - taken.len();
        let most = room.min(PIECE - 1) + 1;
        let n = source.read(&mut piece[..most])?;
        if n == 0 {
            return Ok(taken);
        }
        if n > room {
            return Err(TakeError::TooLarge);
        }
        if taken.append(&piece[..n]).is_err() {
            return Err(TakeError::Memory);
        }
    }
}

/// Copies as much of the front of `from` as fits, and answers how much.
pub(crate) fn copy_front(from: &[u8], into: &mut [u8]) -> usize
    ensures most { result ≡ min (length into.old) (length from.now) }
    ensures copied { from.now ≡ take result into.new ++ drop result from.now }
{
    let n = into.len().min(from.len());
    into[..n].copy_from_slice(&from[..n]);
    n
}
