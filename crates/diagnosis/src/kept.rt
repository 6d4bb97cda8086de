//! A source that keeps the front of what was read.
ghost use Rattle.std.specs.Prelude.{◌≡◌};

use net_base::Octets;
use outside::{Failed, Source};
use std::alloc::Global;

/// The most bytes that are kept, one more than 4 MiB.
const MOST_KEPT: usize = 4194305;

/// The front of an input, and whether it is all that was read.
#[derive(Clone, Copy)]
pub struct Kept<'a> {
    pub text: &'a [u8],
    pub whole: bool,
}

/// A source that reads from another one, and keeps the front of what was read, as far as there is memory.
#[derive(Drop)]
pub struct KeptSource<S> {
    source: S,
    kept: Octets,
    whole: bool,
}

impl<S: Source> KeptSource<S> {
    /// Keeps what is read from this source.
    pub fn new(alloc: Global, source: S) -> KeptSource<S> {
        KeptSource {
            source,
            kept: Octets::new(alloc),
            whole: true,
        }
    }

    /// What was kept.
    pub fn kept(&self) -> Kept<'_> {
        Kept {
            text: self.kept.as_slice(),
            whole: self.whole,
        }
    }
}

impl<S: Source> Source for KeptSource<S> {
    ghost left = { λ s. S.left s.source };

    ghost faults = { λ s. S.faults s.source };

    ghost reads = { λ s. S.reads s.source };

    fn read(&mut self, into: &mut [u8]) -> Result<usize, Failed> {
        let n = self.source.read(into)?;
        self.whole = self.whole && is_kept(&mut self.kept, &into[..n]);
        Ok(n)
    }
}

// Keeps the next bytes, if there is room for all of them.
fn is_kept(kept: &mut Octets, piece: &[u8]) -> bool {
    let room = MOST_KEPT.saturating_sub(kept.len());
    piece.len() <= room && kept.append(piece).is_ok()
}
