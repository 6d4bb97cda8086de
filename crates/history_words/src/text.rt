//! A word with what stands behind it.
ghost use Rattle.std.specs.Prelude.{◌≡◌, ◌++◌, OnOk};
ghost use Rattle.history_words.specs.Labels.{word_beside, numbered};

use net_base::Octets;
use std::alloc::AllocError;
use words::put_decimal;

pub fn put_numbered(out: &mut Octets, word: &[u8], n: u64) -> Result<(), AllocError>
    ensures { OnOk result (out.new ≡ out.old ++ numbered word.now n) }
{
    out.append(word)?;
    out.append(b" ")?;
    put_decimal(out, n)
}

pub fn put_beside(out: &mut Octets, word: &[u8], other: &[u8]) -> Result<(), AllocError>
    ensures { OnOk result (out.new ≡ out.old ++ word_beside word.now other.now) }
{
    out.append(word)?;
    out.append(b" ")?;
    out.append(other)
}
