//! Words of a line, each with a blank before it.
ghost use Rattle.std.specs.Prelude.{◌≡◌, ◌∷◌, ◌++◌, [], OnOk, codes};
ghost use Rattle.net_base.specs.Numeral.{numeral};
ghost use Rattle.net_base.specs.Transcript.{spaced};
ghost use Rattle.history_words.specs.HistoryWords.{beginning, generation, name_words, slot};
ghost use Rattle.history_words.specs.Shown.{shown};

use crate::shown::put_shown;
use net_base::Octets;
use std::alloc::AllocError;
pub use words::{put_addr, put_number, put_word};

/// A number with its name before it.
pub fn put_named(out: &mut Octets, label: &[u8], n: u64) -> Result<(), AllocError>
    ensures { OnOk result (out.new ≡ out.old ++ spaced (name_words label.now n)) }
{
    put_word(out, label)?;
    put_number(out, n)
}

/// A word and a generation.
pub fn put_with_generation(out: &mut Octets, word: &[u8], g: u64) -> Result<(), AllocError>
    ensures { OnOk result (out.new ≡ out.old ++ spaced (word.now ∷ generation g)) }
{
    put_word(out, word)?;
    put_named(out, b"generation", g)
}

/// A slot and its generation.
pub fn put_slot(out: &mut Octets, n: u32, g: u64) -> Result<(), AllocError>
    ensures { OnOk result (out.new ≡ out.old ++ spaced (slot n g)) }
{
    put_named(out, b"slot", n as u64)?;
    put_named(out, b"generation", g)
}

/// A word, a slot and its generation.
pub fn put_with_slot(out: &mut Octets, word: &[u8], n: u32, g: u64) -> Result<(), AllocError>
    ensures { OnOk result (out.new ≡ out.old ++ spaced (word.now ∷ slot n g)) }
{
    put_word(out, word)?;
    put_slot(out, n, g)
}

/// The first id of an IL end, and its longest message in bytes.
pub fn put_beginning(out: &mut Octets, start: u32, limit: u32) -> Result<(), AllocError>
    ensures { OnOk result (out.new ≡ out.old ++ spaced (beginning start limit)) }
{
    put_named(out, b"start", start as u64)?;
    put_named(out, b"limit", limit as u64)
}

/// A word, and a number in ms.
pub fn put_moment(out: &mut Octets, word: &[u8], moment: u64) -> Result<(), AllocError>
    ensures { OnOk result (out.new ≡ out.old ++ spaced (word.now ∷ numeral moment ∷ codes "ms" ∷ [])) }
{
    put_named(out, word, moment)?;
    put_word(out, b"ms")
}

/// A word and a text.
pub fn put_with_text(out: &mut Octets, word: &[u8], text: &[u8]) -> Result<(), AllocError>
    ensures { OnOk result (out.new ≡ out.old ++ spaced (word.now ∷ shown text.now ∷ [])) }
{
    put_word(out, word)?;
    out.push(b' ')?;
    put_shown(out, text)
}
