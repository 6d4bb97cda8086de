//! The words of a line, one after the other.
ghost use Rattle.std.specs.Prelude.{◌≡◌, ◌↔◌, ◌∷◌, [], IsTrue, MatchOption};
ghost use Rattle.net_base.specs.Addresses.{parts_at};

use std::marker::Model;
use words::split_first;

/// What is left of a text, which contracts see as its parts between the occurrences of a byte.
#[derive(Drop)]
pub(crate) struct Words<'a> {
    separator: u8,
    /// What stands behind the last separator that was passed, if there is one.
    rest: Option<&'a [u8]>,
}

impl<'a> Model for Words<'a> {
    ghost use Rattle.std.specs.Prelude.{List, ℕ, []};
    ghost use Rattle.std.specs.Option.{option_map_or};
    ghost use Rattle.net_base.specs.Addresses.{parts_at};

    ghost Value = { List (List ℕ) };

    ghost view = { λ w. option_map_or (λ rest. parts_at w.separator rest.now) w.rest [] };
}

impl<'a> Words<'a> {
    /// All parts of a text.
    pub(crate) fn of(text: &'a [u8], separator: u8) -> Words<'a>
        ensures { result ≡ parts_at separator text.now }
    {
        Words {
            separator,
            rest: Some(text),
        }
    }

    /// A second walk over these words.
    pub(crate) fn again(&self) -> Words<'a>
        ensures { result ≡ self.now }
    {
        Words {
            separator: self.separator,
            rest: self.rest,
        }
    }

    /// The next word, and those behind it.
    pub(crate) fn next(&self) -> Option<(&'a [u8], Words<'a>)>
        ensures { MatchOption result (self.now ≡ []) (λ read. self.now ≡ read.0.now ∷ read.1) }
    {
        let (word, rest) = split_first(self.rest?, self.separator);
        let separator = self.separator;
        Some((word, Words { separator, rest }))
    }

    /// Whether no word is left.
    #[tactic(auto, using(crate::proofs::Parts::some_word))]
    pub(crate) fn is_empty(&self) -> bool
        ensures { IsTrue result ↔ (self.now ≡ []) }
    {
        self.rest.is_none()
    }
}

/// The first line of a text, and what stands behind its newline.
#[tactic(auto, using(crate::proofs::Parts::only_part))]
pub(crate) fn cut_line(text: &[u8]) -> Option<(&[u8], &[u8])>
    ensures cut { MatchOption result
        (parts_at 10 text.now ≡ text.now ∷ [])
        (λ read. parts_at 10 text.now ≡ read.0.now ∷ parts_at 10 read.1.now) }
{
    let (line, rest) = split_first(text, b'\n');
    Some((line, rest?))
}
