//! The words behind the first word of a line.
ghost use Rattle.std.specs.Prelude.{◌≡◌, ◌≢◌, ◌↔◌, ◌∷◌, [], ℕ, IsTrue, Some, None, MatchOption, IfSome, IfNone, OnOk, IfErr};
ghost use Rattle.net_base.specs.StepWords as kind;
ghost use Rattle.world_text.specs.declared.line.LineCause.TheVariants as cause;
ghost use Rattle.world_text.specs.LineReading.{read_value, read_word};
ghost use Rattle.world_text.specs.WorldWords as spec;
ghost use Rattle.world_words.specs.declared.fault.LineFault.TheVariants as fault;

use crate::fault::LineFault;
use std::marker::Model;
use words::{four_parts, single, split_first, two_parts};
use world_text::LineCause;

/// What stands behind the first word of a line, which contracts see as its words.
#[derive(Drop)]
pub(crate) struct Arguments<'a> {
    /// What stands behind the blank, if there is one.
    rest: Option<&'a [u8]>,
}

impl<'a> Model for Arguments<'a> {
    ghost use Rattle.std.specs.Prelude.{List, ℕ, []};
    ghost use Rattle.std.specs.Option.{option_map_or};
    ghost use Rattle.net_base.specs.Addresses.{parts_at};

    ghost Value = { List (List ℕ) };

    ghost view = { λ a. option_map_or (λ rest. parts_at 32 rest.now) a.rest [] };
}

/// The first word of a line, and those behind it.
pub(crate) fn split_line(line: &[u8]) -> (&[u8], Arguments<'_>)
    ensures { spec.words_in_line line.now ≡ result.0.now ∷ result.1 }
{
    let (word, rest) = split_first(line, b' ');
    (word, Arguments { rest })
}

impl<'a> Arguments<'a> {
    /// Whether there is no word.
    #[tactic(auto, using(crate::proofs::Parts::some_word))]
    pub(crate) fn is_empty(&self) -> bool
        ensures { IsTrue result ↔ (self.now ≡ []) }
    {
        self.rest.is_none()
    }

    /// The only word.
    #[tactic(auto, using(crate::proofs::Parts::not_one))]
    pub(crate) fn one(&self) -> Option<&'a [u8]>
        ensures { MatchOption result (spec.single_word self.now ≡ None)
            (λ word. spec.single_word self.now ≡ Some word.now) }
    {
        single(self.rest?, b' ')
    }

    /// Two words and no others.
    #[tactic(auto, using(crate::proofs::Parts::not_two))]
    pub(crate) fn two(&self) -> Option<(&'a [u8], &'a [u8])>
        ensures { MatchOption result (spec.two self.now ≡ None)
            (λ w. spec.two self.now ≡ Some record { first = w.0.now; second = w.1.now }) }
    {
        two_parts(self.rest?, b' ')
    }

    /// Three words and no others.
    #[tactic(auto, using(crate::proofs::Parts::not_three, crate::proofs::Parts::one_then))]
    pub(crate) fn three(&self) -> Option<(&'a [u8], &'a [u8], &'a [u8])>
        ensures { MatchOption result (spec.three self.now ≡ None)
            (λ w. spec.three self.now ≡ Some record { first = w.0.now; second = w.1.now; third = w.2.now }) }
    {
        let (first, rest) = split_first(self.rest?, b' ');
        let (second, third) = two_parts(rest?, b' ')?;
        Some((first, second, third))
    }

    /// Four words and no others.
    #[tactic(auto, using(crate::proofs::Parts::not_four))]
    pub(crate) fn four(&self) -> Option<(&'a [u8], &'a [u8], &'a [u8], &'a [u8])>
        ensures { MatchOption result (spec.four self.now ≡ None)
            (λ w. spec.four self.now ≡ Some record {
              first = w.0.now;
              second = w.1.now;
              third = w.2.now;
              fourth = w.3.now;
            }) }
    {
        four_parts(self.rest?, b' ')
    }

    /// A copy of the words, to be taken one by one.
    pub(crate) fn words(&self) -> Arguments<'a>
        ensures { result ≡ self.now }
    {
        Arguments { rest: self.rest }
    }

    /// Takes the next word.
    pub(crate) fn next(&mut self) -> Option<&'a [u8]>
        ensures { MatchOption result ((self.old ≡ []) × (self.new ≡ [])) (λ word. self.old ≡ word.now ∷ self.new) }
    {
        let (word, rest) = split_first(self.rest?, b' ');
        self.rest = rest;
        Some(word)
    }

    /// Takes all that is left, with the blanks in it.
    #[tactic(auto, using(crate::proofs::Parts::text_words, crate::proofs::Parts::short_words))]
    pub(crate) fn text(&mut self) -> Option<&'a [u8]>
        ensures none { IfNone result (self.old ≡ []) }
        ensures left { self.new ≡ [] }
        ensures text { IfSome result (λ text. read_value kind.TheRest self.old ≡ read_word kind.TheRest text.now []) }
        ensures short { (least most : ℕ) → IfSome result (λ text.
            read_value (kind.TheRestOf least most) self.old ≡ read_word (kind.TheRestOf least most) text.now []) }
    {
        let rest = self.rest;
        self.rest = None;
        rest
    }

    /// That no word is left.
    pub(crate) fn end(&self) -> Result<(), LineFault>
        ensures ok { OnOk result (self.now ≡ []) }
        ensures wrong { IfErr result (λ e. (e ≡ fault.Cause cause.WrongArgument) × (self.now ≢ [])) }
    {
        if self.is_empty() {
            Ok(())
        } else {
            Err(LineFault::Cause(LineCause::WrongArgument))
        }
    }
}
