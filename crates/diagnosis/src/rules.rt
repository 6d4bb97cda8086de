//! The rules of a history.
ghost use Rattle.std.specs.Prelude.{◌≡◌, Some};
ghost use Rattle.diagnosis.specs.Rules.{rule_numbered, rule_phrase};

use std::fmt;

/// The rule that an entry or a summary breaks.
#[derive(Clone, Copy, Debug, PartialEq, Eq)]
pub enum Rule {
    Reply,
    Moment,
    Cite,
    Turn,
    Ready,
    Clock,
    Names,
    Room,
    Summary,
    Other,
}

/// The rule with this number.
pub fn rule_numbered(number: u64) -> Rule
    ensures { result ≡ rule_numbered number }
{
    match number {
        1 => Rule::Reply,
        2 => Rule::Moment,
        3 => Rule::Cite,
        4 => Rule::Turn,
        5 => Rule::Ready,
        6 => Rule::Clock,
        7 => Rule::Names,
        8 => Rule::Room,
        9 => Rule::Summary,
        _ => Rule::Other,
    }
}

impl fmt::Display for Rule {
    ghost output = { λ rule. Some (rule_phrase rule) };

    fn fmt<W: fmt::Write>(&self, f: &mut fmt::Formatter<W>) -> fmt::Result {
        match self {
            Rule::Reply => write!(
                f,
                "its actor gives another reply or packet, or ends otherwise"
            ),
            Rule::Moment => write!(f, "wrong moment: the clock shows another one"),
            Rule::Cite => write!(f, "wrong citation: another entry asked for it, or none did"),
            Rule::Turn => write!(f, "its caller does something else next"),
            Rule::Ready => write!(f, "it is not ready: it must wait"),
            Rule::Clock => write!(f, "the clock must not move yet, or moves to another moment"),
            Rule::Names => write!(f, "the world has no such actor or caller"),
            Rule::Room => write!(
                f,
                "its caller has 131072 entries already, the most that it may have"
            ),
            Rule::Summary => write!(f, "the summary is not the one of this history"),
            Rule::Other => write!(f, "it breaks a rule"),
        }
    }
}
