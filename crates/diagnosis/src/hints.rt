//! What to do about a bad line.

use crate::fields::Kind;
use std::fmt;

/// A hint: what to do about a bad line.
#[derive(Clone, Copy, Debug)]
pub enum Hint<'a> {
    /// In fixed words.
    Do(&'static str),
    /// One of these words may stand there.
    May(&'static str),
    /// This argument must be of this kind, in a line of this form.
    Argument {
        name: &'static str,
        kind: Kind,
        form: &'static str,
    },
    /// This argument is missing in a line of this form.
    Missing {
        name: &'static str,
        kind: Kind,
        form: &'static str,
    },
    /// The line has a word more than its form.
    Extra(&'static str),
    /// The line has not this form.
    Form(&'static str),
    /// A host of this name must come first.
    Host(&'a str),
    /// A medium of this name must come first.
    Medium(&'a str),
    /// A line of this form is missing.
    Line(&'static str),
    /// The entry has to have this stamp.
    Stamp(u64),
}

impl fmt::Display for Hint<'_> {
    fn fmt<W: fmt::Write>(&self, f: &mut fmt::Formatter<W>) -> fmt::Result {
        match self {
            Hint::Do(text) => write!(f, "{text}"),
            Hint::May(words) => write!(f, "one of these may stand here: {words}"),
            Hint::Argument { name, kind, form } => {
                write!(f, "{name} must be {kind}; the form is: {form}")
            }
            Hint::Missing { name, kind, form } => {
                write!(f, "{name} is missing: {kind}; the form is: {form}")
            }
            Hint::Extra(form) => write!(f, "remove it and what follows; the form is: {form}"),
            Hint::Form(form) => write!(f, "the form is: {form}"),
            Hint::Host(name) => write!(f, "write a line host {name} NETS before the first script"),
            Hint::Medium(name) => write!(f, "write a line medium {name} MTU above"),
            Hint::Line(form) => write!(f, "write above this line: {form}"),
            Hint::Stamp(stamp) => write!(f, "this entry must have the stamp {stamp}"),
        }
    }
}
