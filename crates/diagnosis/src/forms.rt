//! The forms of the lines of a world, and which argument of a line has not its form.

use crate::fields::{Kind, accepts, takes_rest};
use crate::lines::{first_word, rest_at, word_at};

/// An argument: its name in the form, and its kind.
pub type Field = (&'static str, Kind);

/// The form of the lines that begin with a word.
#[derive(Clone, Copy)]
pub struct Form {
    pub word: &'static str,
    pub text: &'static str,
    pub fields: &'static [Field],
}

/// A fault of the arguments of a line.
#[derive(Clone, Copy)]
pub enum ArgumentFault<'a> {
    /// This argument, which is the word, has not its form.
    Wrong { field: Field, word: &'a [u8] },
    /// This argument is missing.
    Missing { field: Field },
    /// There is a word too many, this one.
    Extra { word: &'a [u8] },
}

const MOMENT: Kind = Kind::Number(1, 1000000000);

const COUNT: Kind = Kind::Number(1, 65536);

const FORMS: &[Form] = &[
    Form {
        word: "networld",
        text: "networld 1, or networld 2",
        fields: &[("VERSION", Kind::Number(1, 2))],
    },
    Form {
        word: "end",
        text: "end M",
        fields: &[("M", MOMENT)],
    },
    Form {
        word: "seed",
        text: "seed N",
        fields: &[("N", Kind::Number(0, 18446744073709551615))],
    },
    Form {
        word: "medium",
        text: "medium NAME MTU",
        fields: &[("NAME", Kind::Name), ("MTU", Kind::Number(576, 16384))],
    },
    Form {
        word: "rates",
        text: "rates NAME LOSS TWICE LATER",
        fields: &[
            ("NAME", Kind::Name),
            ("LOSS", Kind::Number(0, 1000)),
            ("TWICE", Kind::Number(0, 1000)),
            ("LATER", Kind::Number(0, 1000)),
        ],
    },
    Form {
        word: "fate",
        text: "fate NAME PACKETS FATE",
        fields: &[
            ("NAME", Kind::Name),
            ("PACKETS", Kind::Frames),
            ("FATE", Kind::Fate),
        ],
    },
    Form {
        word: "host",
        text: "host NAME NETS",
        fields: &[("NAME", Kind::Name), ("NETS", Kind::Nets)],
    },
    Form {
        word: "if",
        text: "if MEDIUM ADDRESS MASK",
        fields: &[
            ("MEDIUM", Kind::Name),
            ("ADDRESS", Kind::Address),
            ("MASK", Kind::Mask),
        ],
    },
    Form {
        word: "route",
        text: "route NET MASK GATEWAY",
        fields: &[
            ("NET", Kind::Address),
            ("MASK", Kind::Mask),
            ("GATEWAY", Kind::Address),
        ],
    },
    Form {
        word: "start",
        text: "start N",
        fields: &[("N", Kind::Number(1, 4294967295))],
    },
    Form {
        word: "script",
        text: "script HOST",
        fields: &[("HOST", Kind::Name)],
    },
    Form {
        word: "session",
        text: "session HOST",
        fields: &[("HOST", Kind::Name)],
    },
    Form {
        word: "feed",
        text: "feed HEX",
        fields: &[("HEX", Kind::Hex)],
    },
    Form {
        word: "ndb",
        text: "ndb",
        fields: &[],
    },
    Form {
        word: "%at",
        text: "%at M",
        fields: &[("M", MOMENT)],
    },
    Form {
        word: "open",
        text: "open F PATH, or open F PATH MODE",
        fields: &[
            ("F", Kind::Name),
            ("PATH", Kind::Word),
            ("MODE", Kind::PerhapsMode),
        ],
    },
    Form {
        word: "read",
        text: "read F COUNT",
        fields: &[("F", Kind::Name), ("COUNT", COUNT)],
    },
    Form {
        word: "write",
        text: "write F TEXT",
        fields: &[("F", Kind::Name), ("TEXT", Kind::Text)],
    },
    Form {
        word: "writex",
        text: "writex F HEX",
        fields: &[("F", Kind::Name), ("HEX", Kind::Hex)],
    },
    Form {
        word: "close",
        text: "close F",
        fields: &[("F", Kind::Name)],
    },
    Form {
        word: "ls",
        text: "ls PATH",
        fields: &[("PATH", Kind::Word)],
    },
    Form {
        word: "cs",
        text: "cs QUERY",
        fields: &[("QUERY", Kind::Text)],
    },
    Form {
        word: "until",
        text: "until M",
        fields: &[("M", MOMENT)],
    },
    Form {
        word: "refresh",
        text: "refresh",
        fields: &[],
    },
    Form {
        word: "dial",
        text: "dial F ADDRESS",
        fields: &[("F", Kind::Name), ("ADDRESS", Kind::Word)],
    },
    Form {
        word: "announce",
        text: "announce F ADDRESS",
        fields: &[("F", Kind::Name), ("ADDRESS", Kind::Word)],
    },
    Form {
        word: "listen",
        text: "listen G F",
        fields: &[("G", Kind::Name), ("F", Kind::Name)],
    },
    Form {
        word: "accept",
        text: "accept D G",
        fields: &[("D", Kind::Name), ("G", Kind::Name)],
    },
    Form {
        word: "reject",
        text: "reject G",
        fields: &[("G", Kind::Name)],
    },
    Form {
        word: "hangup",
        text: "hangup F",
        fields: &[("F", Kind::Name)],
    },
    Form {
        word: "hread",
        text: "hread F COUNT",
        fields: &[("F", Kind::Name), ("COUNT", COUNT)],
    },
    Form {
        word: "hwrite",
        text: "hwrite F HEX, 52 bytes of headers and a text",
        fields: &[("F", Kind::Name), ("HEX", Kind::Hex)],
    },
    Form {
        word: "dns",
        text: "dns F K",
        fields: &[("F", Kind::Name), ("K", Kind::Number(1, 1000))],
    },
    Form {
        word: "export",
        text: "export F",
        fields: &[("F", Kind::Name)],
    },
    Form {
        word: "import",
        text: "import D",
        fields: &[("D", Kind::Name)],
    },
    Form {
        word: "ropen",
        text: "ropen F D PATH MODE",
        fields: &[
            ("F", Kind::Name),
            ("D", Kind::Name),
            ("PATH", Kind::RemotePath),
            ("MODE", Kind::Mode),
        ],
    },
    Form {
        word: "rread",
        text: "rread F COUNT",
        fields: &[("F", Kind::Name), ("COUNT", Kind::Number(1, 488))],
    },
    Form {
        word: "rwrite",
        text: "rwrite F TEXT",
        fields: &[("F", Kind::Name), ("TEXT", Kind::ShortText)],
    },
    Form {
        word: "rclose",
        text: "rclose F",
        fields: &[("F", Kind::Name)],
    },
];

/// The form of the lines that begin with this word.
pub fn form_of(word: &[u8]) -> Option<&'static Form> {
    for form in FORMS {
        if form.word.as_bytes() == word {
            return Some(form);
        }
    }
    None
}

/// Whether the last argument of a line is the rest of it, in which any blank may stand.
pub fn ends_with_text(line: &[u8]) -> bool {
    match form_of(first_word(line)) {
        Some(form) => form
            .fields
            .iter()
            .any(|field| matches!(field.1, Kind::Text | Kind::ShortText)),
        None => false,
    }
}

/// The first fault of the arguments of a line that has this form.
pub fn argument_fault<'a>(form: &Form, line: &'a [u8]) -> Option<ArgumentFault<'a>> {
    let mut place = 1;
    for field in form.fields {
        let Some(rest) = rest_at(line, place) else {
            return missing(*field);
        };
        if takes_rest(field.1) {
            return wrong(*field, rest);
        }
        let word = first_word(rest);
        if !accepts(field.1, word) {
            return wrong(*field, word);
        }
        place = 1usize.saturating_add(place);
    }
    let word = word_at(line, place)?;
    Some(ArgumentFault::Extra { word })
}

fn missing<'a>(field: Field) -> Option<ArgumentFault<'a>> {
    if field.1 == Kind::PerhapsMode {
        None
    } else {
        Some(ArgumentFault::Missing { field })
    }
}

fn wrong(field: Field, word: &[u8]) -> Option<ArgumentFault<'_>> {
    if accepts(field.1, word) {
        None
    } else {
        Some(ArgumentFault::Wrong { field, word })
    }
}
