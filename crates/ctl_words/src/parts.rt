//! The parts of a text.
ghost use Rattle.std.specs.Prelude.{◌≡◌, ◌==◌, ◌||◌, ◌∷◌, [], MatchOption};
ghost use Rattle.std.specs.List.{slice_split, position_or_len};
ghost use Rattle.net_base.specs.ControlWords as spec;
ghost use Rattle.ctl_words.specs.Kept.{AreMany};

use words::split_first;

/// A text, where the separator isn't in it.
pub fn single(text: &[u8], separator: u8) -> Option<&[u8]>
    ensures { MatchOption result
        (AreMany (slice_split (λ b. b == separator) text.now))
        (λ only. slice_split (λ b. b == separator) text.now ≡ only.now ∷ []) }
{
    let (first, rest) = split_first(text, separator);
    match rest {
        None => Some(first),
        Some(_) => None,
    }
}

// How many bytes stand before the first blank or newline.
fn word_len(text: &[u8]) -> usize
    ensures { result ≡ position_or_len (λ b. (b == spec.blank) || (b == spec.newline)) text.now }
{
    text.iter()
        .position(|byte| *byte == b' ' || *byte == b'\n')
        .unwrap_or(text.len())
}

/// The bytes before the first blank or newline.
pub fn first_word(text: &[u8]) -> &[u8]
    ensures { result.now ≡ spec.first_word text.now }
{
    &text[..word_len(text)]
}

/// Whether it is one of the six words.
pub fn is_word(word: &[u8]) -> bool
    ensures { result ≡ spec.is_control_word word.now }
{
    word == b"connect".as_slice()
        || word == b"announce".as_slice()
        || word == b"bind".as_slice()
        || word == b"hangup".as_slice()
        || word == b"ttl".as_slice()
        || word == b"tos".as_slice()
}

/// A text without the newline at its end, if it has one.
pub fn without_newline(text: &[u8]) -> &[u8]
    ensures { result.now ≡ spec.without_newline text.now }
{
    if text.is_empty() {
        return text;
    }
    let last = text.len() - 1;
    if text[last] == b'\n' {
        &text[..last]
    } else {
        text
    }
}
