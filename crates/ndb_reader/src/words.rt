//! The words of a line, each an attribute with its value.
ghost use Rattle.std.specs.Prelude.{◌≡◌, true, map, ◌≤◌, ◌+◌, ◌||◌, [], length, take, drop, IfOk, OnOk};
ghost use Rattle.std.specs.List.{list_any, position_or_len};
ghost use Rattle.net_base.specs.NdbText as spec;
ghost use Rattle.net_base.specs.Store.{with_pairs};
ghost use Rattle.ndb_reader.specs.Told.{AreWords, IsWordRead, is_break};

use net_base::Growing;
use std::alloc::AllocError;

/// White space is blank, tab and carriage return.
pub(crate) fn is_white(byte: u8) -> bool
    ensures { result ≡ spec.is_white byte }
{
    byte == b' ' || byte == b'\t' || byte == b'\r'
}

/// Whether a line has words, whether one begins with `=`, and whether a quote isn't closed or is followed by something.
#[derive(Clone, Copy, Debug, Drop)]
pub(crate) struct Words {
    pub(crate) some: bool,
    pub(crate) nameless: bool,
    pub(crate) unclosed: bool,
    pub(crate) followed: bool,
}

/// A word at the front of a line, and the rest of the line.
#[derive(Clone, Copy)]
pub(crate) struct Word<'a> {
    pub(crate) attr: &'a [u8],
    pub(crate) value: &'a [u8],
    pub(crate) rest: &'a [u8],
    pub(crate) unclosed: bool,
    pub(crate) followed: bool,
}

impl Words {
    /// No words.
    pub(crate) fn new() -> Words
        ensures { AreWords result [] }
    {
        Words {
            some: false,
            nameless: false,
            unclosed: false,
            followed: false,
        }
    }

    /// Counts one more word.
    fn add(&mut self, word: Word<'_>)
        ensures some { self.new.some ≡ true }
        ensures nameless { self.new.nameless ≡ (self.old.nameless || spec.is_empty word.entry.attr.now) }
        ensures unclosed { self.new.unclosed ≡ (self.old.unclosed || word.entry.unclosed) }
        ensures followed { self.new.followed ≡ (self.old.followed || word.entry.followed) }
    {
        self.some = true;
        self.nameless = self.nameless || is_nothing(word.attr);
        self.unclosed = self.unclosed || word.unclosed;
        self.followed = self.followed || word.followed;
    }
}

/// The words of a line that doesn't begin with `%`, up to one that begins with `#`. Their pairs go onto the line that is open.
pub(crate) fn read_words(line: &[u8], growing: &mut Growing) -> Result<Words, AllocError>
    ensures words { IfOk result (λ words. AreWords words (spec.words_behind 0 line.now)) }
    ensures pairs { OnOk result (growing.new ≡ with_pairs (map spec.word_pair (spec.words_behind 0 line.now))
        growing.old) }
{
    let mut words = Words::new();
    let mut rest = line;
    while !rest.is_empty() {
        if rest[0] == b'#' {
            return Ok(words);
        }
        if is_white(rest[0]) {
            rest = from(rest, 1);
            continue;
        }
        let word = word_at(rest);
        growing.push(word.attr, word.value)?;
        words.add(word);
        rest = word.rest;
    }
    Ok(words)
}

/// The word that begins these bytes: it is quoted where its first `=` is followed by a quote.
fn word_at(bytes: &[u8]) -> Word<'_>
    ensures { IsWordRead result bytes.now (spec.word_of bytes.now) }
{
    let ends = ends_of(bytes);
    let run = &bytes[..ends.word];
    if is_quoted(run, ends.attr) {
        return quoted_at(bytes, ends.attr);
    }
    Word {
        attr: &run[..ends.attr],
        value: behind(run, ends.attr),
        rest: from(bytes, ends.word),
        unclosed: false,
        followed: false,
    }
}

/// Whether a quote follows the `=` at a place.
fn is_quoted(run: &[u8], end: usize) -> bool
    ensures { result ≡ spec.begins spec.is_quote (drop (end + 1) run.now) }
{
    match behind(run, end) {
        [first, ..] => *first == b'"',
        [] => false,
    }
}

/// The word whose attribute has this length, and whose value is quoted.
fn quoted_at(bytes: &[u8], end: usize) -> Word<'_>
    requires { end + 2 ≤ length bytes.now }
    ensures { IsWordRead result bytes.now (spec.quoted_word (take end bytes.now) (drop (end + 2) bytes.now)) }
{
    let attr = &bytes[..end];
    let quoted = from(bytes, end + 2);
    if !has_quote(quoted) {
        return Word {
            attr,
            value: quoted,
            rest: &[],
            unclosed: true,
            followed: false,
        };
    }
    let close = quote_len(quoted);
    let after = behind(quoted, close);
    let more = word_len(after);
    Word {
        attr,
        value: &quoted[..close],
        rest: from(after, more),
        unclosed: false,
        followed: !is_nothing(&after[..more]),
    }
}

/// Whether there is a quote among bytes.
fn has_quote(bytes: &[u8]) -> bool
    ensures { result ≡ list_any spec.is_quote bytes.now }
{
    bytes.contains(&b'"')
}

/// Whether there are no bytes.
fn is_nothing(bytes: &[u8]) -> bool
    ensures { result ≡ spec.is_empty bytes.now }
{
    bytes.is_empty()
}

/// How many bytes stand before white space.
fn word_len(bytes: &[u8]) -> usize
    ensures value { result ≡ position_or_len spec.is_white bytes.now }
    ensures within { result ≤ length bytes.now }
{
    bytes
        .iter()
        .position(|byte| is_white(*byte))
        .unwrap_or(bytes.len())
}

/// How many bytes a word has, and its attribute.
#[derive(Clone, Copy)]
struct Ends {
    word: usize,
    attr: usize,
}

/// How many bytes stand before white space, and of these before the first `=`. Each byte is looked at once.
fn ends_of(bytes: &[u8]) -> Ends
    ensures word { result.word ≡ position_or_len spec.is_white bytes.now }
    ensures attr { result.attr ≡ position_or_len spec.is_equals (take result.word bytes.now) }
    ensures within { result.word ≤ length bytes.now }
{
    let attr = attr_len(bytes);
    let value = word_len(from(bytes, attr));
    Ends {
        word: attr + value,
        attr,
    }
}

/// How many bytes stand before the first `=` or white space.
fn attr_len(bytes: &[u8]) -> usize
    ensures value { result ≡ position_or_len is_break bytes.now }
    ensures within { result ≤ length bytes.now }
{
    bytes
        .iter()
        .position(|byte| is_break(*byte))
        .unwrap_or(bytes.len())
}

/// Whether a word or its attribute ends before this byte.
fn is_break(byte: u8) -> bool
    ensures { result ≡ is_break byte }
{
    byte == b'=' || is_white(byte)
}

/// How many bytes stand before the first quote.
fn quote_len(bytes: &[u8]) -> usize
    ensures value { result ≡ position_or_len spec.is_quote bytes.now }
    ensures within { result ≤ length bytes.now }
{
    bytes
        .iter()
        .position(|byte| *byte == b'"')
        .unwrap_or(bytes.len())
}

/// What stands from a place on.
fn from(bytes: &[u8], place: usize) -> &[u8]
    requires { place ≤ length bytes.now }
    ensures { result.now ≡ drop place bytes.now }
{
    &bytes[place..]
}

/// What stands behind a place.
fn behind(word: &[u8], place: usize) -> &[u8]
    ensures { result.now ≡ drop (place + 1) word.now }
{
    if place < word.len() {
        &word[place + 1..]
    } else {
        &[]
    }
}
