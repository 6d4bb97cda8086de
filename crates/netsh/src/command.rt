//! The words of the command line.
ghost use Rattle.std.specs.Prelude.{◌≡◌, ◌∷◌, ◌&&◌, [], is_some, length, map, nat_le, option_map, string_bytes};
ghost use Rattle.net_base.specs.Hexadecimal.{hex_bytes, hex_value};
ghost use Rattle.net_model.specs.Words.{command_of, is_message, is_any_word, messages_in_words, reads_input, workers_in};
ghost use Rattle.netsh.specs.Commands.{command_read, question_read};

use words::number_in;

/// A command that never waits, with the words that it needs.
#[derive(Clone, Copy)]
pub enum Question<'a> {
    /// `cs SYS QUERY`
    Cs(&'a [u8], &'a [u8]),
    /// `query ATTR VALUE`
    Tuples(&'a [u8], &'a [u8]),
    /// `query ATTR VALUE RATTR`
    Beside(&'a [u8], &'a [u8], &'a [u8]),
    /// `dns HEX`
    Dns(&'a [u8]),
    /// `make N`
    Make(u32),
    /// `check`
    Check,
    /// `translate`
    Translate,
}

/// A command.
#[derive(Clone, Copy)]
pub enum Command<'a> {
    /// One that never waits.
    Question(Question<'a>),
    /// `run WORKERS`
    Run(u32),
    /// `big N`
    Big(u32),
    /// `export WORKERS`
    Export(u32),
}

/// Whether a command that never waits has an input.
pub fn has_input(question: Question<'_>) -> bool
    ensures { result ≡ reads_input (question_read question.entry) }
{
    match question {
        Question::Cs(_, _) => true,
        Question::Tuples(_, _) => true,
        Question::Beside(_, _, _) => true,
        Question::Dns(_) => true,
        Question::Make(_) => false,
        Question::Check => true,
        Question::Translate => true,
    }
}

/// The command that words give, if they are in a row.
pub fn read_words(words: &[String]) -> Option<Command<'_>>
    ensures { option_map command_read result ≡ command_of (map string_bytes words.now) }
{
    match words {
        [name] => read_one(name.as_bytes()),
        [name, number] => read_two(name.as_bytes(), number.as_bytes()),
        [name, first, second] => read_three(name.as_bytes(), first.as_bytes(), second.as_bytes()),
        [name, attr, value, other] => read_four(
            name.as_bytes(),
            attr.as_bytes(),
            value.as_bytes(),
            other.as_bytes(),
        ),
        _ => None,
    }
}

/// The command of one word.
fn read_one(name: &[u8]) -> Option<Command<'_>>
    ensures { option_map command_read result ≡ command_of (name.now ∷ []) }
{
    if name == b"check".as_slice() {
        return Some(Command::Question(Question::Check));
    }
    if name == b"translate".as_slice() {
        return Some(Command::Question(Question::Translate));
    }
    None
}

/// The command of two words.
fn read_two<'a>(name: &[u8], number: &'a [u8]) -> Option<Command<'a>>
    ensures { option_map command_read result ≡ command_of (name.now ∷ number.now ∷ []) }
{
    if name == b"run".as_slice() {
        return Some(Command::Run(read_workers(number)?));
    }
    if name == b"make".as_slice() {
        return Some(Command::Question(Question::Make(read_messages(number)?)));
    }
    if name == b"big".as_slice() {
        return Some(Command::Big(read_messages(number)?));
    }
    if name == b"export".as_slice() {
        return Some(Command::Export(read_workers(number)?));
    }
    if name == b"dns".as_slice() && is_message(number) {
        return Some(Command::Question(Question::Dns(number)));
    }
    None
}

/// The most digits of a message, two a byte.
const MOST_DIGITS: usize = 2048;

/// Whether a word is a message in hexadecimal, of 1 to 1024 bytes.
#[tactic(auto, using(crate::proofs::Messages::message_is))]
fn is_message(word: &[u8]) -> bool
    ensures { result ≡ is_message word.now }
{
    is_within(word) && are_pairs(word)
}

/// Whether a word is as long as one of 1 to 1024 bytes may be.
fn is_within(word: &[u8]) -> bool
    ensures { result ≡ (nat_le 2 (length word.now) && nat_le (length word.now) 2048) }
{
    2 <= word.len() && word.len() <= MOST_DIGITS
}

/// Whether all bytes are pairs of digits in lower case.
#[tactic(auto, using(crate::proofs::Messages::pair_more))]
fn are_pairs(digits: &[u8]) -> bool
    ensures { result ≡ is_some (hex_bytes digits.now) }
{
    match digits {
        [] => true,
        [high, low, rest @ ..] => is_digit(*high) && is_digit(*low) && are_pairs(rest),
        _ => false,
    }
}

/// Whether a byte is a digit in lower case.
fn is_digit(byte: u8) -> bool
    ensures { result ≡ is_some (hex_value byte) }
{
    matches!(byte, b'0'..=b'9' | b'a'..=b'f')
}

/// The number of workers that a word says, 1 to 16.
#[tactic(auto, unfolding(net_model::specs::Words::workers_in))]
fn read_workers(word: &[u8]) -> Option<u32>
    ensures { result ≡ workers_in word.now }
{
    let workers = number_in(1, 16, word)?;
    Some(workers as u32)
}

/// The number of messages that a word says, 1 to 9000.
#[tactic(auto, unfolding(net_model::specs::Words::messages_in_words))]
fn read_messages(word: &[u8]) -> Option<u32>
    ensures { result ≡ messages_in_words word.now }
{
    let messages = number_in(1, 9000, word)?;
    Some(messages as u32)
}

/// The command of three words.
fn read_three<'a>(name: &[u8], first: &'a [u8], second: &'a [u8]) -> Option<Command<'a>>
    ensures { option_map command_read result ≡ command_of (name.now ∷ first.now ∷ second.now ∷ []) }
{
    if !is_word(first) || !is_word(second) {
        return None;
    }
    if name == b"cs".as_slice() {
        return Some(Command::Question(Question::Cs(first, second)));
    }
    if name == b"query".as_slice() {
        return Some(Command::Question(Question::Tuples(first, second)));
    }
    None
}

/// The command of four words.
fn read_four<'a>(
    name: &[u8],
    attr: &'a [u8],
    value: &'a [u8],
    other: &'a [u8],
) -> Option<Command<'a>>
    ensures { option_map command_read result ≡ command_of (name.now ∷ attr.now ∷ value.now ∷ other.now ∷ []) }
{
    if name == b"query".as_slice() && is_word(attr) && is_word(value) && is_word(other) {
        Some(Command::Question(Question::Beside(attr, value, other)))
    } else {
        None
    }
}

/// Whether a word has bytes.
fn is_word(word: &[u8]) -> bool
    ensures { result ≡ is_any_word word.now }
{
    !word.is_empty()
}
