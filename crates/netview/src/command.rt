//! The words of the command line.
ghost use Rattle.std.specs.Prelude.{◌≡◌, map, option_map, string_bytes};
ghost use Rattle.netview.specs.Commands.{command_read};
ghost use Rattle.netview.specs.Words.{command_of, one_word, two_words};

/// What is shown of a history, with the words that it needs.
#[derive(Clone, Copy)]
pub enum View<'a> {
    /// `pcap`
    Capture,
    /// `pcap MEDIUM`
    CaptureOf(&'a [u8]),
    /// `pcapng`
    CaptureInBlocks,
    /// `json`
    Json,
    /// `page`, with the texts before and after its payload.
    Page { head: &'a [u8], tail: &'a [u8] },
    /// `chart`
    Chart,
    /// `chart conversations`
    ChartOfTalks,
    /// `steps`
    Steps,
    /// `words`
    Words,
}

/// A command.
#[derive(Clone, Copy)]
pub enum Command<'a> {
    /// Something is shown of a history.
    Show(View<'a>),
    /// `lint`
    Lint,
}

/// The command that words give, if they are in a row. A page has this head and this tail.
pub fn read_words<'a>(words: &'a [String], head: &'a [u8], tail: &'a [u8]) -> Option<Command<'a>>
    ensures { option_map command_read result ≡ command_of head.now tail.now (map string_bytes words.now) }
{
    match words {
        [name] => read_one(name.as_bytes(), head, tail),
        [name, word] => read_two(name.as_bytes(), word.as_bytes()),
        _ => None,
    }
}

/// The command of one word.
fn read_one<'a>(name: &[u8], head: &'a [u8], tail: &'a [u8]) -> Option<Command<'a>>
    ensures { option_map command_read result ≡ one_word head.now tail.now name.now }
{
    if name == b"pcap".as_slice() {
        return Some(Command::Show(View::Capture));
    }
    if name == b"pcapng".as_slice() {
        return Some(Command::Show(View::CaptureInBlocks));
    }
    if name == b"json".as_slice() {
        return Some(Command::Show(View::Json));
    }
    if name == b"page".as_slice() {
        return Some(Command::Show(View::Page { head, tail }));
    }
    if name == b"chart".as_slice() {
        return Some(Command::Show(View::Chart));
    }
    if name == b"steps".as_slice() {
        return Some(Command::Show(View::Steps));
    }
    if name == b"words".as_slice() {
        return Some(Command::Show(View::Words));
    }
    if name == b"lint".as_slice() {
        return Some(Command::Lint);
    }
    None
}

/// The command of two words.
fn read_two<'a>(name: &[u8], word: &'a [u8]) -> Option<Command<'a>>
    ensures { option_map command_read result ≡ two_words name.now word.now }
{
    if name == b"pcap".as_slice() && !word.is_empty() {
        return Some(Command::Show(View::CaptureOf(word)));
    }
    if name == b"chart".as_slice() && word == b"conversations".as_slice() {
        return Some(Command::Show(View::ChartOfTalks));
    }
    None
}
