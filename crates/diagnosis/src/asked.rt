//! The programs, and the kinds of input that their commands read.
ghost use Rattle.std.specs.Prelude.{◌≡◌};

/// The program that was called.
#[derive(Clone, Copy, Debug, PartialEq, Eq)]
pub enum Program {
    Netsh,
    Netview,
}

/// The kind of input of a command.
#[derive(Clone, Copy, Debug, PartialEq, Eq)]
pub enum Input {
    /// A network database.
    Database,
    /// A world without sessions.
    World,
    /// A world that may have sessions.
    Sessions,
    /// A world, the line `%history` and a history.
    History,
    /// None, or the words are no command.
    Nothing,
}

/// The kind of input of the command with this name.
pub fn input_of(program: Program, name: &[u8]) -> Input {
    match program {
        Program::Netsh => input_of_netsh(name),
        Program::Netview => input_of_netview(name),
    }
}

fn input_of_netsh(name: &[u8]) -> Input {
    match name {
        b"cs" | b"query" | b"dns" => Input::Database,
        b"run" => Input::World,
        b"export" | b"translate" => Input::Sessions,
        b"check" => Input::History,
        _ => Input::Nothing,
    }
}

fn input_of_netview(name: &[u8]) -> Input {
    match name {
        b"lint" => Input::Database,
        b"pcap" | b"pcapng" | b"json" | b"chart" | b"page" | b"steps" | b"words" => Input::History,
        _ => Input::Nothing,
    }
}

/// The word of a command line at a place, or no bytes.
pub fn command_word(words: &[String], place: usize) -> &[u8] {
    match words.get(place) {
        Some(word) => word.as_bytes(),
        None => b"",
    }
}
