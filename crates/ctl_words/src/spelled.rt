//! The text that a control is written as.
ghost use Rattle.std.specs.Prelude.{◌≡◌, ◌≤◌, ◌+◌, ◌++◌, ◌||◌, List, ℕ, bytes_eq, codes, decimal, drop, false, length, take, true};
ghost use Rattle.std.specs.Option.{option_map_or};
ghost use Rattle.net_base.specs.ControlWords as spec;
ghost use Rattle.ctl_words.specs.Written.{Lays, piece_text, written};

use itoa::Buffer;
use net_base::Ctl;

/// A part of a text.
#[derive(Clone, Copy)]
pub enum Piece {
    Text(&'static [u8]),
    Number(u32),
}

/// Writes a control without a newline, and gives its length.
pub fn write_ctl(ctl: &Ctl, out: &mut [u8; 48]) -> usize
    requires in_range { spec.control_in_range ctl.now ≡ true }
    ensures len { result ≡ length (spec.spelling ctl.now) }
    ensures written { out.new ≡ spec.spelling ctl.now ++ drop result out.old }
{
    match *ctl {
        Ctl::Connect {
            remote,
            lport: None,
        } => write_place(out, b"connect ", remote.ip, remote.port),
        Ctl::Connect {
            remote,
            lport: Some(last),
        } => write_place_with_port(out, b"connect ", remote.ip, remote.port, last),
        Ctl::Announce {
            ip: None,
            port: Some(port),
        } => write_number(out, b"announce *!", port as u32),
        Ctl::Announce {
            ip: Some(ip),
            port: Some(port),
        } => write_place(out, b"announce ", ip, port),
        Ctl::Announce { port: None, .. } => write(out, &[Piece::Text(b"announce *")]),
        Ctl::Bind { port } => write_number(out, b"bind ", port as u32),
        Ctl::Hangup => write(out, &[Piece::Text(b"hangup")]),
        Ctl::Ttl { n } => write_number(out, b"ttl ", n as u32),
        Ctl::Tos { n } => write_number(out, b"tos ", n as u32),
    }
}

/// Whether a line is the one that a control is written as, or its short form.
pub fn is_spelled(line: &[u8], control: &Ctl) -> bool
    requires { spec.control_in_range control.now ≡ true }
    ensures { result ≡ (bytes_eq line.now (spec.spelling control.now) || option_map_or
        (λ (short : List ℕ). bytes_eq line.now short) (spec.short_spelling control.now) false) }
{
    let mut out = [0; 48];
    let len = write_ctl(control, &mut out);
    line == &out[..len] || is_short(line, control)
}

// Whether a line is the short form of a control.
fn is_short(line: &[u8], control: &Ctl) -> bool
    ensures { result ≡ option_map_or (λ (short : List ℕ). bytes_eq line.now short) (spec.short_spelling control.now)
        false }
{
    match *control {
        Ctl::Announce {
            ip: None,
            port: Some(port),
        } => {
            let mut out = [0; 48];
            let len = write_number(&mut out, b"announce ", port as u32);
            line == &out[..len]
        }
        _ => false,
    }
}

// Writes a word and a number.
fn write_number(out: &mut [u8; 48], word: &'static [u8], n: u32) -> usize
    requires { length word.now ≤ 11 }
    ensures { Lays (word.now ++ decimal n) out.old out.new result }
{
    write(out, &[Piece::Text(word), Piece::Number(n)])
}

// Writes a word, an address and a port.
fn write_place(out: &mut [u8; 48], word: &'static [u8], ip: u32, port: u16) -> usize
    requires { length word.now ≤ 11 }
    ensures { Lays (word.now ++ spec.place (record { ip = ip; port = port })) out.old out.new result }
{
    write(
        out,
        &[
            Piece::Text(word),
            Piece::Number(ip / (1 << 24)),
            Piece::Text(b"."),
            Piece::Number(ip / (1 << 16) % 256),
            Piece::Text(b"."),
            Piece::Number(ip / (1 << 8) % 256),
            Piece::Text(b"."),
            Piece::Number(ip % 256),
            Piece::Text(b"!"),
            Piece::Number(port as u32),
        ],
    )
}

// Writes a word, an address and two ports.
fn write_place_with_port(
    out: &mut [u8; 48],
    word: &'static [u8],
    ip: u32,
    port: u16,
    last: u16,
) -> usize
    requires { length word.now ≤ 11 }
    ensures { Lays (word.now ++ spec.place (record { ip = ip; port = port }) ++ codes " " ++ decimal last) out.old
        out.new result }
{
    write(
        out,
        &[
            Piece::Text(word),
            Piece::Number(ip / (1 << 24)),
            Piece::Text(b"."),
            Piece::Number(ip / (1 << 16) % 256),
            Piece::Text(b"."),
            Piece::Number(ip / (1 << 8) % 256),
            Piece::Text(b"."),
            Piece::Number(ip % 256),
            Piece::Text(b"!"),
            Piece::Number(port as u32),
            Piece::Text(b" "),
            Piece::Number(last as u32),
        ],
    )
}

// Writes pieces in a row from the start, and gives their length.
fn write(out: &mut [u8; 48], pieces: &[Piece]) -> usize
    requires { length (written pieces.now) ≤ 48 }
    ensures { Lays (written pieces.now) out.old out.new result }
{
    let mut at = 0;
    for piece in pieces {
        at = put_piece(out, at, piece);
    }
    at
}

// Writes a piece at a place, and gives the place behind it.
fn put_piece(out: &mut [u8; 48], at: usize, piece: &Piece) -> usize
    requires { at + length (piece_text piece.now) ≤ 48 }
    ensures end { result ≡ at + length (piece_text piece.now) }
    ensures text { out.new ≡ take at out.old ++ (piece_text piece.now ++ drop result out.old) }
{
    match piece {
        Piece::Text(text) => put(out, at, text),
        Piece::Number(n) => {
            let mut buffer = Buffer::new();
            put(out, at, buffer.format(*n).as_bytes())
        }
    }
}

// Writes a text at a place, and gives the place behind it.
fn put(out: &mut [u8; 48], at: usize, text: &[u8]) -> usize
    requires { at + length text.now ≤ 48 }
    ensures end { result ≡ at + length text.now }
    ensures text { out.new ≡ take at out.old ++ (text.now ++ drop result out.old) }
{
    let end = at + text.len();
    out[at..end].copy_from_slice(text);
    end
}
