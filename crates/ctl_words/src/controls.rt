//! The control that a text says.
ghost use Rattle.std.specs.Prelude.{◌≡◌, ◌==◌, ◌∷◌, [], true, None, Some};
ghost use Rattle.std.specs.List.{slice_split};
ghost use Rattle.std.specs.Option.{option_and_then};
ghost use Rattle.std.specs.Prelude.{ℕ, List};
ghost use Rattle.std.specs.Str.Parse.{digits_value};
ghost use Rattle.net_base.specs.declared.names.Ctl.TheVariants as ctl;
ghost use Rattle.net_base.specs.ControlWords as spec;
ghost use Rattle.ctl_words.specs.Told.{told_as_number};

use crate::fault::CtlError;
use crate::numbers::{byte, place, port};
use crate::parts::{first_word, is_word, single, without_newline};
use crate::spelled::is_spelled;
use net_base::{Addr, Ctl};
use words::split_first;

/// The control that a text says, which a newline may end.
pub fn read_ctl(text: &[u8]) -> Result<Ctl, CtlError>
    ensures { told_as_number result ≡ spec.read text.now }
{
    if !is_word(first_word(text)) {
        return Err(CtlError::BadWord);
    }
    match said(without_newline(text)) {
        Some(control) => Ok(control),
        None => Err(CtlError::BadArgument),
    }
}

// The control that a line says.
fn said(line: &[u8]) -> Option<Ctl>
    ensures { result ≡ spec.said line.now }
{
    let (word, rest) = split_first(line, b' ');
    if word == b"hangup".as_slice() {
        return keep(line, Ctl::Hangup);
    }
    let rest = rest?;
    if word == b"connect".as_slice() {
        connect(line, rest)
    } else if word == b"announce".as_slice() {
        announce(line, rest)
    } else if word == b"bind".as_slice() {
        bind(line, rest)
    } else if word == b"ttl".as_slice() {
        ttl(line, rest)
    } else {
        tos(line, rest)
    }
}

// Keeps a control whose spelling is the line.
fn keep(line: &[u8], control: Ctl) -> Option<Ctl>
    requires { spec.control_in_range control ≡ true }
    ensures { result ≡ spec.checked_control line.now (Some control) }
{
    if is_spelled(line, &control) {
        Some(control)
    } else {
        None
    }
}

// What `connect` and these arguments say.
fn connect(line: &[u8], arguments: &[u8]) -> Option<Ctl>
    ensures { result ≡ spec.checked_control line.now (spec.connect_of (slice_split (λ b. b == 32) arguments.now)) }
{
    let (at, rest) = split_first(arguments, b' ');
    match rest {
        None => connect_to(line, at),
        Some(rest) => match single(rest, b' ') {
            Some(last) => connect_from(line, at, last),
            None => None,
        },
    }
}

// Connects to a place.

fn connect_to(line: &[u8], at: &[u8]) -> Option<Ctl>
    ensures { result ≡ spec.checked_control line.now (spec.connect_of (at.now ∷ [])) }
{
    match place(at) {
        Some(remote) => keep(
            line,
            Ctl::Connect {
                remote,
                lport: None,
            },
        ),
        None => None,
    }
}

// Connects to a place from a port.

fn connect_from(line: &[u8], at: &[u8], last: &[u8]) -> Option<Ctl>
    ensures { result ≡ spec.checked_control line.now (spec.connect_of (at.now ∷ last.now ∷ [])) }
{
    match (place(at), port(last)) {
        (Some(remote), Some(port)) => keep(
            line,
            Ctl::Connect {
                remote,
                lport: Some(port),
            },
        ),
        _ => None,
    }
}

// What `announce` and these arguments say.
fn announce(line: &[u8], arguments: &[u8]) -> Option<Ctl>
    ensures { result ≡ spec.checked_control line.now
        (option_and_then (λ (at : List ℕ). spec.announce_of (spec.parts_of_place at))
        (spec.single (slice_split (λ b. b == 32) arguments.now))) }
{
    match single(arguments, b' ') {
        Some(at) => announce_at(line, at),
        None => None,
    }
}

// Announces a place.
fn announce_at(line: &[u8], at: &[u8]) -> Option<Ctl>
    ensures { result ≡ spec.checked_control line.now (spec.announce_of (spec.parts_of_place at.now)) }
{
    let (host, rest) = split_first(at, b'!');
    match rest {
        None => announce_port(line, host),
        Some(rest) => match single(rest, b'!') {
            Some(last) => announce_both(line, at, host, last),
            None => None,
        },
    }
}

// A star or a port.
fn announce_port(line: &[u8], host: &[u8]) -> Option<Ctl>
    ensures { result ≡ spec.checked_control line.now (spec.announce_of (host.now ∷ [])) }
{
    if host == b"*".as_slice() {
        return keep(
            line,
            Ctl::Announce {
                ip: None,
                port: None,
            },
        );
    }
    announce_anywhere(line, host)
}

// A star or an address, and a port.

fn announce_both(line: &[u8], at: &[u8], host: &[u8], last: &[u8]) -> Option<Ctl>
    requires { spec.parts_of_place at.now ≡ host.now ∷ last.now ∷ [] }
    ensures { result ≡ spec.checked_control line.now (spec.announce_of (host.now ∷ last.now ∷ [])) }
{
    if host == b"*".as_slice() {
        return announce_anywhere(line, last);
    }
    match place(at) {
        Some(Addr { ip, port }) => keep(
            line,
            Ctl::Announce {
                ip: Some(ip),
                port: Some(port),
            },
        ),
        None => None,
    }
}

// A port at any address.
fn announce_anywhere(line: &[u8], last: &[u8]) -> Option<Ctl>
    ensures { result ≡ spec.checked_control line.now (Some (ctl.Announce None (Some (digits_value 10 last.now)))) }
{
    match port(last) {
        Some(port) => keep(
            line,
            Ctl::Announce {
                ip: None,
                port: Some(port),
            },
        ),
        None => None,
    }
}

// What `bind` and these arguments say.
fn bind(line: &[u8], arguments: &[u8]) -> Option<Ctl>
    ensures { result ≡ spec.checked_control line.now
        (spec.with_number (λ n. ctl.Bind n) (slice_split (λ b. b == 32) arguments.now)) }
{
    let only = single(arguments, b' ')?;
    match port(only) {
        Some(port) => keep(line, Ctl::Bind { port }),
        None => None,
    }
}

// What `ttl` and these arguments say.
fn ttl(line: &[u8], arguments: &[u8]) -> Option<Ctl>
    ensures { result ≡ spec.checked_control line.now
        (spec.with_number (λ n. ctl.Ttl n) (slice_split (λ b. b == 32) arguments.now)) }
{
    let only = single(arguments, b' ')?;
    match byte(only) {
        Some(n) if 0 < n => keep(line, Ctl::Ttl { n }),
        _ => None,
    }
}

// What `tos` and these arguments say.
fn tos(line: &[u8], arguments: &[u8]) -> Option<Ctl>
    ensures { result ≡ spec.checked_control line.now
        (spec.with_number (λ n. ctl.Tos n) (slice_split (λ b. b == 32) arguments.now)) }
{
    let only = single(arguments, b' ')?;
    match byte(only) {
        Some(n) => keep(line, Ctl::Tos { n }),
        None => None,
    }
}
