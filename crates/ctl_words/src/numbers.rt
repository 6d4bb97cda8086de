//! Numbers and addresses in control texts.
ghost use Rattle.std.specs.Prelude.{◌≡◌, ◌≤◌, ◌==◌, ◌+◌, ◌*◌, ◌^◌, Some};
ghost use Rattle.std.specs.List.{slice_split};
ghost use Rattle.std.specs.Str.Parse.{digits_value};
ghost use Rattle.net_base.specs.ControlWords as spec;
ghost use Rattle.ctl_words.specs.Kept.{cap, kept_port, kept_byte, kept_ip, kept_place};

use net_base::Addr;
use words::{number_up_to, split_first};

/// Stands for all numbers that are as large.
const CAP: u64 = 68_719_476_736;

/// A port, 1 to 65535.
pub fn port(text: &[u8]) -> Option<u16>
    ensures { result ≡ kept_port (digits_value 10 text.now) }
{
    let number = number_up_to(CAP, text);
    if 0 < number && number < 65536 {
        Some(number as u16)
    } else {
        None
    }
}

/// A number of one byte.
pub fn byte(text: &[u8]) -> Option<u8>
    ensures { result ≡ kept_byte (digits_value 10 text.now) }
{
    let number = number_up_to(CAP, text);
    if number < 256 {
        Some(number as u8)
    } else {
        None
    }
}

/// Four numbers joined by dots.
fn address(text: &[u8]) -> Option<u32>
    ensures { result ≡ kept_ip (spec.address_of (slice_split (λ b. b == 46) text.now)) }
{
    let (first, rest) = split_first(text, b'.');
    let (second, rest) = split_first(rest?, b'.');
    let (third, rest) = split_first(rest?, b'.');
    let (fourth, rest) = split_first(rest?, b'.');
    if let Some(_) = rest {
        return None;
    }
    join(
        number_up_to(CAP, first),
        number_up_to(CAP, second),
        number_up_to(CAP, third),
        number_up_to(CAP, fourth),
    )
}

// The address of four numbers, where it is one.
fn join(a: u64, b: u64, c: u64, d: u64) -> Option<u32>
    requires { (a ≤ cap) × (b ≤ cap) × (c ≤ cap) × (d ≤ cap) }
    ensures { result ≡ kept_ip (Some (a * 2 ^ 24 + b * 2 ^ 16 + c * 2 ^ 8 + d)) }
{
    let ip = (a << 24) + (b << 16) + (c << 8) + d;
    if ip < 1 << 32 { Some(ip as u32) } else { None }
}

/// An address and a port with a `!` between them.
pub fn place(text: &[u8]) -> Option<Addr>
    ensures { result ≡ kept_place (spec.place_of (spec.parts_of_place text.now)) }
{
    let (host, rest) = split_first(text, b'!');
    let (last, more) = split_first(rest?, b'!');
    if let Some(_) = more {
        return None;
    }
    let ip = address(host)?;
    let port = port(last)?;
    Some(Addr { ip, port })
}
