//! The checksum of the Internet protocols.
ghost use Rattle.std.specs.Prelude.{◌≡◌, ◌+◌, ◌*◌, ◌^◌, ◌-◌, ◌<◌, ◌≤◌, length, sum};
ghost use Rattle.formats.specs.Sum.{words, sum_of};
ghost use Rattle.ip_wire.specs.Carries.{around};

/// The checksum of the bytes, over 16-bit words (RFC 1071).
pub fn sum(bytes: &[u8]) -> u16
    requires { length bytes.now ≤ 65547 }
    ensures { result ≡ sum_of bytes.now }
{
    complement(add_words(0, bytes))
}

/// Adds the words of the bytes to a sum of words, carries and all.
pub fn add_words(before: u32, bytes: &[u8]) -> u32
    requires { before + 32768 * (length bytes.now + 1) < 2 ^ 32 }
    ensures value { result ≡ before + sum (words bytes.now) }
    ensures within { result ≤ before + 32768 * (length bytes.now + 1) }
{
    let mut total = before;
    let mut rest = bytes;
    while let [high, low, after @ ..] = rest {
        total += u32::from(u16::from_be_bytes([*high, *low]));
        rest = after;
    }
    if let [last] = rest {
        total += u32::from(*last) * 256;
    }
    total
}

/// The complement of a sum of words, after the carries went round.
pub fn complement(total: u32) -> u16
    ensures { result ≡ 65535 - around total }
{
    let once = total % 65536 + total / 65536;
    let twice = once % 65536 + once / 65536;
    65535 - twice as u16
}
