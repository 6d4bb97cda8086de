//! Numbers at a place in bytes, high byte first.
ghost use Rattle.std.specs.Prelude.{◌≡◌, ◌+◌, ◌≤◌, length};
ghost use Rattle.net_base.specs.Bytes.{word_at, long_at};

use byteorder::{BigEndian, ByteOrder};

/// The 16-bit number at a place.
pub fn word(bytes: &[u8], at: usize) -> u16
    requires { at + 2 ≤ length bytes.now }
    ensures { result ≡ word_at at bytes.now }
{
    BigEndian::read_u16(&bytes[at..])
}

/// The 32-bit number at a place.
pub fn long(bytes: &[u8], at: usize) -> u32
    requires { at + 4 ≤ length bytes.now }
    ensures { result ≡ long_at at bytes.now }
{
    BigEndian::read_u32(&bytes[at..])
}
