//! Protocols, addresses and pairs of them.
ghost use Rattle.std.specs.Prelude.{◌≡◌};
ghost use Rattle.net_base.specs.Mirror as spec;

/// A protocol over IPv4.
#[derive(Clone, Copy, Debug, PartialEq, Eq)]
pub enum Proto {
    /// The Internet Link protocol, IP protocol 40.
    Il,
    /// The User Datagram Protocol, RFC 768, IP protocol 17.
    Udp,
}

/// An IPv4 address with a port.
#[derive(Clone, Copy, Debug, PartialEq, Eq)]
pub struct Addr {
    pub ip: u32,
    pub port: u16,
}

/// Both addresses of a conversation, as one of its ends sees them.
#[derive(Clone, Copy, Debug, PartialEq, Eq)]
pub struct Pair {
    pub local: Addr,
    pub remote: Addr,
}

/// This pair as the other end sees it.
pub fn mirror(pair: Pair) -> Pair
    ensures { result ≡ spec.mirror pair }
{
    Pair {
        local: pair.remote,
        remote: pair.local,
    }
}
