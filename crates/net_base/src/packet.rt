//! Packets, and what an entry shows of them.
ghost use Rattle.std.specs.Prelude.{◌≡◌};
ghost use Rattle.net_base.specs.Headers as spec;

use crate::address::Addr;
use crate::il::{IlKind, IlMsg};
use crate::octets::Octets;

/// What a packet carries.
#[derive(Clone, Debug, Drop)]
pub enum Body {
    Il(IlMsg),
    Udp(Octets),
}

/// An IPv4 datagram of IL or UDP.
#[derive(Clone, Debug, Drop)]
pub struct Packet {
    pub src: Addr,
    pub dst: Addr,
    pub ttl: u8,
    pub tos: u8,
    pub body: Body,
}

/// What stands in a packet's body, with the length of its text in bytes in the text's place.
#[derive(Clone, Copy, Debug, PartialEq, Eq)]
pub enum BodyHeader {
    Il {
        kind: IlKind,
        spec: u8,
        id: u32,
        ack: u32,
        length: u64,
    },
    Udp {
        length: u64,
    },
}

/// A packet with the length of its text in the text's place.
#[derive(Clone, Copy, Debug, PartialEq, Eq)]
pub struct Header {
    pub src: Addr,
    pub dst: Addr,
    pub ttl: u8,
    pub tos: u8,
    pub body: BodyHeader,
}

impl Packet {
    /// The packet with the length of its text in the text's place.
    pub fn header(&self) -> Header
        ensures { result ≡ spec.header self.now }
    {
        let body = match &self.body {
            Body::Il(message) => BodyHeader::Il {
                kind: message.kind,
                spec: message.spec,
                id: message.id,
                ack: message.ack,
                length: message.text.len() as u64,
            },
            Body::Udp(text) => BodyHeader::Udp {
                length: text.len() as u64,
            },
        };
        Header {
            src: self.src,
            dst: self.dst,
            ttl: self.ttl,
            tos: self.tos,
            body,
        }
    }
}
