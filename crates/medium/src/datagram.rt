//! Packets as bytes and back.
ghost use Rattle.std.specs.Prelude.{◌≡◌, ◌+◌, ◌^◌, ◌<◌, length, IfOk, OnErr, OnOk};
ghost use Rattle.formats.specs.Datagram.{IsPacket, body_bytes, header_for, datagram_packet, packet_spelling};
ghost use Rattle.net_base.specs.Medium.{datagram_length};
ghost use Rattle.ip_wire.specs.Headers.{view};
ghost use Rattle.medium.specs.Spelled.{HasBody, HasText, IsSpelledPacket};

use il_header::{decode_il, encode_il};
use ip_wire::{IpHeader, decode_ip, decode_udp, encode_ip_header, encode_udp};
use net_base::{Addr, Body, IlMsg, Octets, Packet};
use std::alloc::{AllocError, Global};

/// The bytes of an IPv4 header.
const HEADER: usize = 20;

/// The protocol number of IL.
const IL: u8 = 40;

/// The protocol number of UDP.
const UDP: u8 = 17;

/// The bytes of a packet.
pub fn datagram_of(alloc: Global, packet: &Packet) -> Result<Octets, AllocError>
    requires { datagram_length packet.now.body < 2 ^ 16 }
    ensures spelled { IfOk result (λ bytes. bytes ≡ packet_spelling packet.now) }
    ensures count { IfOk result (λ bytes. length bytes ≡ datagram_length packet.now.body) }
    ensures fits { OnOk result (IsPacket packet.now) }
{
    let mut bytes = vec![in alloc; 0u8; length_of(&packet.body)]?;
    write_datagram(packet, &mut bytes);
    Ok(Octets::from_vec(bytes))
}

// Writes the packet's bytes: what follows the IPv4 header first, since the header tells its length.
fn write_datagram(packet: &Packet, out: &mut [u8])
    requires fits { datagram_length packet.now.body < 2 ^ 16 }
    requires room { length out.old ≡ datagram_length packet.now.body }
    ensures spelled { out.new ≡ packet_spelling packet.now }
    ensures fits { IsPacket packet.now }
{
    let count = out.len() - HEADER;
    write_body(packet, &mut out[HEADER..]);
    encode_ip_header(&header_of(packet), count, out);
}

// Writes what follows the packet's IPv4 header.
fn write_body(packet: &Packet, out: &mut [u8])
    requires fits { datagram_length packet.now.body < 2 ^ 16 }
    requires room { 20 + length out.old ≡ datagram_length packet.now.body }
    ensures written { out.new ≡ body_bytes packet.now.src packet.now.dst packet.now.body }
    ensures body { HasBody packet.now }
{
    match &packet.body {
        Body::Il(message) => {
            let _ = encode_il(packet.src.port, packet.dst.port, message, out);
        }
        Body::Udp(text) => {
            let _ = encode_udp(packet.src, packet.dst, text.as_slice(), out);
        }
    }
}

fn length_of(body: &Body) -> usize
    requires { datagram_length body.now < 2 ^ 16 }
    ensures { result ≡ datagram_length body.now }
{
    match body {
        Body::Il(message) => message.text.len() + 38,
        Body::Udp(text) => text.len() + 28,
    }
}

fn header_of(packet: &Packet) -> IpHeader
    ensures { view result ≡ header_for packet.now }
{
    IpHeader {
        tos: packet.tos,
        ident: 0,
        dont_fragment: false,
        ttl: packet.ttl,
        proto: match &packet.body {
            Body::Il(_) => IL,
            Body::Udp(_) => UDP,
        },
        src: packet.src.ip,
        dst: packet.dst.ip,
    }
}

/// The packet that the bytes spell.
pub fn packet_from(alloc: Global, bytes: &[u8]) -> Result<Packet, AllocError>
    requires { IsSpelledPacket bytes.now }
    ensures ok { IfOk result (λ packet. packet ≡ datagram_packet bytes.now) }
    ensures memory { OnErr result (HasText (datagram_packet bytes.now)) }
{
    let ip = decode_ip(bytes).unwrap();
    let (sport, dport, body) = if ip.header.proto == IL {
        let il = decode_il(ip.payload).unwrap();
        let text = Octets::copy_of(alloc, il.text)?;
        let message = IlMsg {
            kind: il.kind,
            spec: il.spec,
            id: il.id,
            ack: il.ack,
            text,
        };
        (il.sport, il.dport, Body::Il(message))
    } else {
        let udp = decode_udp(ip.header.src, ip.header.dst, ip.payload).unwrap();
        (
            udp.sport,
            udp.dport,
            Body::Udp(Octets::copy_of(alloc, udp.text)?),
        )
    };
    Ok(Packet {
        src: Addr {
            ip: ip.header.src,
            port: sport,
        },
        dst: Addr {
            ip: ip.header.dst,
            port: dport,
        },
        ttl: ip.header.ttl,
        tos: ip.header.tos,
        body,
    })
}
