//! A law of packets as bytes.
ghost use Rattle.std.specs.Prelude.{◌≡◌};
ghost use Rattle.net_base.specs.declared.packet.Packet.{Packet};
ghost use Rattle.formats.specs.Datagram.{IsPacket, datagram_packet, packet_spelling};

/// The bytes of a packet read back as the packet.
pub fn packets_are_read()
    ensures { (p : Packet) → IsPacket p → datagram_packet (packet_spelling p) ≡ p }
{}
