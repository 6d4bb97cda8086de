//! The three kinds of blocks that a file has.
ghost use Rattle.std.specs.Prelude.{◌≡◌, ◌+◌, ◌++◌, ◌≤◌, ◌<◌, ◌^◌, length, OnOk};
ghost use Rattle.pcapng.specs.Blocks as spec;

use crate::block::{put_block, put_long, put_option, put_padded};
use net_base::Octets;
use std::alloc::{AllocError, Global};

/// The types of a section header block, of an interface description block and of an enhanced packet block.
const SECTION: u32 = 0x0a0d0d0a;

const INTERFACE: u32 = 1;

const PACKET: u32 = 6;

/// The codes of a comment, of the name of an interface and of the unit of its times.
const COMMENT: u16 = 1;

const NAME: u16 = 2;

const UNIT: u16 = 9;

/// Times are in thousandths of a second.
const MILLISECONDS: [u8; 1] = [3];

// The magic number, the version 1.0, and no length of the section.
#[tactic(auto, unfolding(crate::specs::Blocks::short_number, crate::specs::Blocks::long_number))]
fn section_body() -> [u8; 16]
    ensures { result ≡ spec.section_body }
{
    [
        0x4d, 0x3c, 0x2b, 0x1a, 1, 0, 0, 0, 255, 255, 255, 255, 255, 255, 255, 255,
    ]
}

// The link type of raw IP, and the greatest length of a packet.
#[tactic(auto, unfolding(crate::specs::Blocks::short_number, crate::specs::Blocks::long_number))]
fn interface_start() -> [u8; 8]
    ensures { result ≡ spec.interface_start }
{
    [101, 0, 0, 0, 255, 255, 0, 0]
}

/// Adds the block that a file begins with.
#[tactic(auto, unfolding(crate::specs::Blocks::section_block))]
pub fn put_section(out: &mut Octets) -> Result<(), AllocError>
    ensures { OnOk result (out.new ≡ out.old ++ spec.section_block) }
{
    put_block(out, SECTION, &section_body())
}

#[tactic(auto, unfolding(crate::specs::Blocks::interface_body))]
fn put_interface_body(body: &mut Octets, name: &[u8]) -> Result<(), AllocError>
    ensures { OnOk result (body.new ≡ body.old ++ spec.interface_body name.now) }
{
    body.append(&interface_start())?;
    put_option(body, NAME, name)?;
    put_option(body, UNIT, &MILLISECONDS)?;
    put_long(body, 0)
}

/// Adds the block of an interface with this name.
#[tactic(auto, unfolding(crate::specs::Blocks::interface_block))]
pub fn put_interface(out: &mut Octets, alloc: Global, name: &[u8]) -> Result<(), AllocError>
    ensures { OnOk result (out.new ≡ out.old ++ spec.interface_block name.now) }
{
    let mut body = Octets::new(alloc);
    put_interface_body(&mut body, name)?;
    put_block(out, INTERFACE, body.as_slice())
}

fn put_packet_start(
    body: &mut Octets,
    interface: u32,
    moment: u64,
    count: u32,
) -> Result<(), AllocError>
    requires { moment ≤ 1000000000 }
    ensures { OnOk result (body.new ≡ body.old ++ spec.packet_start interface moment count) }
{
    put_long(body, interface)?;
    put_long(body, (moment / 4294967296) as u32)?;
    put_long(body, moment as u32)?;
    put_long(body, count)?;
    put_long(body, count)
}

#[tactic(auto, unfolding(crate::specs::Blocks::packet_body))]
fn put_packet_body(
    body: &mut Octets,
    interface: u32,
    moment: u64,
    bytes: &[u8],
    comment: &[u8],
) -> Result<(), AllocError>
    requires early { moment ≤ 1000000000 }
    requires fits { length bytes.now < 2 ^ 16 }
    ensures { OnOk result (body.new ≡ body.old ++ spec.packet_body
        (record { interface = interface; moment = moment; bytes = bytes.now; comment = comment.now })) }
{
    put_packet_start(body, interface, moment, bytes.len() as u32)?;
    put_padded(body, bytes)?;
    put_option(body, COMMENT, comment)?;
    put_long(body, 0)
}

/// Adds the block of a packet that was put on an interface at a moment, in ms.
#[tactic(auto, unfolding(crate::specs::Blocks::packet_block))]
pub fn put_packet(
    out: &mut Octets,
    alloc: Global,
    interface: u32,
    moment: u64,
    bytes: &[u8],
    comment: &[u8],
) -> Result<(), AllocError>
    requires early { moment ≤ 1000000000 }
    requires fits { length bytes.now < 2 ^ 16 }
    ensures { OnOk result (out.new ≡ out.old ++ spec.packet_block
        (record { interface = interface; moment = moment; bytes = bytes.now; comment = comment.now })) }
{
    let mut body = Octets::new(alloc);
    put_packet_body(&mut body, interface, moment, bytes, comment)?;
    put_block(out, PACKET, body.as_slice())
}
