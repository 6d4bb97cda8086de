//! The lines of an answer.
ghost use Rattle.std.specs.Prelude.{◌≡◌, ◌++◌, codes, flat_map, map, OnOk, IfOk};
ghost use Rattle.net_base.specs.Cs as spec;
ghost use Rattle.cs_resolver.specs.Targets.{target_text};

use net_base::{Lines, Octets, Proto};
use std::alloc::{AllocError, Global};
use words::{put_address, put_decimal};

/// Where a line connects to.
#[derive(Clone, Copy)]
pub enum Target {
    /// Any address of the host's, written `*`.
    Any,
    /// An address.
    Ip(u32),
}

/// The clone file of a net, and the blank behind it.
fn clone_of(net: Proto) -> &'static [u8]
    ensures { result.now ≡ codes "/net/" ++ spec.proto_name net ++ codes "/clone " }
{
    match net {
        Proto::Il => b"/net/il/clone ",
        Proto::Udp => b"/net/udp/clone ",
    }
}

/// How long a line mostly gets: a net of three letters, twelve digits and three dots, and five digits more.
const MOST: usize = 36;

/// Adds an address as it is written.
fn put_target(out: &mut Octets, target: Target) -> Result<(), AllocError>
    ensures { OnOk result (out.new ≡ out.old ++ target_text target) }
{
    match target {
        Target::Any => out.append(b"*"),
        Target::Ip(ip) => put_address(out, ip),
    }
}

/// The line of a clone file and what to connect there.
pub fn line_of(alloc: Global, net: Proto, target: Target, port: u32) -> Result<Octets, AllocError>
    ensures { IfOk result (λ line. line ≡ spec.cs_line net (target_text target) port) }
{
    let mut line = Octets::from_vec(Vec::with_capacity(alloc, MOST)?);
    line.append(clone_of(net))?;
    put_target(&mut line, target)?;
    line.append(b"!")?;
    put_decimal(&mut line, u64::from(port))?;
    Ok(line)
}

/// Adds the lines of a net at an address.
fn add_lines_at(
    alloc: Global,
    net: Proto,
    target: Target,
    ports: &[u32],
    lines: &mut Lines,
) -> Result<(), AllocError>
    ensures { OnOk result (lines.new
        ≡ lines.old ++ map (spec.cs_line net (target_text target)) ports.now) }
{
    for port in ports {
        lines.push(line_of(alloc, net, target, *port)?)?;
    }
    Ok(())
}

/// Adds the lines of a net, by its ports.
pub fn add_lines_of(
    alloc: Global,
    net: Proto,
    targets: &[Target],
    ports: &[u32],
    lines: &mut Lines,
) -> Result<(), AllocError>
    ensures { OnOk result (lines.new
        ≡ lines.old ++ flat_map (λ target. map (spec.cs_line net (target_text target)) ports.now) targets.now) }
{
    for target in targets {
        add_lines_at(alloc, net, *target, ports, lines)?;
    }
    Ok(())
}
