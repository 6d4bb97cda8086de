//! The hosts and interfaces of a world, compared with its database.
use crate::attribute::Attr;
use crate::bundle::Pair;
use crate::facts::Facts;
use crate::notes::{Notes, address_text, number_text};
use crate::pair::Spot;
use crate::world::{Host, Interface, Setting};
use std::alloc::AllocError;
use words::{mask_of, read_address};

/// Adds what the database lacks of the hosts and interfaces.
pub fn note_hosts(
    notes: &mut Notes,
    setting: &Setting<'_>,
    facts: &Facts<'_>,
) -> Result<(), AllocError> {
    for host in &setting.hosts {
        note_host(notes, facts, *host)?;
    }
    for interface in &setting.interfaces {
        note_interface(notes, facts, *interface)?;
    }
    Ok(())
}

fn note_host(notes: &mut Notes, facts: &Facts<'_>, host: Host<'_>) -> Result<(), AllocError> {
    if facts.systems.contains_key(&host.name) {
        return Ok(());
    }
    notes.add(
        host.line,
        &[
            b"host ",
            host.name,
            b" has no tuple: cs finds no address for its name; write sys=",
            host.name,
            b" and its ip in the database",
        ],
    )
}

fn note_interface(
    notes: &mut Notes,
    facts: &Facts<'_>,
    interface: Interface<'_>,
) -> Result<(), AllocError> {
    if !facts.systems.contains_key(&interface.host) {
        return Ok(());
    }
    match facts.addresses.get(&interface.ip).copied() {
        Some(owner) if owner.name == interface.host => note_width(notes, facts, interface),
        Some(owner) => {
            let ip = address_text(notes.allocator(), interface.ip)?;
            let line = number_text(notes.allocator(), owner.line)?;
            notes.add(
                interface.line,
                &[
                    ip.as_slice(),
                    b" is an interface of ",
                    interface.host,
                    b", but an address of ",
                    owner.name,
                    b" on line ",
                    line.as_slice(),
                    b": a call of ",
                    owner.name,
                    b" reaches ",
                    interface.host,
                    b"; write the ip at sys=",
                    interface.host,
                ],
            )
        }
        None => {
            let ip = address_text(notes.allocator(), interface.ip)?;
            notes.add(
                interface.line,
                &[
                    ip.as_slice(),
                    b" is not in the database: cs does not give this address for ",
                    interface.host,
                    b"; write ip=",
                    ip.as_slice(),
                    b" at sys=",
                    interface.host,
                ],
            )
        }
    }
}

// An interface whose mask is another than that of its network in the database.
fn note_width(
    notes: &mut Notes,
    facts: &Facts<'_>,
    interface: Interface<'_>,
) -> Result<(), AllocError> {
    let Some(network) = facts.networks.of(interface.ip) else {
        return Ok(());
    };
    if network.bits == interface.bits || !network.sure {
        return Ok(());
    }
    let mask = address_text(
        notes.allocator(),
        (mask_of(network.bits.min(32)) & 0xffff_ffff) as u32,
    )?;
    let line = number_text(notes.allocator(), network.line)?;
    notes.add(
        interface.line,
        &[
            b"the mask differs from that of the network on line ",
            line.as_slice(),
            b", ",
            mask.as_slice(),
            b": cs takes other hosts for near ones than ",
            interface.host,
            b" does; write the same mask",
        ],
    )
}

/// Adds an address of a host that none of its interfaces has.
pub fn note_unreached(
    notes: &mut Notes,
    setting: &Setting<'_>,
    spot: &Spot<'_>,
    pair: Pair<'_>,
) -> Result<(), AllocError> {
    let (Attr::Ip, Some(sys), false) = (pair.kind, spot.outline.sys, spot.outline.ipnet) else {
        return Ok(());
    };
    if !setting.names.contains_key(&sys) {
        return Ok(());
    }
    let Some(ip) = read_address(pair.value) else {
        return Ok(());
    };
    if setting.addresses.contains_key(&ip) {
        return Ok(());
    }
    notes.add(
        spot.line,
        &[
            b"no interface of ",
            sys,
            b" has ",
            pair.value,
            b": a call of this address finds no station; write the address of an interface",
        ],
    )
}
