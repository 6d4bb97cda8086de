//! The notes on one pair.
use crate::attribute::Attr;
use crate::bundle::Pair;
use crate::facts::{Facts, Outline};
use crate::network::Network;
use crate::notes::{Notes, address_text, number_text};
use std::alloc::AllocError;
use words::{mask_of, number_in, read_address, read_mask, read_port};

/// Where a pair is: its line and its tuple.
#[derive(Clone, Copy)]
pub struct Spot<'a> {
    /// The number of the line.
    pub line: u64,
    /// The number of the tuple.
    pub tuple: usize,
    /// What the tuple has.
    pub outline: Outline<'a>,
    /// What the line has.
    pub own: Outline<'a>,
    /// The network of the tuple.
    pub network: Option<Network>,
    /// The line of `sys`, if its addresses are the only ones that `cs` takes.
    pub alone: Option<u64>,
}

impl<'a> Spot<'a> {
    // The system of the tuple, which is no network.
    fn system(&self) -> Option<&'a [u8]> {
        if self.outline.ipnet {
            None
        } else {
            self.outline.sys
        }
    }
}

/// Adds what is wrong with a pair.
pub fn note_pair(
    notes: &mut Notes,
    facts: &Facts<'_>,
    spot: &Spot<'_>,
    pair: Pair<'_>,
) -> Result<(), AllocError> {
    match pair.kind {
        Attr::Ip => note_ip(notes, facts, spot, pair.value),
        Attr::IpMask => note_mask(notes, spot, pair.value),
        Attr::IpGw => note_gateway(notes, facts, spot, pair.value),
        Attr::Sys => note_system(notes, facts, spot, pair.value),
        Attr::Dom => note_domain(notes, facts, spot, pair.value),
        Attr::Service => note_service(notes, spot, pair),
        Attr::Port => note_port(notes, spot, pair.value),
        Attr::Server => note_server(notes, facts, spot, pair),
        Attr::Cname => note_cname(notes, facts, spot, pair.value),
        Attr::File => note_named_file(notes, facts, spot, pair.value),
        _ => Ok(()),
    }
}

// Addresses.

fn note_ip(
    notes: &mut Notes,
    facts: &Facts<'_>,
    spot: &Spot<'_>,
    text: &[u8],
) -> Result<(), AllocError> {
    let Some(ip) = read_address(text) else {
        return note_no_address(notes, spot, text);
    };
    match spot.network {
        Some(network) => note_network_address(notes, spot, network, ip),
        None => match spot.system() {
            Some(sys) => note_system_address(notes, facts, spot, sys, ip),
            None => Ok(()),
        },
    }
}

// A value that is no IPv4 address, unless it is one of IPv6.
fn note_no_address(notes: &mut Notes, spot: &Spot<'_>, text: &[u8]) -> Result<(), AllocError> {
    if text.contains(&b':') {
        return Ok(());
    }
    let before = before_slash(text);
    if before.len() < text.len() && read_address(before).is_some() {
        return notes.add(
            spot.line,
            &[
                b"ip=",
                text,
                b" is no IPv4 address: cs ignores it; write ip=",
                before,
                b", and the mask in the tuple of the network",
            ],
        );
    }
    notes.add(
        spot.line,
        &[
            b"ip=",
            text,
            b" is no IPv4 address: cs ignores it; write four numbers from 0 to 255 with dots between them",
        ],
    )
}

fn before_slash(text: &[u8]) -> &[u8] {
    match text.iter().position(|byte| *byte == b'/') {
        Some(count) => text.get(..count).unwrap_or(text),
        None => text,
    }
}

fn note_network_address(
    notes: &mut Notes,
    spot: &Spot<'_>,
    network: Network,
    ip: u32,
) -> Result<(), AllocError> {
    let first = network.first();
    if !network.sure || ip != network.ip || spot.line != network.line || ip == first {
        return Ok(());
    }
    let ip = address_text(notes.allocator(), ip)?;
    let first = address_text(notes.allocator(), first)?;
    notes.add(
        spot.line,
        &[
            b"ip=",
            ip.as_slice(),
            b" has bits outside the mask: cs takes the network ",
            first.as_slice(),
            b"; write ip=",
            first.as_slice(),
        ],
    )
}

fn note_system_address(
    notes: &mut Notes,
    facts: &Facts<'_>,
    spot: &Spot<'_>,
    sys: &[u8],
    ip: u32,
) -> Result<(), AllocError> {
    note_ignored(notes, spot, sys, ip)?;
    if is_loopback(ip) {
        return Ok(());
    }
    note_shared(notes, facts, spot, sys, ip)?;
    note_place(notes, facts, spot, sys, ip)
}

// Addresses that begin with 127 are of the host itself.
fn is_loopback(ip: u32) -> bool {
    ip >> 24 == 127
}

// An address on another line than `sys`, whose line has addresses.
fn note_ignored(notes: &mut Notes, spot: &Spot<'_>, sys: &[u8], ip: u32) -> Result<(), AllocError> {
    let Some(alone) = spot.alone else {
        return Ok(());
    };
    if spot.line == alone || spot.own.sys.is_some() || spot.own.dom {
        return Ok(());
    }
    let ip = address_text(notes.allocator(), ip)?;
    let alone = number_text(notes.allocator(), alone)?;
    notes.add(
        spot.line,
        &[
            b"ip=",
            ip.as_slice(),
            b" is ignored: cs takes the addresses on line ",
            alone.as_slice(),
            b" alone, which has sys=",
            sys,
            b" and an ip; write all on that line, or all on other lines",
        ],
    )
}

// An address that another system has, too.
fn note_shared(
    notes: &mut Notes,
    facts: &Facts<'_>,
    spot: &Spot<'_>,
    sys: &[u8],
    ip: u32,
) -> Result<(), AllocError> {
    let Some(owner) = facts.addresses.get(&ip).copied() else {
        return Ok(());
    };
    if owner.tuple == spot.tuple || owner.name == sys {
        return Ok(());
    }
    let ip = address_text(notes.allocator(), ip)?;
    let line = number_text(notes.allocator(), owner.line)?;
    notes.add(
        spot.line,
        &[
            ip.as_slice(),
            b" is an address of ",
            owner.name,
            b", too, on line ",
            line.as_slice(),
            b": cs gives it for both; write another address for ",
            sys,
        ],
    )
}

// The place of an address in its network.
fn note_place(
    notes: &mut Notes,
    facts: &Facts<'_>,
    spot: &Spot<'_>,
    sys: &[u8],
    ip: u32,
) -> Result<(), AllocError> {
    let Some(network) = facts.networks.of(ip) else {
        return note_no_network(notes, facts, spot, ip);
    };
    if network.bits > 30 || !network.sure {
        Ok(())
    } else if ip == network.first() {
        note_end(notes, spot, network, sys, ip, b"first")
    } else if ip == network.last() {
        note_end(notes, spot, network, sys, ip, b"last")
    } else {
        Ok(())
    }
}

// An address that is the first or the last one of its network.
fn note_end(
    notes: &mut Notes,
    spot: &Spot<'_>,
    network: Network,
    sys: &[u8],
    ip: u32,
    which: &[u8],
) -> Result<(), AllocError> {
    let ip = address_text(notes.allocator(), ip)?;
    let line = number_text(notes.allocator(), network.line)?;
    notes.add(
        spot.line,
        &[
            ip.as_slice(),
            b" is the ",
            which,
            b" address of the network on line ",
            line.as_slice(),
            b": it is for the network or for broadcasts; write another address for ",
            sys,
        ],
    )
}

// Without any network, addresses need none.
fn note_no_network(
    notes: &mut Notes,
    facts: &Facts<'_>,
    spot: &Spot<'_>,
    ip: u32,
) -> Result<(), AllocError> {
    if facts.networks.is_empty() {
        return Ok(());
    }
    let ip = address_text(notes.allocator(), ip)?;
    notes.add(
        spot.line,
        &[
            ip.as_slice(),
            b" is on no network: cs finds no value such as $auth by this address; write a tuple with ipnet, ip and ipmask",
        ],
    )
}

// Networks.

fn note_mask(notes: &mut Notes, spot: &Spot<'_>, text: &[u8]) -> Result<(), AllocError> {
    if read_mask(text).is_some() {
        return Ok(());
    }
    if let Some(mask) = meant_mask(text) {
        let mask = address_text(notes.allocator(), mask)?;
        return notes.add(
            spot.line,
            &[
                b"ipmask=",
                text,
                b" is no mask: cs takes the class of the address in its place; write ipmask=",
                mask.as_slice(),
            ],
        );
    }
    notes.add(
        spot.line,
        &[
            b"ipmask=",
            text,
            b" is no mask: cs takes the class of the address in its place; write 1 bits before all 0 bits, as in 255.255.255.0",
        ],
    )
}

// The mask that `/N` means: N bits, or N bits of the 128 of an address in the form of IPv6.
fn meant_mask(text: &[u8]) -> Option<u32> {
    let bits = number_in(0, 128, text.strip_prefix(b"/")?)?;
    let bits = if bits >= 96 { bits - 96 } else { bits };
    if bits > 32 {
        return None;
    }
    Some((mask_of(bits as u32) & 0xffff_ffff) as u32)
}

// A gateway outside its network, or on no network at all.
fn note_gateway(
    notes: &mut Notes,
    facts: &Facts<'_>,
    spot: &Spot<'_>,
    text: &[u8],
) -> Result<(), AllocError> {
    let Some(ip) = read_address(text) else {
        return Ok(());
    };
    let is_near = match spot.network {
        Some(network) => network.contains(ip) || !network.sure,
        None => facts.networks.is_empty() || facts.networks.of(ip).is_some(),
    };
    if is_near || ip == 0 {
        return Ok(());
    }
    notes.add(
        spot.line,
        &[
            b"ipgw=",
            text,
            b" is not on its network: no host there can send to it; write an address of the network",
        ],
    )
}

// Names.

fn note_system(
    notes: &mut Notes,
    facts: &Facts<'_>,
    spot: &Spot<'_>,
    name: &[u8],
) -> Result<(), AllocError> {
    let Some(owner) = facts.systems.get(&name).copied() else {
        return Ok(());
    };
    if owner.tuple == spot.tuple || !owner.has_ip || !spot.outline.ip {
        return Ok(());
    }
    let line = number_text(notes.allocator(), owner.line)?;
    notes.add(
        spot.line,
        &[
            b"sys=",
            name,
            b" is on line ",
            line.as_slice(),
            b", too: cs gives the addresses of both tuples; write another name, or one tuple",
        ],
    )
}

fn note_domain(
    notes: &mut Notes,
    facts: &Facts<'_>,
    spot: &Spot<'_>,
    name: &[u8],
) -> Result<(), AllocError> {
    if name.iter().any(|byte| byte.is_ascii_uppercase()) && !facts.servers.contains(&name) {
        return notes.add(
            spot.line,
            &[
                b"dom=",
                name,
                b" has capital letters: dns asks for names in lower case and never finds it; write it in lower case",
            ],
        );
    }
    let Some(owner) = facts.domains.get(&name).copied() else {
        return Ok(());
    };
    let is_twice = owner.tuple != spot.tuple && owner.has_ip && spot.outline.ip;
    let sys = spot.outline.sys.unwrap_or(&[]);
    if !is_twice || sys.is_empty() || owner.name.is_empty() || owner.name == sys {
        return Ok(());
    }
    let line = number_text(notes.allocator(), owner.line)?;
    notes.add(
        spot.line,
        &[
            b"dom=",
            name,
            b" is on line ",
            line.as_slice(),
            b", too, for ",
            owner.name,
            b": cs and dns give the addresses of both systems; write another name",
        ],
    )
}

// Services.

fn note_service(notes: &mut Notes, spot: &Spot<'_>, pair: Pair<'_>) -> Result<(), AllocError> {
    let is_service = spot.outline.sys.is_none() && !spot.outline.ipnet && !spot.outline.dom;
    if spot.outline.port || !is_service {
        return Ok(());
    }
    notes.add(
        spot.line,
        &[
            pair.attr,
            b"=",
            pair.value,
            b" has no port: cs finds no service of this name; write port=N on this line",
        ],
    )
}

fn note_port(notes: &mut Notes, spot: &Spot<'_>, text: &[u8]) -> Result<(), AllocError> {
    if read_port(text).is_some() {
        return Ok(());
    }
    notes.add(
        spot.line,
        &[
            b"port=",
            text,
            b" is no port: cs ignores it; write a number from 1 to 65535",
        ],
    )
}

// Servers.

// A server that a system or a network has by a name that no tuple has.
fn note_server(
    notes: &mut Notes,
    facts: &Facts<'_>,
    spot: &Spot<'_>,
    pair: Pair<'_>,
) -> Result<(), AllocError> {
    if spot.outline.sys.is_none() && !spot.outline.ipnet {
        return Ok(());
    }
    match meaning_of(pair.value) {
        Meaning::System => match facts.systems.get(&pair.value).copied() {
            Some(owner) if owner.has_ip => Ok(()),
            Some(_) => note_unaddressed(notes, spot, pair),
            None => note_nothing(notes, spot, pair, b"sys"),
        },
        Meaning::Domain => match facts.domains.get(&pair.value).copied() {
            Some(owner) if owner.has_ip => Ok(()),
            Some(_) => note_unaddressed(notes, spot, pair),
            None => note_nothing(notes, spot, pair, b"dom"),
        },
        Meaning::Other => Ok(()),
    }
}

// How `cs` takes a value.
#[derive(Clone, Copy)]
enum Meaning {
    System,
    Domain,
    Other,
}

// A value with a letter and a dot is a domain, one with other bytes than digits and dots a system. Other forms are no names.
fn meaning_of(value: &[u8]) -> Meaning {
    let is_name = value.iter().all(|byte| byte.is_ascii_alphanumeric()
        || *byte == b'.'
        || *byte == b'-'
        || *byte == b'_');
    let has_letter = value.iter().any(|byte| byte.is_ascii_alphabetic());
    if value.is_empty() || !is_name || !has_letter {
        Meaning::Other
    } else if value.contains(&b'.') {
        Meaning::Domain
    } else {
        Meaning::System
    }
}

fn note_nothing(
    notes: &mut Notes,
    spot: &Spot<'_>,
    pair: Pair<'_>,
    attr: &[u8],
) -> Result<(), AllocError> {
    notes.add(
        spot.line,
        &[
            pair.attr,
            b"=",
            pair.value,
            b" names nothing: cs finds no address for $",
            pair.attr,
            b"; write a tuple with ",
            attr,
            b"=",
            pair.value,
            b" and its ip",
        ],
    )
}

fn note_unaddressed(notes: &mut Notes, spot: &Spot<'_>, pair: Pair<'_>) -> Result<(), AllocError> {
    notes.add(
        spot.line,
        &[
            pair.attr,
            b"=",
            pair.value,
            b" has no address: cs finds no host for $",
            pair.attr,
            b"; write an ip in the tuple of ",
            pair.value,
        ],
    )
}

// An alias of a name that no tuple has.
fn note_cname(
    notes: &mut Notes,
    facts: &Facts<'_>,
    spot: &Spot<'_>,
    name: &[u8],
) -> Result<(), AllocError> {
    if facts.domains.contains_key(&name) {
        return Ok(());
    }
    notes.add(
        spot.line,
        &[
            b"cname=",
            name,
            b" names nothing: dns gives the alias without an address; write a tuple with dom=",
            name,
            b" and its ip",
        ],
    )
}

// Files.

fn note_named_file(
    notes: &mut Notes,
    facts: &Facts<'_>,
    spot: &Spot<'_>,
    name: &[u8],
) -> Result<(), AllocError> {
    if !spot.outline.database || facts.files.contains(&name) || !facts.named.contains(&name) {
        return Ok(());
    }
    notes.add(
        spot.line,
        &[
            b"there is no file ",
            name,
            b": cs reads nothing for it; write its text behind a line %file ",
            name,
        ],
    )
}
