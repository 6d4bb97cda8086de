//! Attributes: those that `cs`, `dns` and lint know, those of standard databases, and near misses.

/// What an attribute means to lint.
#[derive(Clone, Copy, PartialEq, Eq)]
pub enum Attr {
    /// `sys`: the name of a system.
    Sys,
    /// `dom`: a domain name.
    Dom,
    /// `ip`: an address of a system, a domain or a network.
    Ip,
    /// `ipnet`: the name of a network.
    IpNet,
    /// `ipmask`: the mask of a network.
    IpMask,
    /// `ipgw`: the gateway of a network or of a system.
    IpGw,
    /// `il`, `udp` or `tcp`: the name of a service.
    Service,
    /// `port`: the number of a service.
    Port,
    /// `database`: the tuple that selects files.
    Database,
    /// `file`: a file of the database.
    File,
    /// `auth`, `fs`, `cpu` or `dns`: the name or the address of a server.
    Server,
    /// `cname`: another name of a domain.
    Cname,
    /// `ns`: a name server of a domain.
    NameServer,
    /// Another attribute.
    Other,
}

/// The meaning of an attribute.
pub fn attr_of(name: &[u8]) -> Attr {
    match name.len() {
        2 => attr_of_two(name),
        3 => attr_of_three(name),
        4 => attr_of_four(name),
        _ => attr_of_more(name),
    }
}

fn attr_of_two(name: &[u8]) -> Attr {
    if name == b"ip".as_slice() {
        Attr::Ip
    } else if name == b"il".as_slice() {
        Attr::Service
    } else if name == b"fs".as_slice() {
        Attr::Server
    } else if name == b"ns".as_slice() {
        Attr::NameServer
    } else {
        Attr::Other
    }
}

fn attr_of_three(name: &[u8]) -> Attr {
    if name == b"sys".as_slice() {
        Attr::Sys
    } else if name == b"dom".as_slice() {
        Attr::Dom
    } else if name == b"udp".as_slice() || name == b"tcp".as_slice() {
        Attr::Service
    } else if name == b"cpu".as_slice() || name == b"dns".as_slice() {
        Attr::Server
    } else {
        Attr::Other
    }
}

fn attr_of_four(name: &[u8]) -> Attr {
    if name == b"port".as_slice() {
        Attr::Port
    } else if name == b"ipgw".as_slice() {
        Attr::IpGw
    } else if name == b"auth".as_slice() {
        Attr::Server
    } else if name == b"file".as_slice() {
        Attr::File
    } else {
        Attr::Other
    }
}

fn attr_of_more(name: &[u8]) -> Attr {
    if name == b"ipnet".as_slice() {
        Attr::IpNet
    } else if name == b"cname".as_slice() {
        Attr::Cname
    } else if name == b"ipmask".as_slice() {
        Attr::IpMask
    } else if name == b"database".as_slice() {
        Attr::Database
    } else {
        Attr::Other
    }
}

/// The attributes for which lint looks for near misses.
const MEANT: [&[u8]; 17] = [
    b"ipmask",
    b"ipnet",
    b"ipgw",
    b"sys",
    b"dom",
    b"auth",
    b"cpu",
    b"dns",
    b"cname",
    b"port",
    b"file",
    b"database",
    b"udp",
    b"tcp",
    b"ether",
    b"authdom",
    b"bootf",
];

/// Attributes of standard databases that are near one of those.
const STANDARD: [&[u8]; 14] = [
    b"ipgw6",
    b"ipgw4",
    b"ipmask6",
    b"ipnet6",
    b"gre",
    b"ntp",
    b"smb",
    b"dnsdomain",
    b"proto",
    b"soa",
    b"auths",
    b"rdp",
    b"tftp",
    b"rudp",
];

/// The attribute that this one is a near miss of: one letter is wrong, missing or too many, two are exchanged, or some are
/// capital letters.
pub fn near_miss(name: &[u8]) -> Option<&'static [u8]> {
    if attr_of(name) != Attr::Other || is_among(&STANDARD, name) || is_among(&MEANT, name) {
        return None;
    }
    for meant in &MEANT {
        let meant: &'static [u8] = meant;
        if is_near(name, meant) {
            return Some(meant);
        }
    }
    None
}

fn is_among(names: &[&[u8]], name: &[u8]) -> bool {
    names.iter().any(|other| *other == name)
}

// Whether two names differ in one place, or only in capital letters.
fn is_near(name: &[u8], meant: &[u8]) -> bool {
    if name.len() > 16 {
        return false;
    }
    name.eq_ignore_ascii_case(meant) || is_one_off(name, meant)
}

// Whether two names differ in one letter after their common beginning, or in two that are exchanged.
fn is_one_off(name: &[u8], meant: &[u8]) -> bool {
    let (name, meant) = without_common(name, meant);
    match (name, meant) {
        ([_, rest @ ..], []) | ([], [_, rest @ ..]) => rest.is_empty(),
        ([a, name @ ..], [b, meant @ ..]) => is_off(*a, name, *b, meant),
        _ => false,
    }
}

// Whether two names that begin with different letters are equal after one that is wrong, missing or too many, or after two that are
// exchanged.
fn is_off(a: u8, name: &[u8], b: u8, meant: &[u8]) -> bool {
    if name == meant || begins_with(name, b, meant) || begins_with(meant, a, name) {
        return true;
    }
    match (name, meant) {
        ([c, name @ ..], [d, meant @ ..]) => *c == b && *d == a && name == meant,
        _ => false,
    }
}

// Whether a text is this letter and then these.
fn begins_with(text: &[u8], letter: u8, rest: &[u8]) -> bool {
    match text {
        [first, others @ ..] => *first == letter && others == rest,
        [] => false,
    }
}

// What two texts have after the beginning that is the same in both.
fn without_common<'a, 'b>(a: &'a [u8], b: &'b [u8]) -> (&'a [u8], &'b [u8]) {
    let common = a.iter().zip(b).position(|(x, y)| x != y);
    let count = match common {
        Some(count) => count,
        None => a.len().min(b.len()),
    };
    (a.get(count..).unwrap_or(&[]), b.get(count..).unwrap_or(&[]))
}
