//! The hosts and interfaces of a world file, and where its database begins.
use indexmap::IndexMap;
use std::alloc::{AllocError, Global};
use words::{read_address, read_mask};

/// A host: its name, and its line.
#[derive(Clone, Copy)]
pub struct Host<'a> {
    pub name: &'a [u8],
    pub line: u64,
}

/// An interface: its line, its host, its address and its mask.
#[derive(Clone, Copy)]
pub struct Interface<'a> {
    pub line: u64,
    pub host: &'a [u8],
    pub ip: u32,
    pub bits: u32,
}

/// What a world file says of hosts. A database alone has none.
#[derive(Drop)]
pub struct Setting<'a> {
    /// The hosts, in order.
    pub hosts: Vec<Host<'a>>,
    /// The interfaces, in order.
    pub interfaces: Vec<Interface<'a>>,
    /// The line of each host.
    pub names: IndexMap<&'a [u8], u64>,
    /// The host of each address.
    pub addresses: IndexMap<u32, &'a [u8]>,
    /// The text after the line `ndb`, or the whole text if it is no world.
    pub database: &'a [u8],
    /// How many lines are before that text.
    pub before: u64,
    /// Whether the text is a world.
    pub is_world: bool,
    /// Whether it has a database.
    pub has_database: bool,
}

/// What a text says of hosts, up to the line `ndb`.
pub fn setting_of(alloc: Global, text: &[u8]) -> Result<Setting<'_>, AllocError> {
    let mut setting = Setting {
        hosts: Vec::new(alloc),
        interfaces: Vec::new(alloc),
        names: IndexMap::new(alloc),
        addresses: IndexMap::new(alloc),
        database: text,
        before: 0,
        is_world: is_world(text),
        has_database: true,
    };
    if setting.is_world {
        read_world(&mut setting, text)?;
    }
    Ok(setting)
}

// Whether the first line with words begins a world.
fn is_world(text: &[u8]) -> bool {
    let first = text
        .split(|byte| *byte == b'\n')
        .find(|line| !line.is_empty() && !line.starts_with(b"#"));
    first.is_some_and(|line| line.starts_with(b"networld "))
}

fn read_world<'a>(setting: &mut Setting<'a>, text: &'a [u8]) -> Result<(), AllocError> {
    let mut at: usize = 0;
    let mut number: u64 = 0;
    for line in text.split(|byte| *byte == b'\n') {
        number = number.saturating_add(1);
        at = at.saturating_add(line.len()).saturating_add(1);
        if line == b"ndb".as_slice() {
            setting.database = text.get(at..).unwrap_or(&[]);
            setting.before = number;
            return Ok(());
        }
        read_line(setting, number, line)?;
    }
    setting.database = &[];
    setting.before = number;
    setting.has_database = false;
    Ok(())
}

fn read_line<'a>(setting: &mut Setting<'a>, number: u64, line: &'a [u8]) -> Result<(), AllocError> {
    match line {
        [b'h', b'o', b's', b't', b' ', rest @ ..] => add_host(setting, number, word(rest).0),
        [b'i', b'f', b' ', rest @ ..] => add_interface(setting, number, rest),
        _ => Ok(()),
    }
}

fn add_host<'a>(setting: &mut Setting<'a>, line: u64, name: &'a [u8]) -> Result<(), AllocError> {
    setting.names.insert(name, line)?;
    setting.hosts.push(Host { name, line })?;
    Ok(())
}

// Adds an interface of the last host.
fn add_interface<'a>(
    setting: &mut Setting<'a>,
    line: u64,
    text: &'a [u8],
) -> Result<(), AllocError> {
    let (_medium, rest) = word(text);
    let (ip, rest) = word(rest);
    let (mask, _rest) = word(rest);
    let (Some(host), Some(ip), Some(bits)) = (
        setting.hosts.last().copied(),
        read_address(ip),
        read_mask(mask),
    ) else {
        return Ok(());
    };
    let host = host.name;
    setting.addresses.insert(ip, host)?;
    setting.interfaces.push(Interface {
        line,
        host,
        ip,
        bits,
    })?;
    Ok(())
}

// The bytes before the first blank, and those after it.
fn word(text: &[u8]) -> (&[u8], &[u8]) {
    match text.iter().position(|byte| *byte == b' ') {
        Some(count) => (
            text.get(..count).unwrap_or(text),
            text.get(count.saturating_add(1)..).unwrap_or(&[]),
        ),
        None => (text, &[]),
    }
}
