//! Networks: masks, and the networks of a bundle.
use crate::attribute::Attr;
use crate::bundle::{Bundle, Pair, Tuple};
use indexmap::IndexMap;
use std::alloc::{AllocError, Global};
use words::{mask_of, read_address, read_mask};

/// A network: how many of its first bits its addresses share, these bits, and the line of its address.
#[derive(Clone, Copy)]
pub struct Network {
    /// The number of ones of the mask, 0 to 32.
    pub bits: u32,
    /// The address that its tuple gives.
    pub ip: u32,
    /// The line of this address.
    pub line: u64,
    /// Whether the tuple has a valid mask, or none at all.
    pub sure: bool,
}

impl Network {
    /// Whether an address is in the network.
    pub fn contains(&self, ip: u32) -> bool {
        first_bits(self.bits, ip) == first_bits(self.bits, self.ip)
    }

    /// The first address, whose bits outside the mask are 0.
    pub fn first(&self) -> u32 {
        self.ip & mask(self.bits)
    }

    /// The last address, whose bits outside the mask are 1.
    pub fn last(&self) -> u32 {
        self.ip | !mask(self.bits)
    }
}

/// The networks of a bundle, by the number of bits and by the bits.
#[derive(Drop)]
pub struct Networks {
    by_bits: IndexMap<(u32, u32), Network>,
    sizes: Vec<u32>,
}

impl Networks {
    /// No networks.
    pub fn new(alloc: Global) -> Networks {
        Networks {
            by_bits: IndexMap::new(alloc),
            sizes: Vec::new(alloc),
        }
    }

    /// Adds a network, unless there is one of the same bits.
    pub fn add(&mut self, network: Network) -> Result<(), AllocError> {
        let key = (network.bits, first_bits(network.bits, network.ip));
        if self.by_bits.contains_key(&key) {
            return Ok(());
        }
        self.by_bits.insert(key, network)?;
        if !self.sizes.contains(&network.bits) {
            self.sizes.push(network.bits)?;
        }
        Ok(())
    }

    /// Whether there is no network.
    pub fn is_empty(&self) -> bool {
        self.sizes.is_empty()
    }

    /// The smallest network that contains an address.
    pub fn of(&self, ip: u32) -> Option<Network> {
        let mut found: Option<Network> = None;
        for bits in &self.sizes {
            if found.is_none_or(|network| network.bits < *bits) {
                let there = self.by_bits.get(&(*bits, first_bits(*bits, ip))).copied();
                found = there.or(found);
            }
        }
        found
    }
}

/// The network of a tuple with `ipnet`: its first address, with its first valid mask or that of the class of the address.
pub fn network_of(bundle: &Bundle<'_>, tuple: Tuple) -> Option<Network> {
    let mut found = Found {
        at: None,
        bits: None,
        masked: false,
    };
    for line in bundle.lines_of(tuple) {
        for place in line.first..line.end {
            let Some(pair) = bundle.pair_at(place) else {
                continue;
            };
            found = found.with(pair, line.number);
        }
    }
    let (ip, line) = found.at?;
    Some(Network {
        bits: found.bits.unwrap_or(class_bits(ip)),
        ip,
        line,
        sure: found.bits.is_some() || !found.masked,
    })
}

// The first address with its line, the first valid mask, and whether there is a mask.
#[derive(Clone, Copy)]
struct Found {
    at: Option<(u32, u64)>,
    bits: Option<u32>,
    masked: bool,
}

impl Found {
    fn with(self, pair: Pair<'_>, line: u64) -> Found {
        match pair.kind {
            Attr::Ip if self.at.is_none() => Found {
                at: read_address(pair.value).map(|ip| (ip, line)),
                ..self
            },
            Attr::IpMask if self.bits.is_none() => Found {
                bits: read_mask(pair.value),
                masked: true,
                ..self
            },
            _ => self,
        }
    }
}

// The mask with this number of bits.
fn mask(bits: u32) -> u32 {
    (mask_of(bits.min(32)) & 0xffff_ffff) as u32
}

// The first bits of an address.
fn first_bits(bits: u32, ip: u32) -> u32 {
    match 32u32.checked_sub(bits) {
        Some(others) => ip.checked_shr(others).unwrap_or(0),
        None => ip,
    }
}

// The bits of the mask that goes with an address by its first byte.
fn class_bits(ip: u32) -> u32 {
    match ip >> 24 {
        0..128 => 8,
        128..192 => 16,
        _ => 24,
    }
}
