//! The network that a tuple describes.
ghost use Rattle.std.specs.Prelude.{◌≡◌, ℕ, ◌-◌, ◌/◌, ◌^◌, ◌==◌, nat_eq, option_map, IfOk};
ghost use Rattle.std.specs.List.{list_any};
ghost use Rattle.net_base.specs.Networks as spec;
ghost use Rattle.ndb_search.specs.Prefixes.{network_seen, first_bits};

use crate::tuple_numbers::{Kind, first_in};
use indexmap::IndexSet;
use net_base::Tuple;
use std::alloc::{AllocError, Global};

/// A network: an address, how many of its first bits the network shares, and the tuple that says so.
#[derive(Drop)]
pub struct Network<'a> {
    pub ip: u32,
    pub bits: u32,
    pub tuple: Tuple<'a>,
}

impl<'a> Network<'a> {
    /// This network, lent once more.
    pub fn again(&self) -> Network<'a>
        ensures { network_seen result ≡ network_seen self.now }
    {
        Network {
            ip: self.ip,
            bits: self.bits,
            tuple: self.tuple.again(),
        }
    }
}

/// The first so many bits of an address.
pub fn first_bits(bits: u32, ip: u32) -> u32
    ensures { result ≡ ip / 2 ^ (32 - bits) }
{
    let others = 32u32.saturating_sub(bits);
    (u64::from(ip) >> others) as u32
}

/// The ones of the mask that goes with an address by its first byte.
pub fn class_bits(ip: u32) -> u32
    ensures { result ≡ spec.class_bits ip }
{
    match ip >> 24 {
        0..128 => 8,
        128..192 => 16,
        _ => 24,
    }
}

/// The network of a tuple with `ipnet` and an address as `ip`.
pub fn network_of<'a>(tuple: &Tuple<'a>) -> Option<Network<'a>>
    ensures { option_map network_seen result ≡ spec.network_of tuple.now }
{
    if !tuple.names(b"ipnet") {
        return None;
    }
    let ip = first_in(Kind::Address, tuple)?;
    let bits = first_in(Kind::Mask, tuple).unwrap_or(class_bits(ip));
    Some(Network {
        ip,
        bits,
        tuple: tuple.again(),
    })
}

/// The first so many bits of these addresses, each once.
pub fn firsts_of(alloc: Global, bits: u32, ips: &[u32]) -> Result<IndexSet<u32>, AllocError>
    ensures { IfOk result (λ firsts. (first : ℕ) → list_any (nat_eq first) firsts.keys
        ≡ list_any (λ ip. first_bits bits ip == first) ips.now) }
{
    let mut firsts = IndexSet::new(alloc);
    for ip in ips {
        firsts.insert(first_bits(bits, *ip))?;
    }
    Ok(firsts)
}
