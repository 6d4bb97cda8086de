//! Records of answers.
ghost use Rattle.std.specs.Prelude.{◌≡◌, ◌<◌, ◌^◌, true, length, IfOk};
ghost use Rattle.net_base.specs.DomainAnswers as spec;
ghost use Rattle.net_base.specs.DomainNames.{is_domain_name, labels_of, bytes_of_name};

use crate::field::{put_long, put_word};
use crate::value::put_name;
use net_base::Octets;
use std::alloc::{AllocError, Global};

/// The types that are answered.
pub const ADDRESS: u16 = 1;

pub const ALIAS: u16 = 5;

pub const POINTER: u16 = 12;

/// The class of the Internet.
pub const INTERNET: u16 = 1;

/// For how many seconds a record may be kept.
const HOUR: u32 = 3600;

/// The name of the question, by a pointer to its place.
pub const ASKED: &[u8] = &[0xc0, 12];

// A record with these told.
fn record(alloc: Global, owner: &[u8], kind: u16, told: &[u8]) -> Result<Octets, AllocError>
    requires { length told.now < 2 ^ 16 }
    ensures { IfOk result (λ r. r ≡ spec.record_bytes owner.now kind told.now) }
{
    let mut bytes = Octets::from_slice(alloc, owner)?;
    put_word(&mut bytes, kind)?;
    put_word(&mut bytes, INTERNET)?;
    put_long(&mut bytes, HOUR)?;
    put_word(&mut bytes, told.len() as u16)?;
    bytes.append(told)?;
    Ok(bytes)
}

/// The record of an address.
pub fn address_record(alloc: Global, owner: &[u8], ip: u32) -> Result<Octets, AllocError>
    ensures { IfOk result (λ r. r ≡ spec.address_record owner.now ip) }
{
    record(alloc, owner, ADDRESS, &ip.to_be_bytes())
}

/// A record of the question's name that tells a name.
pub fn naming_record(alloc: Global, kind: u16, name: &[u8]) -> Result<Octets, AllocError>
    requires { is_domain_name (labels_of name.now) ≡ true }
    ensures { IfOk result (λ r. r ≡ spec.naming_record kind name.now) }
{
    let told = spelled(alloc, name)?;
    record(alloc, ASKED, kind, told.as_slice())
}

/// The bytes of a name.
pub fn spelled(alloc: Global, name: &[u8]) -> Result<Octets, AllocError>
    requires { is_domain_name (labels_of name.now) ≡ true }
    ensures { IfOk result (λ bytes. bytes ≡ bytes_of_name name.now) }
{
    let mut bytes = Octets::new(alloc);
    put_name(&mut bytes, name)?;
    Ok(bytes)
}
