//! Worked questions over a small network.
use ndb_dns::{DnsError, dns_answer, read_name};
use ndb_index::Index;
use ndb_reader::read_ndb;
use net_base::Octets;
use std::alloc::{AllocError, Global};

/// A small network, with an alias, a name that is told twice, and names that are none.
const NETWORK: &[u8] = b"sys=anna ip=135.104.9.6
\tdom=anna.example.com
sys=helix dom=helix.example.com
\tip=10.0.0.31
\tip=135.104.9.31
dom=www.example.com cname=Helix.Example.com
dom=www.example.com cname=HELIX.example.com cname=x..y cname=trail.
dom=bare.example.com
";

/// The index of a text, where it is one.
fn index_of(alloc: Global, text: &[u8]) -> Option<Index> {
    Index::new(alloc, read_ndb(alloc, text).ok()?).ok()
}

const HEADER: &[u8] = &[0x12, 0x34, 1, 0, 0, 1, 0, 0, 0, 0, 0, 0];

const HELIX: &[u8] = b"\x05helix\x07example\x03com\0";

const WWW: &[u8] = b"\x03www\x07example\x03com\0";

const NOSUCH: &[u8] = b"\x06nosuch\x07example\x03com\0";

const ANNA_BACK: &[u8] = b"\x016\x019\x03104\x03135\x07in-addr\x04arpa\0";

/// A question of this type.
fn question(alloc: Global, name: &[u8], kind: u8) -> Result<Octets, AllocError> {
    let mut message = Octets::from_slice(alloc, HEADER)?;
    message.append(name)?;
    message.append(&[0, kind, 0, 1])?;
    Ok(message)
}

/// Whether the reply to a question has this header behind its number, the question, and these records.
fn is_answered(
    alloc: Global,
    name: &[u8],
    kind: u8,
    header: &[u8; 10],
    records: &[u8],
) -> Result<bool, AllocError> {
    let Some(index) = index_of(alloc, NETWORK) else {
        return Ok(false);
    };
    let message = question(alloc, name, kind)?;
    let mut wanted = Octets::from_slice(alloc, &[0x12, 0x34])?;
    wanted.append(header)?;
    let Some(asked) = message.as_slice().get(12..) else {
        return Ok(false);
    };
    wanted.append(asked)?;
    wanted.append(records)?;
    match dns_answer(alloc, &index, message.as_slice())? {
        Some(reply) => Ok(reply == wanted),
        None => Ok(false),
    }
}

#[test]
fn addresses_are_told_in_order(rt: HostRuntime) -> Result<(), AllocError> {
    let records =
        b"\xc0\x0c\0\x01\0\x01\0\0\x0e\x10\0\x04\x0a\0\0\x1f\xc0\x0c\0\x01\0\x01\0\0\x0e\x10\0\x04\x87\x68\x09\x1f";
    let header = [0x85, 0, 0, 1, 0, 2, 0, 0, 0, 0];
    assert!(rt; is_answered(rt.alloc(), HELIX, 1, &header, records)?);
    Ok(())
}

#[test]
fn an_unknown_name_is_told_so(rt: HostRuntime) -> Result<(), AllocError> {
    let header = [0x85, 3, 0, 1, 0, 0, 0, 0, 0, 0];
    assert!(rt; is_answered(rt.alloc(), NOSUCH, 1, &header, b"")?);
    Ok(())
}

#[test]
fn another_type_is_not_implemented(rt: HostRuntime) -> Result<(), AllocError> {
    let header = [0x85, 4, 0, 1, 0, 0, 0, 0, 0, 0];
    assert!(rt; is_answered(rt.alloc(), HELIX, 2, &header, b"")?);
    Ok(())
}

#[test]
fn an_address_leads_back_to_its_name(rt: HostRuntime) -> Result<(), AllocError> {
    let header = [0x85, 0, 0, 1, 0, 1, 0, 0, 0, 0];
    let records = b"\xc0\x0c\0\x0c\0\x01\0\0\x0e\x10\0\x12\x04anna\x07example\x03com\0";
    assert!(rt; is_answered(rt.alloc(), ANNA_BACK, 12, &header, records)?);
    Ok(())
}

#[test]
fn an_alias_is_told_once(rt: HostRuntime) -> Result<(), AllocError> {
    let header = [0x85, 0, 0, 1, 0, 1, 0, 0, 0, 0];
    let records = b"\xc0\x0c\0\x05\0\x01\0\0\x0e\x10\0\x13\x05helix\x07example\x03com\0";
    assert!(rt; is_answered(rt.alloc(), WWW, 5, &header, records)?);
    Ok(())
}

#[test]
fn an_alias_is_followed(rt: HostRuntime) -> Result<(), AllocError> {
    let header = [0x85, 0, 0, 1, 0, 3, 0, 0, 0, 0];
    let records = b"\xc0\x0c\0\x05\0\x01\0\0\x0e\x10\0\x13\x05helix\x07example\x03com\0\
\x05helix\x07example\x03com\0\0\x01\0\x01\0\0\x0e\x10\0\x04\x0a\0\0\x1f\
\x05helix\x07example\x03com\0\0\x01\0\x01\0\0\x0e\x10\0\x04\x87\x68\x09\x1f";
    assert!(rt; is_answered(rt.alloc(), WWW, 1, &header, records)?);
    Ok(())
}

/// What a message is answered, which is a header alone.
fn header_of(alloc: Global, message: &[u8]) -> Result<Option<[u8; 12]>, AllocError> {
    let Some(index) = index_of(alloc, NETWORK) else {
        return Ok(None);
    };
    match dns_answer(alloc, &index, message)? {
        Some(reply) if reply.len() == 12 => {
            let mut header = [0; 12];
            header.copy_from_slice(reply.as_slice());
            Ok(Some(header))
        }
        _ => Ok(None),
    }
}

#[test]
fn a_pointer_in_the_question_is_refused(rt: HostRuntime) -> Result<(), AllocError> {
    let message = question(rt.alloc(), b"\xc0\x0c", 1)?;
    let refused = [0x12, 0x34, 0x80, 1, 0, 0, 0, 0, 0, 0, 0, 0];
    assert!(rt; header_of(rt.alloc(), message.as_slice())? == Some(refused));
    Ok(())
}

#[test]
fn what_has_no_header_is_not_answered(rt: HostRuntime) -> Result<(), AllocError> {
    let Some(index) = index_of(rt.alloc(), NETWORK) else {
        return Ok(());
    };
    assert!(rt; dns_answer(rt.alloc(), &index, &[0x12, 0x34])?.is_none());
    assert!(rt; dns_answer(rt.alloc(), &index, b"\x12\x34\x81\0\0\x01\0\0\0\0\0\0")?.is_none());
    Ok(())
}

/// Two names: at 12 `a.b`, and at 17 `c` with a pointer to the first, at 21 a pointer to the second, at 23 one that points to itself.
const POINTERS: &[u8] = b"............\x01a\x01B\0\x01c\xc0\x0c\xc0\x11\xc0\x17";

/// The text and the end of the name at a place.
fn is_named(alloc: Global, place: u64, text: &[u8], end: u64) -> bool {
    if place > 25 {
        return false;
    }
    match read_name(alloc, POINTERS, place) {
        Ok(name) => name.text.as_slice() == text && name.end == end,
        Err(_) => false,
    }
}

#[test]
fn pointers_lead_back(rt: HostRuntime) {
    assert!(rt; is_named(rt.alloc(), 12, b"a.b", 17));
    assert!(rt; is_named(rt.alloc(), 17, b"c.a.b", 21));
    assert!(rt; is_named(rt.alloc(), 21, b"c.a.b", 23));
    assert!(rt; is_named(rt.alloc(), 16, b"", 17));
    assert!(rt; read_name(rt.alloc(), POINTERS, 23).err() == Some(DnsError::Format));
}
