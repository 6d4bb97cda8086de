//! The list of a query: nets, addresses and ports, and a line for each.
ghost use Rattle.std.specs.Prelude.{◌≡◌, ◌≢◌, ◌<◌, ◌++◌, length, flat_map, AllPairs, IfOk, IfErr, OnOk};
ghost use Rattle.net_base.specs.Cs as spec;
ghost use Rattle.cs_resolver.specs.Errors.{Tells};
ghost use Rattle.cs_resolver.specs.Targets.{target_texts};

use crate::scanned::{host_words, targets};
use crate::{CsError, Target, add_lines_of, nets_of, once_each, read_query};
use ndb_search::{Kind, numbers_found};
use net_base::{Db, Lines, Proto};
use std::alloc::{AllocError, Global};
use words::{proto_name, read_port};

/// The ports of a service on a net.
fn ports_of(alloc: Global, db: &Db, service: &[u8], net: Proto) -> Result<Vec<u32>, AllocError>
    ensures { IfOk result (λ ports. ports.items ≡ spec.ports_of db.now service.now net) }
{
    if let Some(port) = read_port(service) {
        return Ok(vec![in alloc; u32::from(port)]?);
    }
    let found = numbers_found(alloc, proto_name(net), service, Kind::Port, db)?;
    once_each(alloc, found)
}

/// Adds the lines of a net.
fn add_lines(
    alloc: Global,
    db: &Db,
    net: Proto,
    targets: &[Target],
    service: &[u8],
    lines: &mut Lines,
) -> Result<(), AllocError>
    ensures { OnOk result (lines.new ≡ lines.old
        ++ spec.address_lines db.now service.now (target_texts targets.now) net) }
{
    let ports = ports_of(alloc, db, service, net)?;
    add_lines_of(alloc, net, targets, &ports, lines)?;
    Ok(())
}

/// The lines of all nets.
fn all_lines(
    alloc: Global,
    db: &Db,
    nets: &[Proto],
    targets: &[Target],
    service: &[u8],
) -> Result<Lines, AllocError>
    ensures { IfOk result (λ lines. lines
        ≡ flat_map (spec.address_lines db.now service.now (target_texts targets.now)) nets.now) }
{
    let mut lines = Lines::new(alloc);
    for net in nets {
        add_lines(alloc, db, *net, targets, service, &mut lines)?;
    }
    Ok(lines)
}

/// What a host with these nets is answered to a query, by its name in the database.
pub fn answer(
    alloc: Global,
    db: &Db,
    me: &[u8],
    nets: &[Proto],
    query: &[u8],
) -> Result<Lines, CsError>
    requires some { 0 < length nets.now }
    requires once { AllPairs (λ net other. net ≢ other) nets.now }
    ensures ok { IfOk result (λ lines. spec.cs_list db.now me.now nets.now query.now ≡ spec.Lines lines) }
    // want of memory apart, which may come at any query
    ensures err { IfErr result (λ error. Tells error (spec.cs_list db.now me.now nets.now query.now)) }
{
    let Some(query) = read_query(query) else {
        return Err(CsError::BadQuery);
    };
    let nets = nets_of(alloc, nets, query.net)?;
    if nets.is_empty() {
        return Err(CsError::NoNet);
    }
    let words = host_words(alloc, db, me, query.host)?;
    if words.len() == 0 {
        return Err(CsError::NoValue);
    }
    let targets = targets(alloc, db, me, query.host, words.as_slice())?;
    if targets.is_empty() {
        return Err(CsError::NoHost);
    }
    let lines = all_lines(alloc, db, &nets, &targets, query.service)?;
    if lines.len() == 0 {
        return Err(CsError::NoService);
    }
    Ok(lines)
}
