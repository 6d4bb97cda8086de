//! The list of a query by an index, with a bound on how many tuples are looked at.
ghost use Rattle.std.specs.Prelude.{◌≡◌, ◌≢◌, ◌+◌, ◌<◌, ◌≤◌, ◌++◌, [], length, flat_map, AllPairs, MatchOption, IfOk, IfErr, OnOk};
ghost use Rattle.std.specs.List.{sum_by};
ghost use Rattle.net_base.specs.Cs as spec;
ghost use Rattle.ndb_index.specs.Index.{own_count, near_count};
ghost use Rattle.cs_resolver.specs.Errors.{Tells};
ghost use Rattle.cs_resolver.specs.Probes.{word_found, host_found, service_found, most_probes};
ghost use Rattle.cs_resolver.specs.Targets.{NamesHost, target_texts};

use crate::addresses::{covered_first, ip_targets, once_each};
use crate::error::CsError;
use crate::line::{Target, add_lines_of};
use crate::named::words_addresses;
use crate::numbers::numbers_beside;
use crate::query::{
    Query, is_any, is_attribute, is_named, is_numeric, name_attr, names_some, read_query,
};
use ndb_index::{Index, Steps};
use ndb_search::Kind;
use net_base::{Lines, Octets, Proto};
use std::alloc::{AllocError, Global};
use std::marker::Brand;
use std::sync::ledger::{Blank, Ledger};
use words::{proto_name, read_address, read_port};

/// The addresses of a word: the one that it spells, or those beside it in the database.
fn word_addresses<L: Ledger>(
    alloc: Global,
    index: &Index,
    word: &[u8],
    steps: &mut Steps<L>,
) -> Result<Vec<u32>, AllocError>
    ensures ips { IfOk result (λ ips. ips.items ≡ spec.word_addresses index.now word.now) }
    ensures cost { steps.new ≤ steps.old + word_found index.now word.now }
{
    if !is_numeric(word) {
        return numbers_beside(alloc, index, name_attr(word), word, Kind::Address, steps);
    }
    let mut ips = Vec::new(alloc);
    if let Some(ip) = read_address(word) {
        ips.push(ip)?;
    }
    Ok(ips)
}

/// The addresses of the words, some of which may stand again.
fn some_addresses<L: Ledger>(
    alloc: Global,
    index: &Index,
    words: &[Octets],
    steps: &mut Steps<L>,
) -> Result<Vec<u32>, AllocError>
    ensures ips { IfOk result (λ ips. spec.once_each ips.items
        ≡ spec.once_each (flat_map (spec.word_addresses index.now) words.now)) }
    ensures cost { steps.new ≤ steps.old + sum_by (word_found index.now) words.now }
{
    if words.len() == 1 {
        let ips = word_addresses(alloc, index, words[0].as_slice(), steps)?;
        return Ok(ips);
    }
    words_addresses(alloc, index, words, steps)
}

/// The addresses of the words that name a host, some of which may stand again; nothing where no word does.
fn host_addresses<L: Ledger>(
    alloc: Global,
    index: &Index,
    me: &[u8],
    host: &[u8],
    steps: &mut Steps<L>,
) -> Result<Option<Vec<u32>>, AllocError>
    ensures ips { IfOk result (λ found. MatchOption found
        (spec.host_words index.now me.now host.now ≡ [])
        (λ ips. NamesHost index.now me.now host.now ips.items)) }
    ensures cost { steps.new ≤ steps.old + near_count me.now index.now
        + sum_by (word_found index.now) (spec.host_words index.now me.now host.now) }
{
    if !is_attribute(host) {
        let ips = word_addresses(alloc, index, host, steps)?;
        return Ok(Some(ips));
    }
    let words = index.closest_counted(alloc, me, &host[1..], steps)?;
    if words.len() == 0 {
        return Ok(None);
    }
    let ips = some_addresses(alloc, index, words.as_slice(), steps)?;
    Ok(Some(ips))
}

/// Addresses each once, those on the asker's own networks first.
fn own_first<L: Ledger>(
    alloc: Global,
    index: &Index,
    me: &[u8],
    ips: Vec<u32>,
    steps: &mut Steps<L>,
) -> Result<Vec<u32>, AllocError>
    ensures ips { IfOk result (λ sorted. sorted.items
        ≡ spec.own_first me.now index.now (spec.once_each ips.items)) }
    ensures cost { steps.new ≤ steps.old + own_count me.now index.now }
{
    let once = once_each(alloc, ips)?;
    if once.len() < 2 {
        return Ok(once);
    }
    let prefixes = index.own_prefixes_counted(alloc, me, steps)?;
    let sorted = covered_first(alloc, &prefixes, &once)?;
    Ok(sorted)
}

/// What a host stands for: any address, or those of the words that name it; nothing where no word does.
fn targets<L: Ledger>(
    alloc: Global,
    index: &Index,
    me: &[u8],
    host: &[u8],
    steps: &mut Steps<L>,
) -> Result<Option<Vec<Target>>, AllocError>
    ensures targets { IfOk result (λ found. MatchOption found
        (spec.host_words index.now me.now host.now ≡ [])
        (λ targets. (0 < length (spec.host_words index.now me.now host.now))
        × (target_texts targets.items ≡ spec.address_texts index.now me.now host.now))) }
    ensures cost { steps.new ≤ steps.old + near_count me.now index.now + own_count me.now index.now
        + host_found index.now me.now host.now }
{
    if is_any(host) {
        let any = vec![in alloc; Target::Any]?;
        return Ok(Some(any));
    }
    let Some(ips) = host_addresses(alloc, index, me, host, steps)? else {
        return Ok(None);
    };
    let sorted = own_first(alloc, index, me, ips, steps)?;
    let targets = ip_targets(alloc, &sorted)?;
    Ok(Some(targets))
}

/// The ports of a service on a net.
fn ports_of<L: Ledger>(
    alloc: Global,
    index: &Index,
    service: &[u8],
    net: Proto,
    steps: &mut Steps<L>,
) -> Result<Vec<u32>, AllocError>
    ensures ports { IfOk result (λ ports. ports.items ≡ spec.ports_of index.now service.now net) }
    ensures cost { steps.new ≤ steps.old + service_found index.now service.now net }
{
    if let Some(port) = read_port(service) {
        return Ok(vec![in alloc; u32::from(port)]?);
    }
    let found = numbers_beside(alloc, index, proto_name(net), service, Kind::Port, steps)?;
    once_each(alloc, found)
}

/// Adds the lines of a net.
fn add_lines<L: Ledger>(
    alloc: Global,
    index: &Index,
    net: Proto,
    targets: &[Target],
    service: &[u8],
    lines: &mut Lines,
    steps: &mut Steps<L>,
) -> Result<(), AllocError>
    ensures lines { OnOk result (lines.new ≡ lines.old
        ++ spec.address_lines index.now service.now (target_texts targets.now) net) }
    ensures cost { steps.new ≤ steps.old + service_found index.now service.now net }
{
    let ports = ports_of(alloc, index, service, net, steps)?;
    add_lines_of(alloc, net, targets, &ports, lines)?;
    Ok(())
}

/// The lines of the nets that a query names.
fn all_lines<L: Ledger>(
    alloc: Global,
    index: &Index,
    nets: &[Proto],
    query: Query<'_>,
    targets: &[Target],
    steps: &mut Steps<L>,
) -> Result<Lines, AllocError>
    ensures lines { IfOk result (λ lines. lines
        ≡ flat_map (spec.address_lines index.now query.entry.service.now (target_texts targets.now))
        (spec.nets_of nets.now query.entry.net.now)) }
    ensures cost { steps.new ≤ steps.old
        + sum_by (service_found index.now query.entry.service.now) (spec.nets_of nets.now query.entry.net.now) }
{
    let mut lines = Lines::new(alloc);
    for net in nets {
        if is_named(query.net, *net) {
            add_lines(
                alloc,
                index,
                *net,
                targets,
                query.service,
                &mut lines,
                steps,
            )?;
        }
    }
    Ok(lines)
}

/// What a host with these nets is answered to a query, by its name in the database, with a step for each look at a tuple.
pub fn answer_counted<L: Ledger>(
    alloc: Global,
    index: &Index,
    me: &[u8],
    nets: &[Proto],
    query: &[u8],
    steps: &mut Steps<L>,
) -> Result<Lines, CsError>
    requires some { 0 < length nets.now }
    requires once { AllPairs (λ net other. net ≢ other) nets.now }
    ensures ok { IfOk result (λ lines. spec.cs_list index.now me.now nets.now query.now ≡ spec.Lines lines) }
    // want of memory apart, which may come at any query
    ensures err { IfErr result (λ error. Tells error (spec.cs_list index.now me.now nets.now query.now)) }
    ensures cost { steps.new ≤ steps.old + most_probes index.now me.now nets.now query.now }
{
    let Some(query) = read_query(query) else {
        return Err(CsError::BadQuery);
    };
    if !names_some(nets, query.net) {
        return Err(CsError::NoNet);
    }
    let Some(targets) = targets(alloc, index, me, query.host, steps)? else {
        return Err(CsError::NoValue);
    };
    if targets.is_empty() {
        return Err(CsError::NoHost);
    }
    let lines = all_lines(alloc, index, nets, query, &targets, steps)?;
    if lines.len() == 0 {
        return Err(CsError::NoService);
    }
    Ok(lines)
}

/// What a host with these nets is answered to a query, by its name in the database.
pub fn answer_indexed(
    alloc: Global,
    index: &Index,
    me: &[u8],
    nets: &[Proto],
    query: &[u8],
) -> Result<Lines, CsError>
    requires some { 0 < length nets.now }
    requires once { AllPairs (λ net other. net ≢ other) nets.now }
    ensures ok { IfOk result (λ lines. spec.cs_list index.now me.now nets.now query.now ≡ spec.Lines lines) }
    // want of memory apart, which may come at any query
    ensures err { IfErr result (λ error. Tells error (spec.cs_list index.now me.now nets.now query.now)) }
{
    answer_by::<Brand>(alloc, index, me, nets, query, Blank::new(1))
}

/// Answers by a counter that no other call has.
fn answer_by<L: Ledger>(
    alloc: Global,
    index: &Index,
    me: &[u8],
    nets: &[Proto],
    query: &[u8],
    blank: Blank,
) -> Result<Lines, CsError>
    requires some { 0 < length nets.now }
    requires once { AllPairs (λ net other. net ≢ other) nets.now }
    requires name { blank.name ≡ L.name }
    requires parts { blank.parts ≡ L.parts }
    requires one { 0 < blank.parts }
    ensures ok { IfOk result (λ lines. spec.cs_list index.now me.now nets.now query.now ≡ spec.Lines lines) }
    ensures err { IfErr result (λ error. Tells error (spec.cs_list index.now me.now nets.now query.now)) }
{
    let mut steps = Steps::<L>::new(blank);
    answer_counted(alloc, index, me, nets, query, &mut steps)
}
