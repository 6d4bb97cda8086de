//! The records of what the database says beside a pair.
ghost use Rattle.std.specs.Prelude.{◌≡◌, ◌+◌, ◌≤◌, true, map, codes, Some, OnOk};
ghost use Rattle.std.specs.List.{list_all};
ghost use Rattle.ndb_reader.specs.Names.{names_seen};
ghost use Rattle.ndb_index.specs.Index.{found};
ghost use Rattle.net_base.specs.DomainAnswers as spec;
ghost use Rattle.net_base.specs.DomainNames.{is_domain_name, labels_of};
ghost use Rattle.ndb_dns.specs.Looks.{alias_looks, looks_beside};
ghost use Rattle.ndb_dns.specs.Taken.{AddsTaken, AreFewTaken};

use crate::beside::{addresses_named, names_beside};
use crate::key::Key;
use crate::record::{ADDRESS, ALIAS, ASKED, POINTER, address_record, naming_record, spelled};
use crate::reply::Records;
use indexmap::IndexSet;
use ndb_index::{Index, Steps};
use std::alloc::{AllocError, Global};
use std::sync::ledger::Ledger;

/// Adds the records of a type beside a pair.
pub fn add_found<L: Ledger>(
    alloc: Global,
    index: &Index,
    kind: u16,
    key: &Key,
    records: &mut Records,
    steps: &mut Steps<L>,
) -> Result<(), AllocError>
    requires { AreFewTaken records.old }
    ensures took { OnOk result (AddsTaken records.old
        (spec.records_beside index.now kind key.now.attr.now key.now.value) records.new) }
    ensures cost { steps.new ≤ steps.old + looks_beside index.now kind key.now.attr.now key.now.value }
{
    if kind == ADDRESS {
        return add_addressed(alloc, index, key.value.as_slice(), records, steps);
    }
    if kind == ALIAS {
        return add_named(alloc, index, ALIAS, key, b"cname", records, steps);
    }
    add_named(alloc, index, POINTER, key, b"dom", records, steps)
}

// Adds a record for each name beside a pair.
fn add_named<L: Ledger>(
    alloc: Global,
    index: &Index,
    kind: u16,
    key: &Key,
    other: &[u8],
    records: &mut Records,
    steps: &mut Steps<L>,
) -> Result<(), AllocError>
    requires { AreFewTaken records.old }
    ensures took { OnOk result (AddsTaken records.old
        (map (spec.naming_record kind) (spec.names_beside key.now.attr.now key.now.value other.now index.now))
        records.new) }
    ensures cost { steps.new ≤ steps.old + found key.now.attr.now key.now.value index.now }
{
    let names = names_beside(alloc, index, key.attr, key.value.as_slice(), other, steps)?;
    add_names(alloc, kind, &names, records)
}

// Adds a record for each name.
fn add_names(
    alloc: Global,
    kind: u16,
    names: &IndexSet<Vec<u8>>,
    records: &mut Records,
) -> Result<(), AllocError>
    requires few { AreFewTaken records.old }
    requires valid { list_all (λ name. is_domain_name (labels_of name)) (names_seen names.now.keys) ≡ true }
    ensures { OnOk result (AddsTaken records.old (map (spec.naming_record kind) (names_seen names.now.keys))
        records.new) }
{
    for name in names.as_slice() {
        let entry = naming_record(alloc, kind, name.as_slice())?;
        records.offer(entry.as_slice())?;
    }
    Ok(())
}

// Adds the addresses of a name, or else its alias with the addresses of what it stands for.
fn add_addressed<L: Ledger>(
    alloc: Global,
    index: &Index,
    name: &[u8],
    records: &mut Records,
    steps: &mut Steps<L>,
) -> Result<(), AllocError>
    requires { AreFewTaken records.old }
    ensures took { OnOk result (AddsTaken records.old (spec.address_records index.now name.now) records.new) }
    ensures cost { steps.new ≤ steps.old + looks_beside index.now 1 (codes "dom") name.now }
{
    let ips = addresses_named(alloc, index, name, steps)?;
    if ips.is_empty() {
        return add_alias(alloc, index, name, records, steps);
    }
    add_addresses(alloc, ASKED, &ips, records)
}

// Adds a record of this owner for each address.
fn add_addresses(
    alloc: Global,
    owner: &[u8],
    ips: &[u32],
    records: &mut Records,
) -> Result<(), AllocError>
    requires { AreFewTaken records.old }
    ensures { OnOk result (AddsTaken records.old (map (spec.address_record owner.now) ips.now) records.new) }
{
    for ip in ips {
        let entry = address_record(alloc, owner, *ip)?;
        records.offer(entry.as_slice())?;
    }
    Ok(())
}

// Adds the record of a name's first alias, and the addresses of what it stands for.
fn add_alias<L: Ledger>(
    alloc: Global,
    index: &Index,
    name: &[u8],
    records: &mut Records,
    steps: &mut Steps<L>,
) -> Result<(), AllocError>
    requires { AreFewTaken records.old }
    ensures took { OnOk result (AddsTaken records.old
        (spec.alias_records index.now (spec.alias_of name.now index.now)) records.new) }
    ensures cost { steps.new ≤ steps.old + found (codes "dom") name.now index.now + alias_looks index.now
        (spec.alias_of name.now index.now) }
{
    let names = names_beside(alloc, index, b"dom", name, b"cname", steps)?;
    let Some(alias) = names.as_slice().first() else {
        return Ok(());
    };
    follow(alloc, index, alias.as_slice(), records, steps)
}

// Adds the record of an alias, and the addresses of what it stands for. It is followed once.
fn follow<L: Ledger>(
    alloc: Global,
    index: &Index,
    alias: &[u8],
    records: &mut Records,
    steps: &mut Steps<L>,
) -> Result<(), AllocError>
    requires few { AreFewTaken records.old }
    requires valid { is_domain_name (labels_of alias.now) ≡ true }
    ensures took { OnOk result (AddsTaken records.old (spec.alias_records index.now (Some alias.now)) records.new) }
    ensures cost { steps.new ≤ steps.old + found (codes "dom") alias.now index.now }
{
    let owner = spelled(alloc, alias)?;
    let entry = naming_record(alloc, ALIAS, alias)?;
    records.offer(entry.as_slice())?;
    let ips = addresses_named(alloc, index, alias, steps)?;
    add_addresses(alloc, owner.as_slice(), &ips, records)
}
