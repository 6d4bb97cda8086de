//! The ends of all conversations.
ghost use Rattle.std.specs.Prelude.{◌≡◌, IfOk, OnOk};
ghost use Rattle.end_rows.specs.Ends as spec;

use crate::count::Count;
use indexmap::IndexMap;
use net_base::{ActorName, Entry, Proto, With};
use std::alloc::{AllocError, Global};

/// A conversation, by its host, protocol and slot.
#[derive(Clone, Copy)]
pub struct EndName {
    pub host: u32,
    pub proto: Proto,
    pub slot: u32,
}

/// A host, the number of a protocol in an IP header, and a slot.
pub type SlotKey = (u32, (u8, u32));

/// The conversations that had an entry.
pub type Ends = IndexMap<SlotKey, Count>;

/// The conversation that an actor is, if it is one.
pub fn end_named(actor: ActorName) -> Option<EndName>
    ensures { result ≡ spec.end_named actor }
{
    match actor {
        ActorName::Conv(host, proto, slot) => Some(EndName { host, proto, slot }),
        _ => None,
    }
}

fn proto_number(proto: Proto) -> u8
    ensures { result ≡ spec.end_proto proto }
{
    match proto {
        Proto::Il => 40,
        Proto::Udp => 17,
    }
}

/// The key of a conversation.
pub fn slot_of(name: EndName) -> SlotKey
    ensures { result ≡ spec.slot_of name }
{
    (name.host, (proto_number(name.proto), name.slot))
}

// A conversation as it was counted so far.
fn end_in(ends: &Ends, alloc: Global, proto: Proto, slot: SlotKey) -> Result<Count, AllocError>
    ensures { IfOk result (λ count. count ≡ spec.end_in ends.now.entries proto slot) }
{
    match ends.get(&slot) {
        Some(count) => count.copied(),
        None => Ok(Count::fresh(alloc, proto, 0, 0)),
    }
}

fn take_in(
    ends: &mut Ends,
    alloc: Global,
    proto: Proto,
    slot: SlotKey,
    entry: &Entry,
    with: &With,
) -> Result<(), AllocError>
    ensures { OnOk result (ends.new.entries ≡ spec.ends_in ends.old.entries proto slot entry.now with.now) }
{
    let mut count = end_in(ends, alloc, proto, slot)?;
    count.take(alloc, proto, entry, with)?;
    ends.insert(slot, count)?;
    Ok(())
}

/// Takes an entry of a conversation, with what was given to it.
pub fn take_entry(
    ends: &mut Ends,
    alloc: Global,
    name: EndName,
    entry: &Entry,
    with: &With,
) -> Result<(), AllocError>
    ensures { OnOk result (ends.new.entries ≡ spec.ends_with name entry.now with.now ends.old.entries) }
{
    take_in(ends, alloc, name.proto, slot_of(name), entry, with)
}
