//! What rows need of a whole history: the copies of frames, the first of equal messages, first ids, and who has a pair.
ghost use Rattle.std.specs.Prelude.{◌≡◌, IfOk, OnOk};
ghost use Rattle.packet_rows.specs.Facts as spec;

use crate::deed::{Deed, deed_of};
use crate::frame::{Key, Passage};
use indexmap::IndexMap;
use net_base::{
    ActorName, Addr, BodyHeader, Entry, Event, Header, IlKind, Pair, Proto, Reply, Sequence,
};
use std::alloc::{AllocError, Global};
use std::marker::Model;

/// An IP address and a port.
pub type Place = (u32, u16);

/// Where a packet comes from, and where it goes.
pub type Places = (Place, Place);

/// A message: between which places, and its type and its id.
pub type Message = (Places, (u8, u32));

/// A pair, by its local and its remote place, with the number of its protocol.
pub type HolderKey = (Places, u8);

/// A conversation, by its host, protocol and slot.
#[derive(Clone, Copy)]
pub struct Talk {
    pub host: u32,
    pub proto: Proto,
    pub slot: u32,
}

/// What rows need of a whole history.
#[derive(Drop)]
pub struct Facts {
    copies: IndexMap<Key, Sequence<u64>>,
    firsts: IndexMap<Message, u64>,
    starts: IndexMap<Places, u32>,
    holders: IndexMap<HolderKey, Talk>,
}

impl Model for Facts {
    ghost use Rattle.packet_rows.specs.Facts.{Facts};

    ghost Value = { Facts };

    ghost view = { λ f. record {
      copies = f.copies.entries;
      firsts = f.firsts.entries;
      starts = f.starts.entries;
      holders = f.holders.entries;
    } };
}

fn place_of(addr: Addr) -> Place
    ensures { result ≡ spec.place_of addr }
{
    (addr.ip, addr.port)
}

/// Between which places a packet goes.
pub fn between(from: Addr, to: Addr) -> Places
    ensures { result ≡ spec.between from to }
{
    (place_of(from), place_of(to))
}

/// The number of a protocol in an IP header.
fn proto_number(proto: Proto) -> u8
    ensures { result ≡ spec.proto_number proto }
{
    match proto {
        Proto::Il => 40,
        Proto::Udp => 17,
    }
}

/// The protocol of a body.
fn proto_in(body: BodyHeader) -> Proto
    ensures { result ≡ spec.proto_in body }
{
    match body {
        BodyHeader::Il { .. } => Proto::Il,
        BodyHeader::Udp { .. } => Proto::Udp,
    }
}

// The type of a message that is sent again where nothing answers it. A dataquery counts as data.
fn type_again(kind: IlKind) -> Option<u8>
    ensures { result ≡ spec.type_again kind }
{
    match kind {
        IlKind::Sync => Some(0),
        IlKind::Data => Some(1),
        IlKind::DataQuery => Some(1),
        IlKind::Ack => None,
        IlKind::Query => None,
        IlKind::State => None,
        IlKind::Close => Some(6),
    }
}

fn message_by(kind: Option<u8>, places: Places, id: u32) -> Option<Message>
    ensures { result ≡ spec.message_by kind places id }
{
    match kind {
        Some(kind) => Some((places, (kind, id))),
        None => None,
    }
}

/// The message of a header, if it is one that is sent again where nothing answers it.
fn message_in(header: &Header) -> Option<Message>
    ensures { result ≡ spec.message_in header.now }
{
    match header.body {
        BodyHeader::Il { kind, id, .. } => {
            message_by(type_again(kind), between(header.src, header.dst), id)
        }
        BodyHeader::Udp { .. } => None,
    }
}

fn granted(slot: u32, reply: &Reply) -> Option<(u32, Pair)>
    ensures { result ≡ spec.granted_pair slot reply.now }
{
    match reply {
        Reply::Granted { pair, .. } => Some((slot, *pair)),
        _ => None,
    }
}

fn born_from(slot: u32, packet: Option<Passage>) -> Option<(u32, Pair)>
    ensures { result ≡ spec.pair_of_birth slot packet }
{
    match packet {
        Some(passage) => Some((
            slot,
            Pair {
                local: passage.header.dst,
                remote: passage.header.src,
            },
        )),
        None => None,
    }
}

fn born(reply: &Reply, packet: Option<Passage>) -> Option<(u32, Pair)>
    ensures { result ≡ spec.born_pair reply.now packet }
{
    match reply {
        Reply::Born { slot, .. } => born_from(*slot, packet),
        _ => None,
    }
}

// The slot and the pair that a directory gives.
fn pair_given(event: &Event, reply: &Reply, packet: Option<Passage>) -> Option<(u32, Pair)>
    ensures { result ≡ spec.pair_given event.now reply.now packet }
{
    match event {
        Event::Grant { slot, .. } => granted(*slot, reply),
        Event::Arrive => born(reply, packet),
        _ => None,
    }
}

impl Facts {
    /// Nothing is known. It takes no memory yet.
    pub fn new(alloc: Global) -> Facts
        ensures { result ≡ spec.no_facts }
    {
        Facts {
            copies: IndexMap::new(alloc),
            firsts: IndexMap::new(alloc),
            starts: IndexMap::new(alloc),
            holders: IndexMap::new(alloc),
        }
    }

    /// Takes the next entry of a history, with the packet that was given to it.
    pub fn take(
        &mut self,
        alloc: Global,
        stamp: u64,
        entry: &Entry,
        packet: Option<Passage>,
    ) -> Result<(), AllocError>
        ensures { OnOk result (self.new ≡ spec.facts_with self.old stamp entry.now packet) }
    {
        match entry.actor {
            ActorName::Dir(host, proto) => {
                let given = pair_given(&entry.event, &entry.reply, packet);
                note_holder(&mut self.holders, host, proto, given)?;
            }
            _ => {}
        }
        self.note_deed(alloc, stamp, deed_of(entry))
    }

    fn note_deed(&mut self, alloc: Global, stamp: u64, deed: Deed) -> Result<(), AllocError>
        ensures { OnOk result (self.new ≡ spec.facts_by self.old stamp deed) }
    {
        match deed {
            Deed::Took { medium, number } => {
                note_copy(&mut self.copies, alloc, (medium, number), stamp)
            }
            Deed::Sent { header, .. } => self.note_message(stamp, &header),
            Deed::Put { .. } => Ok(()),
            Deed::Nothing => Ok(()),
        }
    }

    fn note_message(&mut self, stamp: u64, header: &Header) -> Result<(), AllocError>
        ensures { OnOk result (self.new ≡ spec.facts_of_message self.old stamp header.now) }
    {
        note_start(&mut self.starts, header)?;
        note_first(&mut self.firsts, message_in(header), stamp)
    }
}

fn copies_at(
    copies: &IndexMap<Key, Sequence<u64>>,
    alloc: Global,
    key: Key,
) -> Result<Sequence<u64>, AllocError>
    ensures { IfOk result (λ stamps. stamps ≡ spec.copies_at copies.now.entries key) }
{
    match copies.get(&key) {
        Some(stamps) => stamps.clone(),
        None => Ok(Sequence::new(alloc)),
    }
}

fn note_copy(
    copies: &mut IndexMap<Key, Sequence<u64>>,
    alloc: Global,
    key: Key,
    stamp: u64,
) -> Result<(), AllocError>
    ensures { OnOk result (copies.new.entries ≡ spec.with_copy copies.old.entries key stamp) }
{
    let mut stamps = copies_at(copies, alloc, key)?;
    stamps.push(stamp)?;
    copies.insert(key, stamps)?;
    Ok(())
}

fn note_first(
    firsts: &mut IndexMap<Message, u64>,
    message: Option<Message>,
    stamp: u64,
) -> Result<(), AllocError>
    ensures { OnOk result (firsts.new.entries ≡ spec.with_first firsts.old.entries message stamp) }
{
    let Some(message) = message else {
        return Ok(());
    };
    match firsts.get(&message) {
        Some(_) => Ok(()),
        None => {
            firsts.insert(message, stamp)?;
            Ok(())
        }
    }
}

fn start_in(body: BodyHeader) -> Option<u32>
    ensures { result ≡ spec.start_in body }
{
    match body {
        BodyHeader::Il { kind, id, .. } => match kind {
            IlKind::Sync => Some(id),
            _ => None,
        },
        BodyHeader::Udp { .. } => None,
    }
}

fn note_start_at(
    starts: &mut IndexMap<Places, u32>,
    places: Places,
    id: u32,
) -> Result<(), AllocError>
    ensures { OnOk result (starts.new.entries ≡ spec.with_start_at starts.old.entries places id) }
{
    match starts.get(&places) {
        Some(_) => Ok(()),
        None => {
            starts.insert(places, id)?;
            Ok(())
        }
    }
}

fn note_start(starts: &mut IndexMap<Places, u32>, header: &Header) -> Result<(), AllocError>
    ensures { OnOk result (starts.new.entries ≡ spec.with_start starts.old.entries header.now) }
{
    match start_in(header.body) {
        Some(id) => note_start_at(starts, between(header.src, header.dst), id),
        None => Ok(()),
    }
}

/// The key of a pair.
fn holding(proto: Proto, local: Addr, remote: Addr) -> HolderKey
    ensures { result ≡ spec.holding proto local remote }
{
    (between(local, remote), proto_number(proto))
}

fn note_talk(
    holders: &mut IndexMap<HolderKey, Talk>,
    key: HolderKey,
    talk: Talk,
) -> Result<(), AllocError>
    ensures { OnOk result (holders.new.entries ≡ spec.with_talk holders.old.entries key talk) }
{
    match holders.get(&key) {
        Some(_) => Ok(()),
        None => {
            holders.insert(key, talk)?;
            Ok(())
        }
    }
}

fn note_holder(
    holders: &mut IndexMap<HolderKey, Talk>,
    host: u32,
    proto: Proto,
    given: Option<(u32, Pair)>,
) -> Result<(), AllocError>
    ensures { OnOk result (holders.new.entries ≡ spec.with_holder holders.old.entries host proto given) }
{
    match given {
        Some((slot, pair)) => {
            let key = holding(proto, pair.local, pair.remote);
            note_talk(holders, key, Talk { host, proto, slot })
        }
        None => Ok(()),
    }
}

fn copies_in(copies: &IndexMap<Key, Sequence<u64>>, key: Key) -> &[u64]
    ensures { result.now ≡ spec.copies_at copies.now.entries key }
{
    match copies.get(&key) {
        Some(stamps) => stamps.as_slice(),
        None => &[],
    }
}

fn talk_in(holders: &IndexMap<HolderKey, Talk>, key: HolderKey) -> Option<Talk>
    ensures { result ≡ spec.talk_in holders.now.entries key }
{
    holders.get(&key).copied()
}

fn first_at(firsts: &IndexMap<Message, u64>, message: Option<Message>) -> Option<u64>
    ensures { result ≡ spec.first_at firsts.now.entries message }
{
    match message {
        Some(message) => firsts.get(&message).copied(),
        None => None,
    }
}

// The distance of an id from a first one, mod 2^32.
fn behind(id: u32, start: Option<u32>) -> Option<u32>
    ensures { result ≡ spec.behind_start id start }
{
    match start {
        Some(start) => Some(id.wrapping_sub(start)),
        None => None,
    }
}

// The ack of a sync that answers none is 0.
fn answers_none(kind: IlKind, ack: u32) -> bool
    ensures { result ≡ spec.answers_none kind ack }
{
    match kind {
        IlKind::Sync => ack == 0,
        _ => false,
    }
}

impl Facts {
    /// The stamps of the copies of a frame.
    pub fn copies(&self, key: Option<Key>) -> &[u64]
        ensures { result.now ≡ spec.copies_of self.now key }
    {
        match key {
            Some(key) => copies_in(&self.copies, key),
            None => &[],
        }
    }

    /// The conversation to which a packet goes.
    pub fn peer(&self, header: &Header) -> Option<Talk>
        ensures { result ≡ spec.peer_of self.now header.now }
    {
        let key = holding(proto_in(header.body), header.dst, header.src);
        talk_in(&self.holders, key)
    }

    /// The first entry that emitted the message of a header.
    pub fn first(&self, header: &Header) -> Option<u64>
        ensures { result ≡ spec.first_of self.now header.now }
    {
        first_at(&self.firsts, message_in(header))
    }

    // The first id of whoever sends between these places.
    fn start(&self, places: Places) -> Option<u32>
        ensures { result ≡ spec.start_at self.now.starts places }
    {
        self.starts.get(&places).copied()
    }

    /// The id of a message, counted from its sender's first one.
    pub fn id(&self, header: &Header) -> Option<u32>
        ensures { result ≡ spec.relative_id self.now header.now }
    {
        match header.body {
            BodyHeader::Il { id, .. } => behind(id, self.start(between(header.src, header.dst))),
            BodyHeader::Udp { .. } => None,
        }
    }

    /// The ack of a message, counted from the first id of the end to which it goes.
    pub fn ack(&self, header: &Header) -> Option<u32>
        ensures { result ≡ spec.relative_ack self.now header.now }
    {
        match header.body {
            BodyHeader::Il { kind, ack, .. } => {
                if answers_none(kind, ack) {
                    return None;
                }
                behind(ack, self.start(between(header.dst, header.src)))
            }
            BodyHeader::Udp { .. } => None,
        }
    }
}
