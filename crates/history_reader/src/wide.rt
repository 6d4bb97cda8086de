//! The widths of the fields of a history, which its types give. These functions read the fields and change nothing.
ghost use Rattle.net_base.specs.Plain.{AreBytes};
ghost use Rattle.history_reader.specs.Wide as wide;

use net_base::{
    ActorName, Addr, BodyHeader, Call, Entries, Entry, Event, Header, Octets, Pair, Reply,
};

/// Shows that each number of a history is within the width of its field, and that each text is made of bytes.
pub fn histories_are_wide<E: Entries>(history: &E)
    ensures { wide.IsWide (E.list history.now) }
{
    for stamp in 0..history.count() {
        entry(history.entry(stamp));
    }
}

fn entry(x: &Entry)
    ensures { wide.IsWideEntry x.now }
{
    long(x.moment);
    narrow(x.caller);
    actor(x.actor);
    any_long(x.cites);
    event(&x.event);
    reply(&x.reply);
    emitted(x.emits);
}

fn actor(name: ActorName)
    ensures { wide.IsWideActor name }
{
    match name {
        ActorName::Desk(host) => narrow(host),
        ActorName::Dir(host, _) => narrow(host),
        ActorName::Conv(host, _, slot) => {
            narrow(host);
            narrow(slot);
        }
        ActorName::Medium(medium) => narrow(medium),
        ActorName::Clock => {}
    }
}

fn event(event: &Event)
    ensures { wide.IsWideEvent event.now }
{
    match event {
        Event::Cs { query } => text(query),
        Event::LsPath { path } => text(path),
        Event::OpenPath { path, .. } => text(path),
        Event::Until { moment } | Event::Move { moment } => long(*moment),
        Event::Grant {
            slot,
            generation,
            remote,
            lport,
        } => {
            call(*slot, *generation);
            place(*remote);
            any_port(*lport);
        }
        Event::Announce {
            slot,
            generation,
            ip,
            port,
        } => {
            call(*slot, *generation);
            any_narrow(*ip);
            any_port(*port);
        }
        Event::Bind {
            slot,
            generation,
            port: number,
        } => {
            call(*slot, *generation);
            port(*number);
        }
        Event::Listen { slot } => narrow(*slot),
        Event::Withdraw { slot, generation } | Event::Release { slot, generation } => {
            call(*slot, *generation)
        }
        Event::File {
            generation,
            count,
            ..
        }
        | Event::Read { generation, count } => call(*count, *generation),
        Event::Write {
            generation,
            text: bytes,
        }
        | Event::Ctl {
            generation,
            text: bytes,
        } => {
            long(*generation);
            text(bytes);
        }
        Event::Ttl { generation, n } | Event::Tos { generation, n } => {
            long(*generation);
            octet(*n);
        }
        Event::Begin { generation }
        | Event::Born { generation }
        | Event::Claim { generation }
        | Event::Connect { generation }
        | Event::Announced { generation }
        | Event::Bound { generation }
        | Event::Await { generation }
        | Event::Hangup { generation }
        | Event::Close { generation }
        | Event::ArriveAt { generation }
        | Event::Tick { generation } => long(*generation),
        Event::Put { to } => any_narrow(*to),
        _ => {}
    }
}

fn reply(reply: &Reply)
    ensures { wide.IsWideReply reply.now }
{
    match reply {
        Reply::Lines { lines } => texts(lines.as_slice()),
        Reply::Names { names } => texts(names.as_slice()),
        Reply::CsRefused { number } | Reply::BadCtl { number } => narrow(*number),
        Reply::Version { version } => long(*version),
        Reply::Slot { slot, generation }
        | Reply::Call { slot, generation }
        | Reply::To { slot, generation } => call(*slot, *generation),
        Reply::Granted {
            pair: Pair { local, remote },
            start,
            limit,
        } => {
            place(*local);
            place(*remote);
            narrow(*start);
            narrow(*limit);
        }
        Reply::PairUsed { k } => long(*k),
        Reply::PortTaken { slot } => narrow(*slot),
        Reply::Calls { calls } => waiting(calls.as_slice()),
        Reply::Born {
            slot,
            generation,
            start,
            limit,
        } => {
            call(*slot, *generation);
            narrow(*start);
            narrow(*limit);
        }
        Reply::Opened { generation } => long(*generation),
        Reply::Bytes { bytes } => text(bytes),
        Reply::Count { count } => narrow(*count),
        Reply::TooLong { length, limit } => call(*limit, *length),
        Reply::Laid { frame } | Reply::Copy { frame } => long(*frame),
        _ => {}
    }
}

fn emitted(header: Option<Header>)
    ensures { wide.IsWideHeader header }
{
    let Some(header) = header else {
        return;
    };
    place(header.src);
    place(header.dst);
    octet(header.ttl);
    octet(header.tos);
    body(header.body);
}

fn body(body: BodyHeader)
    ensures { wide.IsWideBody body }
{
    match body {
        BodyHeader::Il {
            spec,
            id,
            ack,
            length,
            ..
        } => {
            octet(spec);
            narrow(id);
            narrow(ack);
            long(length);
        }
        BodyHeader::Udp { length } => long(length),
    }
}

fn waiting(calls: &[Call])
    ensures { wide.AreWideCalls calls.now }
{
    for place in 0..calls.len() {
        call(calls[place].slot, calls[place].generation);
    }
}

fn texts(lines: &[Octets])
    ensures { wide.AreByteLines lines.now }
{
    for place in 0..lines.len() {
        text(&lines[place]);
    }
}

fn text(bytes: &Octets)
    ensures { AreBytes bytes.now }
{
    are_bytes(bytes.as_slice());
}

fn are_bytes(bytes: &[u8])
    ensures { AreBytes bytes.now }
{}

// A slot, a count or a limit, with a generation or a length.
fn call(slot: u32, generation: u64)
    ensures slot { wide.IsNarrow slot }
    ensures generation { wide.IsLongField generation }
{}

fn place(a: Addr)
    ensures { wide.IsPlace a }
{
    narrow(a.ip);
    port(a.port);
}

fn any_long(n: Option<u64>)
    ensures { wide.IfAny wide.IsLongField n }
{}

fn any_narrow(n: Option<u32>)
    ensures { wide.IfAny wide.IsNarrow n }
{}

fn any_port(n: Option<u16>)
    ensures { wide.IfAny wide.IsPort n }
{}

fn long(n: u64)
    ensures { wide.IsLongField n }
{}

fn narrow(n: u32)
    ensures { wide.IsNarrow n }
{}

fn port(n: u16)
    ensures { wide.IsPort n }
{}

fn octet(n: u8)
    ensures { wide.IsOctet n }
{}
