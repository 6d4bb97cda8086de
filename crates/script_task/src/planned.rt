//! The event of a request.
ghost use Rattle.std.specs.Prelude.{◌≡◌, Some, IfOk};
ghost use Rattle.net_base.specs.Paths as paths;
ghost use Rattle.net_base.specs.Steps as steps;
ghost use Rattle.net_tree.specs.Bindings.{bound_file};
ghost use Rattle.script_task.specs.Effects as effects;
ghost use Rattle.net_base.specs.Asks as asked;
ghost use Rattle.script_task.specs.Planning as spec;
ghost use Rattle.net_base.specs.Requests as requests;

use crate::effect::Effect;
use crate::names::Names;
use crate::paths::{ls_actor, ls_event, open_actor, open_event, openable};
use ctl_words::read_ctl;
use net_base::{ActorName, Ctl, Event, FileName, Heard, Mode, Node, Octets, Request};
use net_tree::{Fid, node_named};
use std::alloc::AllocError;

/// An event at an actor, and what its reply does to the names.
#[derive(Debug, Drop)]
pub struct Planned {
    pub actor: ActorName,
    pub event: Event,
    pub effect: Effect,
}

/// The event that a request of a host records under these names.
pub fn event_of(host: u32, fids: &Names, request: &Request) -> Result<Planned, AllocError>
    ensures event { IfOk result (λ p. requests.planned host fids.now.names request.now ≡ Some (spec.ask_of p)) }
    ensures effect { IfOk result (λ p. p.effect ≡ effects.effect_of fids.now.names request.now) }
{
    let request = request.clone()?;
    Ok(plan(host, fids, request))
}

/// Plans a request that nobody needs any longer. It takes no memory.
#[tactic(auto, using(crate::proofs::Events::open_is, crate::proofs::Events::write_is, crate::proofs::Events::hear_is, crate::proofs::Events::close_is))]
pub fn plan(host: u32, fids: &Names, request: Request) -> Planned
    ensures event { requests.planned host fids.now.names request ≡ Some (spec.ask_of result) }
    ensures effect { result.effect ≡ effects.effect_of fids.now.names request }
{
    match request {
        Request::Open { name, path, mode } => open(host, fids, name, path, mode),
        Request::Read { name, count } => read(host, fids, name, count),
        Request::Write { name, text } => write(host, fids, name, text),
        Request::Close { name } => close(host, fids, name),
        Request::Cs { query } => at_desk(host, Event::Cs { query }),
        Request::Ls { path } => ls(host, path),
        Request::Until { moment } => at_desk(host, Event::Until { moment }),
        Request::Refresh => at_desk(host, Event::Refresh),
        Request::Hear { name, count, heard } => hear(host, fids, name, count, heard),
        Request::Wait { name } => wait(host, fids, name),
        Request::Unbound { name } => at_desk(host, Event::Use { name }),
        Request::Misuse { name } => at_desk(host, Event::Misuse { name }),
    }
}

// An event after which the names stay.
fn keeping(actor: ActorName, event: Event) -> Planned
    ensures { result ≡ spec.keeping (asked.asks actor event) }
{
    Planned {
        actor,
        event,
        effect: Effect::Keeps,
    }
}

fn at_desk(host: u32, event: Event) -> Planned
    ensures { result ≡ spec.keeping (asked.at_desk host event) }
{
    keeping(ActorName::Desk(host), event)
}

fn at_file(host: u32, fid: Fid, event: Event) -> Planned
    ensures { result ≡ spec.keeping (asked.at_file host (bound_file fid) event) }
{
    keeping(ActorName::Conv(host, fid.proto, fid.slot), event)
}

fn open(host: u32, fids: &Names, name: Octets, path: Octets, mode: Mode) -> Planned
    ensures event { spec.ask_of result ≡ asked.opens_path host fids.now.names name path mode }
    ensures effect { result.effect ≡ effects.effect_of fids.now.names (spec.open_request name path mode) }
{
    if fids.is_bound(name.as_slice()) {
        return at_desk(host, Event::Use { name });
    }
    let node = openable(path.as_slice(), mode);
    Planned {
        actor: open_actor(host, node),
        event: open_event(path, mode, node),
        effect: opens(name, mode, node),
    }
}

fn opens(name: Octets, mode: Mode, node: Option<Node>) -> Effect
    ensures { result ≡ effects.opens_as name mode node }
{
    match node {
        Some(node) => Effect::Opens { name, node, mode },
        None => Effect::Keeps,
    }
}

fn ls(host: u32, path: Octets) -> Planned
    ensures { result ≡ spec.keeping (asked.ls host path) }
{
    let node = node_named(path.as_slice());
    keeping(ls_actor(host, node), ls_event(path, node))
}

fn close(host: u32, fids: &Names, name: Octets) -> Planned
    ensures event { spec.ask_of result ≡ asked.close host name (steps.fid_of name fids.now.names) }
    ensures effect { result.effect ≡ effects.closes_bound name (steps.fid_of name fids.now.names) }
{
    match fids.get(name.as_slice()) {
        Some(fid) => Planned {
            actor: ActorName::Conv(host, fid.proto, fid.slot),
            event: Event::Close {
                generation: fid.generation,
            },
            effect: Effect::Closes { name },
        },
        None => at_desk(host, Event::Use { name }),
    }
}

fn wait(host: u32, fids: &Names, name: Octets) -> Planned
    ensures { result ≡ spec.keeping (asked.wait host name (steps.fid_of name fids.now.names)) }
{
    match fids.get(name.as_slice()) {
        Some(fid) => at_file(
            host,
            fid,
            Event::Await {
                generation: fid.generation,
            },
        ),
        None => at_desk(host, Event::Use { name }),
    }
}

fn read(host: u32, fids: &Names, name: Octets, count: u32) -> Planned
    ensures { result ≡ spec.keeping (asked.read_ask host name count (steps.fid_of name fids.now.names)) }
{
    match fids.get(name.as_slice()) {
        Some(fid) => {
            if reads(fid.mode) {
                at_file(host, fid, read_event(fid, count))
            } else {
                at_desk(host, Event::Misuse { name })
            }
        }
        None => at_desk(host, Event::Use { name }),
    }
}

// Plans a read behind an `hread`, which was told this.
fn hear(host: u32, fids: &Names, name: Octets, count: u32, heard: Heard) -> Planned
    ensures event { spec.ask_of result ≡ asked.read_ask host name count (steps.fid_of name fids.now.names) }
    ensures effect { result.effect ≡ effects.effect_heard heard }
{
    let Planned { actor, event, .. } = read(host, fids, name, count);
    Planned {
        actor,
        event,
        effect: Effect::Hears { heard },
    }
}

fn reads(mode: Mode) -> bool
    ensures { result ≡ paths.mode_reads mode }
{
    match mode {
        Mode::Read | Mode::Both => true,
        Mode::Write => false,
    }
}

fn writes(mode: Mode) -> bool
    ensures { result ≡ paths.mode_writes mode }
{
    match mode {
        Mode::Write | Mode::Both => true,
        Mode::Read => false,
    }
}

fn read_event(fid: Fid, count: u32) -> Event
    ensures { result ≡ steps.read_event (bound_file fid) count fid.file }
{
    match fid.file {
        FileName::Data => Event::Read {
            generation: fid.generation,
            count,
        },
        file => Event::File {
            generation: fid.generation,
            file,
            count,
        },
    }
}

fn write(host: u32, fids: &Names, name: Octets, text: Octets) -> Planned
    ensures { result ≡ spec.keeping (asked.write host name text (steps.fid_of name fids.now.names)) }
{
    match fids.get(name.as_slice()) {
        Some(fid) => {
            if writes(fid.mode) {
                put(host, fid, text)
            } else {
                at_desk(host, Event::Misuse { name })
            }
        }
        None => at_desk(host, Event::Use { name }),
    }
}

// A text is written to a data file, or to a ctl file.
fn put(host: u32, fid: Fid, text: Octets) -> Planned
    ensures { result ≡ spec.keeping (asked.put_ask host (bound_file fid) text fid.file) }
{
    match fid.file {
        FileName::Data => at_file(
            host,
            fid,
            Event::Write {
                generation: fid.generation,
                text,
            },
        ),
        _ => control(host, fid, text),
    }
}

// The event of a control word.
fn control(host: u32, fid: Fid, text: Octets) -> Planned
    ensures { result ≡ spec.keeping (asked.control_ask host (bound_file fid) text) }
{
    match read_ctl(text.as_slice()) {
        Ok(word) => controlled(host, fid, word),
        Err(_) => at_file(
            host,
            fid,
            Event::Ctl {
                generation: fid.generation,
                text,
            },
        ),
    }
}

fn controlled(host: u32, fid: Fid, word: Ctl) -> Planned
    ensures { result ≡ spec.keeping (asked.controlled host (bound_file fid) word) }
{
    let (slot, generation) = (fid.slot, fid.generation);
    match word {
        Ctl::Connect { remote, lport } => at_directory(
            host,
            fid,
            Event::Grant {
                slot,
                generation,
                remote,
                lport,
            },
        ),
        Ctl::Announce { ip, port } => at_directory(
            host,
            fid,
            Event::Announce {
                slot,
                generation,
                ip,
                port,
            },
        ),
        Ctl::Bind { port } => at_directory(
            host,
            fid,
            Event::Bind {
                slot,
                generation,
                port,
            },
        ),
        Ctl::Hangup => at_file(host, fid, Event::Hangup { generation }),
        Ctl::Ttl { n } => at_file(host, fid, Event::Ttl { generation, n }),
        Ctl::Tos { n } => at_file(host, fid, Event::Tos { generation, n }),
    }
}

fn at_directory(host: u32, fid: Fid, event: Event) -> Planned
    ensures { result ≡ spec.keeping (asked.at_directory host (bound_file fid) event) }
{
    keeping(ActorName::Dir(host, fid.proto), event)
}
