//! Events in words.
ghost use Rattle.std.specs.Prelude.{◌≡◌, ◌∷◌, ◌++◌, [], OnOk};
ghost use Rattle.net_base.specs.Transcript.{spaced};
ghost use Rattle.history_words.specs.HistoryWords.{announce_words, bind_words, event_shown, generation, grant_words, mode_words, name_words, port_word};

use crate::put::{
    put_addr, put_moment, put_named, put_number, put_slot, put_with_generation, put_with_slot,
    put_with_text, put_word,
};
use crate::who::put_station;
use net_base::{Addr, Event, Mode, Octets, World};
use std::alloc::AllocError;
use words::{file_name, put_ip_or_star, put_port_or_star};

/// What was asked for.
pub fn put_event(out: &mut Octets, world: &World, event: &Event) -> Result<(), AllocError>
    ensures { OnOk result (out.new ≡ out.old ++ spaced (event_shown world.now event.now)) }
{
    match event {
        Event::Cs { query } => put_with_text(out, b"cs", query.as_slice()),
        Event::LsPath { path } => put_with_text(out, b"ls", path.as_slice()),
        Event::OpenPath { path, mode } => {
            put_with_text(out, b"open", path.as_slice())?;
            put_word(out, mode_words(*mode))
        }
        Event::Use { name } => {
            put_with_text(out, b"use of a name that isn't bound:", name.as_slice())
        }
        Event::Misuse { name } => put_with_text(out, b"misuse of", name.as_slice()),
        Event::Until { moment } => put_moment(out, b"wait until", *moment),
        Event::Refresh => put_word(out, b"read the database again"),
        Event::Reserve => put_word(out, b"reserve"),
        Event::Grant {
            slot,
            generation,
            remote,
            lport,
        } => put_grant(out, *slot, *generation, *remote, *lport),
        Event::Announce {
            slot,
            generation,
            ip,
            port,
        } => put_announce(out, *slot, *generation, *ip, *port),
        Event::Bind {
            slot,
            generation,
            port,
        } => put_bind(out, *slot, *generation, *port),
        Event::Listen { slot } => {
            put_word(out, b"listen")?;
            put_named(out, b"slot", *slot as u64)
        }
        Event::Withdraw { slot, generation } => {
            put_with_slot(out, b"withdraw", *slot, *generation)
        }
        Event::Release { slot, generation } => put_with_slot(out, b"release", *slot, *generation),
        Event::Arrive => put_word(out, b"arrive"),
        Event::Ls => put_word(out, b"ls"),
        Event::Begin { generation } => put_with_generation(out, b"begin", *generation),
        Event::Born { generation } => put_with_generation(out, b"born", *generation),
        Event::Claim { generation } => put_with_generation(out, b"claim", *generation),
        Event::Connect { generation } => put_with_generation(out, b"connect", *generation),
        Event::Announced { generation } => put_with_generation(out, b"announced", *generation),
        Event::Bound { generation } => put_with_generation(out, b"bound", *generation),
        Event::Await { generation } => put_with_generation(out, b"await", *generation),
        Event::Open { file, mode } => {
            put_word(out, b"open")?;
            put_word(out, file_name(*file))?;
            put_word(out, mode_words(*mode))
        }
        Event::File {
            generation,
            file,
            count,
        } => {
            put_word(out, b"read")?;
            put_word(out, file_name(*file))?;
            put_named(out, b"count", *count as u64)?;
            put_named(out, b"generation", *generation)
        }
        Event::Read { generation, count } => {
            put_word(out, b"read data")?;
            put_named(out, b"count", *count as u64)?;
            put_named(out, b"generation", *generation)
        }
        Event::Write { generation, text } => {
            put_with_text(out, b"write data", text.as_slice())?;
            put_named(out, b"generation", *generation)
        }
        Event::Hangup { generation } => put_with_generation(out, b"hangup", *generation),
        Event::Ttl { generation, n } => put_for(out, b"ttl", *n as u64, *generation),
        Event::Tos { generation, n } => put_for(out, b"tos", *n as u64, *generation),
        Event::Ctl { generation, text } => {
            put_with_text(out, b"write ctl", text.as_slice())?;
            put_named(out, b"generation", *generation)
        }
        Event::Close { generation } => put_with_generation(out, b"close", *generation),
        Event::ArriveAt { generation } => put_with_generation(out, b"arrive", *generation),
        Event::Tick { generation } => put_with_generation(out, b"tick", *generation),
        Event::Put { to } => {
            put_word(out, b"put for")?;
            put_station(out, world, *to)
        }
        Event::Take => put_word(out, b"take"),
        Event::Move { moment } => put_moment(out, b"move to", *moment),
    }
}

fn put_grant(
    out: &mut Octets,
    slot: u32,
    generation: u64,
    remote: Addr,
    lport: Option<u16>,
) -> Result<(), AllocError>
    ensures { OnOk result (out.new ≡ out.old ++ spaced (grant_words slot generation remote lport)) }
{
    put_with_slot(out, b"grant", slot, generation)?;
    put_word(out, b"to")?;
    put_addr(out, remote)?;
    put_word(out, b"from port")?;
    put_port(out, lport)
}

fn put_announce(
    out: &mut Octets,
    slot: u32,
    generation: u64,
    ip: Option<u32>,
    port: Option<u16>,
) -> Result<(), AllocError>
    ensures { OnOk result (out.new ≡ out.old ++ spaced (announce_words slot generation ip port)) }
{
    put_with_slot(out, b"announce", slot, generation)?;
    put_word(out, b"at")?;
    put_ip_or_star(out, ip)?;
    put_word(out, b"port")?;
    put_port_or_star(out, port)
}

fn put_bind(out: &mut Octets, slot: u32, generation: u64, port: u16) -> Result<(), AllocError>
    ensures { OnOk result (out.new ≡ out.old ++ spaced (bind_words slot generation port)) }
{
    put_with_slot(out, b"bind", slot, generation)?;
    put_named(out, b"port", port as u64)
}

// A number with its name before it, for a generation.
fn put_for(out: &mut Octets, word: &[u8], n: u64, g: u64) -> Result<(), AllocError>
    ensures { OnOk result (out.new ≡ out.old ++ spaced (name_words word.now n ++ generation g)) }
{
    put_named(out, word, n)?;
    put_named(out, b"generation", g)
}

// How a file is opened.
fn mode_words(mode: Mode) -> &'static [u8]
    ensures { result.now ≡ mode_words mode }
{
    match mode {
        Mode::Read => b"for reading",
        Mode::Write => b"for writing",
        Mode::Both => b"for both",
    }
}

// A port, if one is asked for.
fn put_port(out: &mut Octets, port: Option<u16>) -> Result<(), AllocError>
    ensures { OnOk result (out.new ≡ out.old ++ spaced (port_word port ∷ [])) }
{
    match port {
        Some(port) => put_number(out, port as u64),
        None => put_word(out, b"any"),
    }
}
