//! Events as members.
ghost use Rattle.std.specs.Prelude.{◌≡◌, ◌++◌, OnOk};
ghost use Rattle.history_json.specs.HistoryJson.{announce_members, bind_members, event_members, grant_members, file_members, open_members, port_member, station_members, with_text};
ghost use Rattle.history_json.specs.Members.{joined};

use crate::member::{
    put_addr, put_counted, put_ip_or_null, put_kind, put_nothing, put_number, put_only,
    put_with_generation, put_with_number, put_with_slot, put_word,
};
use crate::text::put_text;
use net_base::{Addr, Event, FileName, Mode, Octets};
use std::alloc::AllocError;
use words::{file_name, mode_word};

/// What was asked for.
pub fn put_event(out: &mut Octets, event: &Event) -> Result<(), AllocError>
    ensures { OnOk result (out.new ≡ out.old ++ joined (event_members event.now)) }
{
    match event {
        Event::Cs { query } => put_with_text(out, b"cs", query.as_slice()),
        Event::LsPath { path } => put_with_text(out, b"ls", path.as_slice()),
        Event::OpenPath { path, mode } => {
            put_kind(out, b"open")?;
            put_word(out, b"mode", mode_word(*mode))?;
            put_text(out, path.as_slice())
        }
        Event::Use { name } => put_with_text(out, b"use", name.as_slice()),
        Event::Misuse { name } => put_with_text(out, b"misuse", name.as_slice()),
        Event::Until { moment } => put_with_number(out, b"until", b"moment", *moment),
        Event::Refresh => put_only(out, b"refresh"),
        Event::Reserve => put_only(out, b"reserve"),
        Event::Grant {
            slot,
            generation,
            remote,
            lport,
        } => put_grant(out, *slot, *generation, *remote, *lport),
        Event::Announce {
            slot,
            generation,
            ip,
            port,
        } => put_announce(out, *slot, *generation, *ip, *port),
        Event::Bind {
            slot,
            generation,
            port,
        } => put_bind(out, *slot, *generation, *port),
        Event::Listen { slot } => put_with_number(out, b"listen", b"slot", *slot as u64),
        Event::Withdraw { slot, generation } => {
            put_with_slot(out, b"withdraw", *slot, *generation)
        }
        Event::Release { slot, generation } => put_with_slot(out, b"release", *slot, *generation),
        Event::Arrive => put_only(out, b"arrive"),
        Event::Ls => put_only(out, b"ls"),
        Event::Begin { generation } => put_with_generation(out, b"begin", *generation),
        Event::Born { generation } => put_with_generation(out, b"born", *generation),
        Event::Claim { generation } => put_with_generation(out, b"claim", *generation),
        Event::Connect { generation } => put_with_generation(out, b"connect", *generation),
        Event::Announced { generation } => put_with_generation(out, b"announced", *generation),
        Event::Bound { generation } => put_with_generation(out, b"bound", *generation),
        Event::Await { generation } => put_with_generation(out, b"await", *generation),
        Event::Open { file, mode } => put_open(out, *file, *mode),
        Event::File {
            generation,
            file,
            count,
        } => put_file(out, *generation, *file, *count),
        Event::Read { generation, count } => {
            put_counted(out, b"read", *generation, b"count", *count as u64)
        }
        Event::Write { generation, text } => {
            put_with_generation(out, b"write", *generation)?;
            put_text(out, text.as_slice())
        }
        Event::Hangup { generation } => put_with_generation(out, b"hangup", *generation),
        Event::Ttl { generation, n } => {
            put_counted(out, b"ttl", *generation, b"value", *n as u64)
        }
        Event::Tos { generation, n } => {
            put_counted(out, b"tos", *generation, b"value", *n as u64)
        }
        Event::Ctl { generation, text } => {
            put_with_generation(out, b"ctl", *generation)?;
            put_text(out, text.as_slice())
        }
        Event::Close { generation } => put_with_generation(out, b"close", *generation),
        Event::ArriveAt { generation } => put_with_generation(out, b"arrive", *generation),
        Event::Tick { generation } => put_with_generation(out, b"tick", *generation),
        Event::Put { to } => put_station(out, *to),
        Event::Take => put_only(out, b"take"),
        Event::Move { moment } => put_with_number(out, b"move", b"moment", *moment),
    }
}

fn put_with_text(out: &mut Octets, kind: &[u8], text: &[u8]) -> Result<(), AllocError>
    ensures { OnOk result (out.new ≡ out.old ++ joined (with_text kind.now text.now)) }
{
    put_kind(out, kind)?;
    put_text(out, text)
}

fn put_grant(
    out: &mut Octets,
    slot: u32,
    generation: u64,
    remote: Addr,
    lport: Option<u16>,
) -> Result<(), AllocError>
    ensures { OnOk result (out.new ≡ out.old ++ joined (grant_members slot generation remote lport)) }
{
    put_with_slot(out, b"grant", slot, generation)?;
    put_addr(out, b"remote", remote)?;
    put_port(out, lport)
}

fn put_announce(
    out: &mut Octets,
    slot: u32,
    generation: u64,
    ip: Option<u32>,
    port: Option<u16>,
) -> Result<(), AllocError>
    ensures { OnOk result (out.new ≡ out.old ++ joined (announce_members slot generation ip port)) }
{
    put_with_slot(out, b"announce", slot, generation)?;
    put_ip_or_null(out, ip)?;
    put_port(out, port)
}

fn put_bind(out: &mut Octets, slot: u32, generation: u64, port: u16) -> Result<(), AllocError>
    ensures { OnOk result (out.new ≡ out.old ++ joined (bind_members slot generation port)) }
{
    put_with_slot(out, b"bind", slot, generation)?;
    put_number(out, b"port", port as u64)
}

fn put_port(out: &mut Octets, port: Option<u16>) -> Result<(), AllocError>
    ensures { OnOk result (out.new ≡ out.old ++ port_member port) }
{
    match port {
        Some(port) => put_number(out, b"port", port as u64),
        None => put_nothing(out, b"port"),
    }
}

fn put_open(out: &mut Octets, file: FileName, mode: Mode) -> Result<(), AllocError>
    ensures { OnOk result (out.new ≡ out.old ++ joined (open_members file mode)) }
{
    put_kind(out, b"open")?;
    put_word(out, b"file", file_name(file))?;
    put_word(out, b"mode", mode_word(mode))
}

fn put_file(out: &mut Octets, generation: u64, file: FileName, count: u32) -> Result<(), AllocError>
    ensures { OnOk result (out.new ≡ out.old ++ joined (file_members generation file count)) }
{
    put_with_generation(out, b"file", generation)?;
    put_word(out, b"file", file_name(file))?;
    put_number(out, b"count", count as u64)
}

// The number of the station that a packet is for, if there is one.
fn put_station(out: &mut Octets, to: Option<u32>) -> Result<(), AllocError>
    ensures { OnOk result (out.new ≡ out.old ++ joined (station_members to)) }
{
    put_kind(out, b"put")?;
    match to {
        Some(host) => put_number(out, b"station", host as u64),
        None => put_nothing(out, b"station"),
    }
}
