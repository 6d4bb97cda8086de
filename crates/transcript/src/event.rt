//! Events as words.
ghost use Rattle.std.specs.Prelude.{◌≡◌, ◌++◌, OnOk};
ghost use Rattle.net_base.specs.Transcript.{spaced, event_words};

use crate::line::{put_hex, put_number, put_with_hex, put_with_number, put_with_numbers, put_word};
use crate::names::{put_addr, put_ip_or_star, put_number_or_dash, put_port_or_star};
use net_base::{Event, Octets};
use std::alloc::AllocError;
use words::{file_name, mode_word};

/// An event: its word and what goes with it.
pub fn put_event(out: &mut Octets, event: &Event) -> Result<(), AllocError>
    ensures { OnOk result (out.new ≡ out.old ++ spaced (event_words event.now)) }
{
    match event {
        Event::Cs { query } => put_with_hex(out, b"cs", query.as_slice()),
        Event::LsPath { path } => put_with_hex(out, b"ls", path.as_slice()),
        Event::OpenPath { path, mode } => {
            put_with_hex(out, b"open", path.as_slice())?;
            put_word(out, mode_word(*mode))
        }
        Event::Use { name } => {
            put_word(out, b"use")?;
            put_word(out, name.as_slice())
        }
        Event::Misuse { name } => {
            put_word(out, b"misuse")?;
            put_word(out, name.as_slice())
        }
        Event::Until { moment } => put_with_number(out, b"until", *moment),
        Event::Refresh => put_word(out, b"refresh"),
        Event::Reserve => put_word(out, b"reserve"),
        Event::Grant {
            slot,
            generation,
            remote,
            lport,
        } => {
            put_with_numbers(out, b"grant", *slot as u64, *generation)?;
            put_addr(out, *remote)?;
            put_number_or_dash(out, wide(*lport))
        }
        Event::Announce {
            slot,
            generation,
            ip,
            port,
        } => {
            put_with_numbers(out, b"announce", *slot as u64, *generation)?;
            put_ip_or_star(out, *ip)?;
            put_port_or_star(out, *port)
        }
        Event::Bind {
            slot,
            generation,
            port,
        } => {
            put_with_numbers(out, b"bind", *slot as u64, *generation)?;
            put_number(out, *port as u64)
        }
        Event::Listen { slot } => put_with_number(out, b"listen", *slot as u64),
        Event::Withdraw { slot, generation } => {
            put_with_numbers(out, b"withdraw", *slot as u64, *generation)
        }
        Event::Release { slot, generation } => {
            put_with_numbers(out, b"release", *slot as u64, *generation)
        }
        Event::Arrive => put_word(out, b"arrive"),
        Event::Ls => put_word(out, b"ls"),
        Event::Begin { generation } => put_with_number(out, b"begin", *generation),
        Event::Born { generation } => put_with_number(out, b"born", *generation),
        Event::Claim { generation } => put_with_number(out, b"claim", *generation),
        Event::Connect { generation } => put_with_number(out, b"connect", *generation),
        Event::Announced { generation } => put_with_number(out, b"announced", *generation),
        Event::Bound { generation } => put_with_number(out, b"bound", *generation),
        Event::Await { generation } => put_with_number(out, b"await", *generation),
        Event::Open { file, mode } => {
            put_word(out, b"open")?;
            put_word(out, file_name(*file))?;
            put_word(out, mode_word(*mode))
        }
        Event::File {
            generation,
            file,
            count,
        } => {
            put_with_number(out, b"file", *generation)?;
            put_word(out, file_name(*file))?;
            put_number(out, *count as u64)
        }
        Event::Read { generation, count } => {
            put_with_numbers(out, b"read", *generation, *count as u64)
        }
        Event::Write { generation, text } => {
            put_with_number(out, b"write", *generation)?;
            put_hex(out, text.as_slice())
        }
        Event::Hangup { generation } => put_with_number(out, b"hangup", *generation),
        Event::Ttl { generation, n } => put_with_numbers(out, b"ttl", *generation, *n as u64),
        Event::Tos { generation, n } => put_with_numbers(out, b"tos", *generation, *n as u64),
        Event::Ctl { generation, text } => {
            put_with_number(out, b"ctl", *generation)?;
            put_hex(out, text.as_slice())
        }
        Event::Close { generation } => put_with_number(out, b"close", *generation),
        Event::ArriveAt { generation } => put_with_number(out, b"arrive", *generation),
        Event::Tick { generation } => put_with_number(out, b"tick", *generation),
        Event::Put { to } => {
            put_word(out, b"put")?;
            put_number_or_dash(out, wide_host(*to))
        }
        Event::Take => put_word(out, b"take"),
        Event::Move { moment } => put_with_number(out, b"move", *moment),
    }
}

fn wide(port: Option<u16>) -> Option<u64>
    ensures { result ≡ port }
{
    match port {
        Some(port) => Some(port as u64),
        None => None,
    }
}

fn wide_host(host: Option<u32>) -> Option<u64>
    ensures { result ≡ host }
{
    match host {
        Some(host) => Some(host as u64),
        None => None,
    }
}
