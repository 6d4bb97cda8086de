//! Events.
ghost use Rattle.std.specs.Prelude.{◌≡◌, ◌++◌, OnOk};
ghost use Rattle.history_words.specs.Labels.{event_label};

use crate::text::{put_beside, put_numbered};
use net_base::{Event, Octets};
use std::alloc::AllocError;
use words::file_name;

/// Adds an event: its word, and how much is asked for.
pub fn put_event(out: &mut Octets, event: &Event) -> Result<(), AllocError>
    ensures { OnOk result (out.new ≡ out.old ++ event_label event.now) }
{
    match event {
        Event::Until { moment } => put_numbered(out, b"until", *moment),
        Event::Open { file, .. } => put_beside(out, b"open", file_name(*file)),
        Event::File { file, .. } => put_beside(out, b"read", file_name(*file)),
        Event::Read { count, .. } => put_numbered(out, b"read", *count as u64),
        Event::Write { text, .. } => put_numbered(out, b"write", text.len() as u64),
        Event::Cs { .. } => out.append(b"cs"),
        Event::LsPath { .. } => out.append(b"ls"),
        Event::OpenPath { .. } => out.append(b"open"),
        Event::Use { .. } => out.append(b"use"),
        Event::Misuse { .. } => out.append(b"misuse"),
        Event::Refresh => out.append(b"refresh"),
        Event::Reserve => out.append(b"reserve"),
        Event::Grant { .. } => out.append(b"grant"),
        Event::Announce { .. } => out.append(b"announce"),
        Event::Bind { .. } => out.append(b"bind"),
        Event::Listen { .. } => out.append(b"listen"),
        Event::Withdraw { .. } => out.append(b"withdraw"),
        Event::Release { .. } => out.append(b"release"),
        Event::Arrive => out.append(b"arrive"),
        Event::Ls => out.append(b"ls"),
        Event::Begin { .. } => out.append(b"begin"),
        Event::Born { .. } => out.append(b"born"),
        Event::Claim { .. } => out.append(b"claim"),
        Event::Connect { .. } => out.append(b"connect"),
        Event::Announced { .. } => out.append(b"announced"),
        Event::Bound { .. } => out.append(b"bound"),
        Event::Await { .. } => out.append(b"await"),
        Event::Hangup { .. } => out.append(b"hangup"),
        Event::Ttl { .. } => out.append(b"ttl"),
        Event::Tos { .. } => out.append(b"tos"),
        Event::Ctl { .. } => out.append(b"ctl"),
        Event::Close { .. } => out.append(b"close"),
        Event::ArriveAt { .. } => out.append(b"arrive"),
        Event::Tick { .. } => out.append(b"tick"),
        Event::Put { .. } => out.append(b"put"),
        Event::Take => out.append(b"take"),
        Event::Move { .. } => out.append(b"move"),
    }
}
