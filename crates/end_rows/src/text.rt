//! Rows as words.
ghost use Rattle.std.specs.Prelude.{◌≡◌, ◌∷◌, ◌++◌, [], OnOk};
ghost use Rattle.net_base.specs.Transcript.{cause_number, number_or_dash, spaced};
ghost use Rattle.end_rows.specs.EndRows as spec;

use crate::count::{Count, EndCount, cause_of, state_of};
use crate::ends::EndName;
use net_base::{Addr, Cause, Octets, StateName};
use std::alloc::AllocError;
use words::{proto_name, put_addr, put_decimal, put_number, put_word, state_word};

/// What is shown of an end.
#[derive(Clone, Copy)]
pub struct Sight {
    pub generation: u64,
    pub state: StateName,
    pub written: Option<u64>,
    pub acked: Option<u64>,
    pub received: Option<u64>,
    pub unread: u64,
    pub early: Option<u64>,
    pub due: Option<u64>,
    pub cause: Option<u64>,
    pub local: Addr,
    pub remote: Addr,
}

fn cause_number_of(cause: Option<Cause>) -> Option<u64>
    ensures { result ≡ spec.cause_shown cause }
{
    match cause {
        Some(cause) => Some(number_of_cause(cause)),
        None => None,
    }
}

fn number_of_cause(cause: Cause) -> u64
    ensures { result ≡ cause_number cause }
{
    match cause {
        Cause::Refused => 1,
        Cause::TimedOut => 2,
        Cause::Hungup => 3,
        Cause::ByPeer => 4,
    }
}

/// What is shown of a conversation that is due then.
pub fn sight_of(count: &Count, due: Option<u64>) -> Sight
    ensures { result ≡ spec.sight_of count.now due }
{
    let generation = count.generation;
    let state = state_of(&count.end);
    let cause = cause_number_of(cause_of(&count.end));
    let local = count.pair.local;
    let remote = count.pair.remote;
    match &count.end {
        EndCount::Il(end) => Sight {
            generation,
            state,
            written: Some(end.written),
            acked: Some(end.acked),
            received: Some(end.received),
            unread: end.unread.len() as u64,
            early: Some(end.early.len() as u64),
            due,
            cause,
            local,
            remote,
        },
        EndCount::Udp(end) => Sight {
            generation,
            state,
            written: None,
            acked: None,
            received: None,
            unread: end.unread,
            early: None,
            due,
            cause,
            local,
            remote,
        },
    }
}

fn put_number_or_dash(out: &mut Octets, n: Option<u64>) -> Result<(), AllocError>
    ensures { OnOk result (out.new ≡ out.old ++ spaced (number_or_dash n ∷ [])) }
{
    match n {
        Some(n) => put_number(out, n),
        None => put_word(out, b"-"),
    }
}

fn put_end(out: &mut Octets, name: EndName) -> Result<(), AllocError>
    ensures { OnOk result (out.new ≡ out.old ++ spaced (spec.end_word name ∷ [])) }
{
    put_number(out, name.host as u64)?;
    out.append(b".")?;
    out.append(proto_name(name.proto))?;
    out.append(b".")?;
    put_decimal(out, name.slot as u64)
}

fn put_counts(out: &mut Octets, sight: &Sight) -> Result<(), AllocError>
    ensures { OnOk result (out.new ≡ out.old ++ spec.counts_text sight.now) }
{
    put_number_or_dash(out, sight.written)?;
    put_number_or_dash(out, sight.acked)?;
    put_number_or_dash(out, sight.received)?;
    put_number(out, sight.unread)?;
    put_number_or_dash(out, sight.early)
}

/// Adds what is shown of an end.
#[tactic(auto, unfolding(crate::specs::EndRows::sight_text))]
pub fn put_sight(out: &mut Octets, sight: &Sight) -> Result<(), AllocError>
    ensures { OnOk result (out.new ≡ out.old ++ spec.sight_text sight.now) }
{
    put_number(out, sight.generation)?;
    put_word(out, state_word(sight.state))?;
    put_counts(out, sight)?;
    put_number_or_dash(out, sight.due)?;
    put_number_or_dash(out, sight.cause)?;
    put_addr(out, sight.local)?;
    put_addr(out, sight.remote)
}

/// Adds the row of an end as it is shown from the entry of this stamp on.
#[tactic(auto, unfolding(crate::specs::EndRows::end_line))]
pub fn put_row(out: &mut Octets, stamp: u64, name: EndName, shown: &[u8]) -> Result<(), AllocError>
    ensures { OnOk result (out.new ≡ out.old ++ spec.end_line stamp name shown.now) }
{
    put_decimal(out, stamp)?;
    put_end(out, name)?;
    out.append(shown)?;
    out.append(b"\n")
}
