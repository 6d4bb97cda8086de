//! Members of JSON objects, each with a comma before it.
ghost use Rattle.std.specs.Prelude.{◌≡◌, ◌++◌, OnOk};
ghost use Rattle.net_base.specs.Transcript.{actor_word};
ghost use Rattle.history_json.specs.HistoryJson as json;
ghost use Rattle.history_json.specs.Members as spec;

use net_base::{ActorName, Addr, Octets};
use std::alloc::AllocError;
use words::{put_actor, put_address, put_decimal, put_place, put_wide_decimal};

// A word between quotes.
fn put_quoted(out: &mut Octets, word: &[u8]) -> Result<(), AllocError>
    ensures { OnOk result (out.new ≡ out.old ++ spec.quoted word.now) }
{
    out.push(b'"')?;
    out.append(word)?;
    out.push(b'"')
}

/// A comma, and the name of a member.
pub fn put_label(out: &mut Octets, name: &[u8]) -> Result<(), AllocError>
    ensures { OnOk result (out.new ≡ out.old ++ spec.label name.now) }
{
    out.push(b',')?;
    put_quoted(out, name)?;
    out.push(b':')
}

/// A member that is a number.
#[tactic(auto, unfolding(crate::specs::Members::number))]
pub fn put_number(out: &mut Octets, name: &[u8], n: u64) -> Result<(), AllocError>
    ensures { OnOk result (out.new ≡ out.old ++ spec.number name.now n) }
{
    put_label(out, name)?;
    put_decimal(out, n)
}

/// A member that is a large number.
#[tactic(auto, unfolding(crate::specs::Members::number))]
pub fn put_wide_number(out: &mut Octets, name: &[u8], n: u128) -> Result<(), AllocError>
    ensures { OnOk result (out.new ≡ out.old ++ spec.number name.now n) }
{
    put_label(out, name)?;
    put_wide_decimal(out, n)
}

/// A member that is null.
#[tactic(auto, unfolding(crate::specs::Members::nothing))]
pub fn put_nothing(out: &mut Octets, name: &[u8]) -> Result<(), AllocError>
    ensures { OnOk result (out.new ≡ out.old ++ spec.nothing name.now) }
{
    put_label(out, name)?;
    out.append(b"null")
}

/// A member that is a number, or null.
pub fn put_number_or_null(out: &mut Octets, name: &[u8], n: Option<u64>) -> Result<(), AllocError>
    ensures { OnOk result (out.new ≡ out.old ++ spec.number_or_null name.now n) }
{
    match n {
        Some(n) => put_number(out, name, n),
        None => put_nothing(out, name),
    }
}

/// A member that is true or false.
#[tactic(auto, unfolding(crate::specs::Members::truth))]
pub fn put_truth(out: &mut Octets, name: &[u8], holds: bool) -> Result<(), AllocError>
    ensures { OnOk result (out.new ≡ out.old ++ spec.truth name.now holds) }
{
    put_label(out, name)?;
    if holds {
        out.append(b"true")
    } else {
        out.append(b"false")
    }
}

/// A member that is a word, which has no byte that must be escaped.
#[tactic(auto, unfolding(crate::specs::Members::word))]
pub fn put_word(out: &mut Octets, name: &[u8], word: &[u8]) -> Result<(), AllocError>
    ensures { OnOk result (out.new ≡ out.old ++ spec.word name.now word.now) }
{
    put_label(out, name)?;
    put_quoted(out, word)
}

/// A member that is an address with its port.
#[tactic(auto, unfolding(crate::specs::Members::word))]
pub fn put_addr(out: &mut Octets, name: &[u8], addr: Addr) -> Result<(), AllocError>
    ensures { OnOk result (out.new ≡ out.old ++ json.addr name.now addr) }
{
    put_label(out, name)?;
    out.push(b'"')?;
    put_place(out, addr)?;
    out.push(b'"')
}

/// The member `address`: an address without a port, or null.
pub fn put_ip_or_null(out: &mut Octets, ip: Option<u32>) -> Result<(), AllocError>
    ensures { OnOk result (out.new ≡ out.old ++ json.ip_or_null ip) }
{
    match ip {
        Some(ip) => put_ip(out, ip),
        None => put_nothing(out, b"address"),
    }
}

#[tactic(auto, unfolding(crate::specs::Members::word))]
fn put_ip(out: &mut Octets, ip: u32) -> Result<(), AllocError>
    ensures { OnOk result (out.new ≡ out.old ++ spec.word json.address_name (json.ip_text ip)) }
{
    put_label(out, b"address")?;
    out.push(b'"')?;
    put_address(out, ip)?;
    out.push(b'"')
}

/// A member that is the name of an actor.
#[tactic(auto, unfolding(crate::specs::Members::word))]
pub fn put_actor_name(out: &mut Octets, name: &[u8], actor: ActorName) -> Result<(), AllocError>
    ensures { OnOk result (out.new ≡ out.old ++ spec.word name.now (actor_word actor)) }
{
    put_label(out, name)?;
    out.push(b'"')?;
    put_actor(out, actor)?;
    out.push(b'"')
}

/// The beginning of an object, whose first member is a word.
#[tactic(auto, unfolding(crate::specs::Members::first_word))]
pub fn put_first_word(out: &mut Octets, name: &[u8], word: &[u8]) -> Result<(), AllocError>
    ensures { OnOk result (out.new ≡ out.old ++ spec.first_word name.now word.now) }
{
    out.push(b'{')?;
    put_quoted(out, name)?;
    out.push(b':')?;
    put_quoted(out, word)
}

/// The beginning of an object, whose first member is a number.
#[tactic(auto, unfolding(crate::specs::Members::first_number))]
pub fn put_first_number(out: &mut Octets, name: &[u8], n: u64) -> Result<(), AllocError>
    ensures { OnOk result (out.new ≡ out.old ++ spec.first_number name.now n) }
{
    out.push(b'{')?;
    put_quoted(out, name)?;
    out.push(b':')?;
    put_decimal(out, n)
}

/// The kind of an event or a reply, which is the first member of its object.
pub fn put_kind(out: &mut Octets, kind: &[u8]) -> Result<(), AllocError>
    ensures { OnOk result (out.new ≡ out.old ++ json.kind kind.now) }
{
    put_first_word(out, b"kind", kind)
}

/// A generation.
pub fn put_generation(out: &mut Octets, generation: u64) -> Result<(), AllocError>
    ensures { OnOk result (out.new ≡ out.old ++ json.generation generation) }
{
    put_number(out, b"generation", generation)
}

/// A kind with a generation.
pub fn put_with_generation(out: &mut Octets, kind: &[u8], generation: u64) -> Result<(), AllocError>
    ensures { OnOk result (out.new ≡ out.old ++ spec.joined (json.with_generation kind.now generation)) }
{
    put_kind(out, kind)?;
    put_generation(out, generation)
}

/// A kind with a number of this name.
pub fn put_with_number(out: &mut Octets, kind: &[u8], name: &[u8], n: u64) -> Result<(), AllocError>
    ensures { OnOk result (out.new ≡ out.old ++ spec.joined (json.with_number kind.now name.now n)) }
{
    put_kind(out, kind)?;
    put_number(out, name, n)
}

/// A kind with a slot and its generation.
pub fn put_with_slot(
    out: &mut Octets,
    kind: &[u8],
    slot: u32,
    generation: u64,
) -> Result<(), AllocError>
    ensures { OnOk result (out.new ≡ out.old ++ spec.joined (json.with_slot kind.now slot generation)) }
{
    put_kind(out, kind)?;
    put_number(out, b"slot", slot as u64)?;
    put_generation(out, generation)
}

/// A kind with a generation and a number of this name.
pub fn put_counted(
    out: &mut Octets,
    kind: &[u8],
    generation: u64,
    name: &[u8],
    n: u64,
) -> Result<(), AllocError>
    ensures { OnOk result (out.new ≡ out.old ++ spec.joined (json.counted kind.now generation name.now n)) }
{
    put_kind(out, kind)?;
    put_generation(out, generation)?;
    put_number(out, name, n)
}

/// A kind alone.
pub fn put_only(out: &mut Octets, kind: &[u8]) -> Result<(), AllocError>
    ensures { OnOk result (out.new ≡ out.old ++ spec.joined (json.only kind.now)) }
{
    put_kind(out, kind)
}
