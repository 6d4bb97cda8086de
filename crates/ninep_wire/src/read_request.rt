//! Reading what a client asks.
ghost use Rattle.std.specs.Prelude.{◌≡◌, ◌≢◌, ◌<◌, ◌≤◌, ◌⊎◌, ◌↔◌, length, IfErr, IfOk, IsErrOf, false};
ghost use Rattle.net_base.specs.declared.ninep.Tmsg.{Tmsg};
ghost use Rattle.net_base.specs.NinepFaults.{HasHeader, HasSize, HasTType, is_t_type, size_field, type_field};
ghost use Rattle.net_base.specs.NinepMessages.{SpellsT, longest, t_bytes, t_names};
ghost use Rattle.ninep_wire.specs.Reading.{Gives};
ghost use Rattle.net_base.specs.NinepReading.{all_of, t_at};
ghost use Rattle.net_base.specs.NinepReading.{t_attach, t_auth, t_clunk, t_create, t_flush, t_open, t_read, t_remove, t_stat, t_version, t_walk, t_write, t_wstat};

use crate::fault::NinepError;
use crate::fields::{byte, data, long, string, strings, vast, word};
use crate::header::{header_of, is_request};
use net_base::Tmsg;
use std::alloc::Global;

/// The Tmsg that the bytes spell.
pub fn decode_t(alloc: Global, bytes: &[u8]) -> Result<Tmsg, NinepError>
    // What is read is spelled so.
    ensures found { IfOk result (λ m. SpellsT m bytes.now) }
    // What is spelled so is read, unless memory runs out.
    ensures only { (m : Tmsg) → SpellsT m bytes.now → IfOk result (λ r. r ≡ m)
        × IfErr result (λ e. e ≡ NinepError.Memory) }
    // What is read may be written again.
    ensures again { IfOk result (λ m. (length (t_bytes m) ≤ longest) × (length (t_names m) < 17)) }
    // Which fault it is: the first of these.
    ensures short { IsErrOf result NinepError.Short ↔ (length bytes.now < 7) }
    ensures size { IsErrOf result NinepError.Size
        ↔ (HasHeader bytes.now × ((size_field bytes.now ≢ length bytes.now) ⊎ (longest < length bytes.now))) }
    ensures bad_type { IsErrOf result NinepError.BadType
        ↔ (HasSize bytes.now × (is_t_type (type_field bytes.now) ≡ false)) }
    ensures field { IsErrOf result NinepError.Field → HasTType bytes.now × ((m : Tmsg) → SpellsT m bytes.now → ⊥) }
{
    let header = header_of(bytes)?;
    if !is_request(header.kind) {
        return Err(NinepError::BadType);
    }
    whole(alloc, header.kind, header.tag, header.fields)
}

// The message whose fields are these bytes, all of them.
fn whole(alloc: Global, kind: u8, tag: u16, bytes: &[u8]) -> Result<Tmsg, NinepError>
    ensures { Gives (λ m. m) result (all_of (t_at kind tag) bytes.now) }
{
    let (message, rest) = fields_of(alloc, kind, tag, bytes)?;
    if !rest.is_empty() {
        return Err(NinepError::Field);
    }
    Ok(message)
}

// The message of a type and a tag, and the bytes behind its fields.
#[tactic(auto, unfolding(net_base::specs::NinepReading::t_at))]
fn fields_of(alloc: Global, kind: u8, tag: u16, bytes: &[u8]) -> Result<(Tmsg, &[u8]), NinepError>
    ensures { Gives (λ x. (x.0, x.1.now)) result (t_at kind tag bytes.now) }
{
    match kind {
        100 => version_of(alloc, tag, bytes),
        102 => auth_of(alloc, tag, bytes),
        104 => attach_of(alloc, tag, bytes),
        108 => flush_of(tag, bytes),
        110 => walk_of(alloc, tag, bytes),
        112 => open_of(tag, bytes),
        114 => create_of(alloc, tag, bytes),
        116 => read_of(tag, bytes),
        118 => write_of(alloc, tag, bytes),
        120 => clunk_of(tag, bytes),
        122 => remove_of(tag, bytes),
        124 => stat_of(tag, bytes),
        126 => wstat_of(alloc, tag, bytes),
        _ => Err(NinepError::Field),
    }
}

#[tactic(auto, unfolding(net_base::specs::NinepReading::t_version))]
fn version_of(alloc: Global, tag: u16, bytes: &[u8]) -> Result<(Tmsg, &[u8]), NinepError>
    ensures { Gives (λ x. (x.0, x.1.now)) result (t_version tag bytes.now) }
{
    let (msize, rest) = long(bytes)?;
    let (version, rest) = string(alloc, rest)?;
    let message = Tmsg::Version {
        tag,
        msize,
        version,
    };
    Ok((message, rest))
}

#[tactic(auto, unfolding(net_base::specs::NinepReading::t_auth))]
fn auth_of(alloc: Global, tag: u16, bytes: &[u8]) -> Result<(Tmsg, &[u8]), NinepError>
    ensures { Gives (λ x. (x.0, x.1.now)) result (t_auth tag bytes.now) }
{
    let (afid, rest) = long(bytes)?;
    let (uname, rest) = string(alloc, rest)?;
    let (aname, rest) = string(alloc, rest)?;
    let message = Tmsg::Auth {
        tag,
        afid,
        uname,
        aname,
    };
    Ok((message, rest))
}

#[tactic(auto, unfolding(net_base::specs::NinepReading::t_attach))]
fn attach_of(alloc: Global, tag: u16, bytes: &[u8]) -> Result<(Tmsg, &[u8]), NinepError>
    ensures { Gives (λ x. (x.0, x.1.now)) result (t_attach tag bytes.now) }
{
    let (fid, rest) = long(bytes)?;
    let (afid, rest) = long(rest)?;
    let (uname, rest) = string(alloc, rest)?;
    let (aname, rest) = string(alloc, rest)?;
    let message = Tmsg::Attach {
        tag,
        fid,
        afid,
        uname,
        aname,
    };
    Ok((message, rest))
}

#[tactic(auto, unfolding(net_base::specs::NinepReading::t_flush))]
fn flush_of(tag: u16, bytes: &[u8]) -> Result<(Tmsg, &[u8]), NinepError>
    ensures { Gives (λ x. (x.0, x.1.now)) result (t_flush tag bytes.now) }
{
    let (oldtag, rest) = word(bytes)?;
    let message = Tmsg::Flush { tag, oldtag };
    Ok((message, rest))
}

#[tactic(auto, unfolding(net_base::specs::NinepReading::t_walk))]
fn walk_of(alloc: Global, tag: u16, bytes: &[u8]) -> Result<(Tmsg, &[u8]), NinepError>
    ensures { Gives (λ x. (x.0, x.1.now)) result (t_walk tag bytes.now) }
{
    let (fid, rest) = long(bytes)?;
    let (newfid, rest) = long(rest)?;
    let (names, rest) = strings(alloc, rest)?;
    let message = Tmsg::Walk {
        tag,
        fid,
        newfid,
        names,
    };
    Ok((message, rest))
}

#[tactic(auto, unfolding(net_base::specs::NinepReading::t_open))]
fn open_of(tag: u16, bytes: &[u8]) -> Result<(Tmsg, &[u8]), NinepError>
    ensures { Gives (λ x. (x.0, x.1.now)) result (t_open tag bytes.now) }
{
    let (fid, rest) = long(bytes)?;
    let (mode, rest) = byte(rest)?;
    let message = Tmsg::Open { tag, fid, mode };
    Ok((message, rest))
}

#[tactic(auto, unfolding(net_base::specs::NinepReading::t_create))]
fn create_of(alloc: Global, tag: u16, bytes: &[u8]) -> Result<(Tmsg, &[u8]), NinepError>
    ensures { Gives (λ x. (x.0, x.1.now)) result (t_create tag bytes.now) }
{
    let (fid, rest) = long(bytes)?;
    let (name, rest) = string(alloc, rest)?;
    let (perm, rest) = long(rest)?;
    let (mode, rest) = byte(rest)?;
    let message = Tmsg::Create {
        tag,
        fid,
        name,
        perm,
        mode,
    };
    Ok((message, rest))
}

#[tactic(auto, unfolding(net_base::specs::NinepReading::t_read))]
fn read_of(tag: u16, bytes: &[u8]) -> Result<(Tmsg, &[u8]), NinepError>
    ensures { Gives (λ x. (x.0, x.1.now)) result (t_read tag bytes.now) }
{
    let (fid, rest) = long(bytes)?;
    let (offset, rest) = vast(rest)?;
    let (count, rest) = long(rest)?;
    let message = Tmsg::Read {
        tag,
        fid,
        offset,
        count,
    };
    Ok((message, rest))
}

#[tactic(auto, unfolding(net_base::specs::NinepReading::t_write))]
fn write_of(alloc: Global, tag: u16, bytes: &[u8]) -> Result<(Tmsg, &[u8]), NinepError>
    ensures { Gives (λ x. (x.0, x.1.now)) result (t_write tag bytes.now) }
{
    let (fid, rest) = long(bytes)?;
    let (offset, rest) = vast(rest)?;
    let (text, rest) = data(alloc, rest)?;
    let message = Tmsg::Write {
        tag,
        fid,
        offset,
        bytes: text,
    };
    Ok((message, rest))
}

#[tactic(auto, unfolding(net_base::specs::NinepReading::t_clunk))]
fn clunk_of(tag: u16, bytes: &[u8]) -> Result<(Tmsg, &[u8]), NinepError>
    ensures { Gives (λ x. (x.0, x.1.now)) result (t_clunk tag bytes.now) }
{
    let (fid, rest) = long(bytes)?;
    let message = Tmsg::Clunk { tag, fid };
    Ok((message, rest))
}

#[tactic(auto, unfolding(net_base::specs::NinepReading::t_remove))]
fn remove_of(tag: u16, bytes: &[u8]) -> Result<(Tmsg, &[u8]), NinepError>
    ensures { Gives (λ x. (x.0, x.1.now)) result (t_remove tag bytes.now) }
{
    let (fid, rest) = long(bytes)?;
    let message = Tmsg::Remove { tag, fid };
    Ok((message, rest))
}

#[tactic(auto, unfolding(net_base::specs::NinepReading::t_stat))]
fn stat_of(tag: u16, bytes: &[u8]) -> Result<(Tmsg, &[u8]), NinepError>
    ensures { Gives (λ x. (x.0, x.1.now)) result (t_stat tag bytes.now) }
{
    let (fid, rest) = long(bytes)?;
    let message = Tmsg::Stat { tag, fid };
    Ok((message, rest))
}

#[tactic(auto, unfolding(net_base::specs::NinepReading::t_wstat))]
fn wstat_of(alloc: Global, tag: u16, bytes: &[u8]) -> Result<(Tmsg, &[u8]), NinepError>
    ensures { Gives (λ x. (x.0, x.1.now)) result (t_wstat tag bytes.now) }
{
    let (fid, rest) = long(bytes)?;
    let (stat, rest) = string(alloc, rest)?;
    let message = Tmsg::Wstat { tag, fid, stat };
    Ok((message, rest))
}
