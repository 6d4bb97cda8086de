//! Reading what a server answers.
ghost use Rattle.std.specs.Prelude.{◌≡◌, ◌≢◌, ◌<◌, ◌≤◌, ◌⊎◌, ◌↔◌, length, IfErr, IfOk, IsErrOf, false};
ghost use Rattle.net_base.specs.declared.ninep.Rmsg.{Rmsg};
ghost use Rattle.net_base.specs.NinepFaults.{HasHeader, HasSize, HasRType, is_r_type, size_field, type_field};
ghost use Rattle.net_base.specs.NinepMessages.{SpellsR, longest, r_bytes, r_qids};
ghost use Rattle.ninep_wire.specs.Reading.{Gives};
ghost use Rattle.net_base.specs.NinepReading.{all_of, r_at, r_attach, r_auth, r_create, r_error, r_open, r_read, r_stat, r_version, r_walk, r_write};

use crate::fault::NinepError;
use crate::fields::{data, long, qid, qids, string};
use crate::header::{header_of, is_answer};
use net_base::Rmsg;
use std::alloc::Global;

/// The Rmsg that the bytes spell.
pub fn decode_r(alloc: Global, bytes: &[u8]) -> Result<Rmsg, NinepError>
    // What is read is spelled so.
    ensures found { IfOk result (λ m. SpellsR m bytes.now) }
    // What is spelled so is read, unless memory runs out.
    ensures only { (m : Rmsg) → SpellsR m bytes.now → IfOk result (λ r. r ≡ m)
        × IfErr result (λ e. e ≡ NinepError.Memory) }
    // What is read may be written again.
    ensures again { IfOk result (λ m. (length (r_bytes m) ≤ longest) × (length (r_qids m) < 17)) }
    // Which fault it is: the first of these.
    ensures short { IsErrOf result NinepError.Short ↔ (length bytes.now < 7) }
    ensures size { IsErrOf result NinepError.Size
        ↔ (HasHeader bytes.now × ((size_field bytes.now ≢ length bytes.now) ⊎ (longest < length bytes.now))) }
    ensures bad_type { IsErrOf result NinepError.BadType
        ↔ (HasSize bytes.now × (is_r_type (type_field bytes.now) ≡ false)) }
    ensures field { IsErrOf result NinepError.Field → HasRType bytes.now × ((m : Rmsg) → SpellsR m bytes.now → ⊥) }
{
    let header = header_of(bytes)?;
    if !is_answer(header.kind) {
        return Err(NinepError::BadType);
    }
    whole(alloc, header.kind, header.tag, header.fields)
}

// The message whose fields are these bytes, all of them.
fn whole(alloc: Global, kind: u8, tag: u16, bytes: &[u8]) -> Result<Rmsg, NinepError>
    ensures { Gives (λ m. m) result (all_of (r_at kind tag) bytes.now) }
{
    let (message, rest) = fields_of(alloc, kind, tag, bytes)?;
    if !rest.is_empty() {
        return Err(NinepError::Field);
    }
    Ok(message)
}

// The message of a type and a tag, and the bytes behind its fields.
#[tactic(auto, unfolding(net_base::specs::NinepReading::r_at))]
fn fields_of(alloc: Global, kind: u8, tag: u16, bytes: &[u8]) -> Result<(Rmsg, &[u8]), NinepError>
    ensures { Gives (λ x. (x.0, x.1.now)) result (r_at kind tag bytes.now) }
{
    match kind {
        101 => version_of(alloc, tag, bytes),
        103 => auth_of(tag, bytes),
        105 => attach_of(tag, bytes),
        107 => error_of(alloc, tag, bytes),
        109 => Ok((Rmsg::Flush { tag }, bytes)),
        111 => walk_of(alloc, tag, bytes),
        113 => open_of(tag, bytes),
        115 => create_of(tag, bytes),
        117 => read_of(alloc, tag, bytes),
        119 => write_of(tag, bytes),
        121 => Ok((Rmsg::Clunk { tag }, bytes)),
        123 => Ok((Rmsg::Remove { tag }, bytes)),
        125 => stat_of(alloc, tag, bytes),
        127 => Ok((Rmsg::Wstat { tag }, bytes)),
        _ => Err(NinepError::Field),
    }
}

#[tactic(auto, unfolding(net_base::specs::NinepReading::r_version))]
fn version_of(alloc: Global, tag: u16, bytes: &[u8]) -> Result<(Rmsg, &[u8]), NinepError>
    ensures { Gives (λ x. (x.0, x.1.now)) result (r_version tag bytes.now) }
{
    let (msize, rest) = long(bytes)?;
    let (version, rest) = string(alloc, rest)?;
    let message = Rmsg::Version {
        tag,
        msize,
        version,
    };
    Ok((message, rest))
}

#[tactic(auto, unfolding(net_base::specs::NinepReading::r_auth))]
fn auth_of(tag: u16, bytes: &[u8]) -> Result<(Rmsg, &[u8]), NinepError>
    ensures { Gives (λ x. (x.0, x.1.now)) result (r_auth tag bytes.now) }
{
    let (aqid, rest) = qid(bytes)?;
    let message = Rmsg::Auth { tag, aqid };
    Ok((message, rest))
}

#[tactic(auto, unfolding(net_base::specs::NinepReading::r_attach))]
fn attach_of(tag: u16, bytes: &[u8]) -> Result<(Rmsg, &[u8]), NinepError>
    ensures { Gives (λ x. (x.0, x.1.now)) result (r_attach tag bytes.now) }
{
    let (qid, rest) = qid(bytes)?;
    let message = Rmsg::Attach { tag, qid };
    Ok((message, rest))
}

#[tactic(auto, unfolding(net_base::specs::NinepReading::r_error))]
fn error_of(alloc: Global, tag: u16, bytes: &[u8]) -> Result<(Rmsg, &[u8]), NinepError>
    ensures { Gives (λ x. (x.0, x.1.now)) result (r_error tag bytes.now) }
{
    let (ename, rest) = string(alloc, bytes)?;
    let message = Rmsg::Error { tag, ename };
    Ok((message, rest))
}

#[tactic(auto, unfolding(net_base::specs::NinepReading::r_walk))]
fn walk_of(alloc: Global, tag: u16, bytes: &[u8]) -> Result<(Rmsg, &[u8]), NinepError>
    ensures { Gives (λ x. (x.0, x.1.now)) result (r_walk tag bytes.now) }
{
    let (qids, rest) = qids(alloc, bytes)?;
    let message = Rmsg::Walk { tag, qids };
    Ok((message, rest))
}

#[tactic(auto, unfolding(net_base::specs::NinepReading::r_open))]
fn open_of(tag: u16, bytes: &[u8]) -> Result<(Rmsg, &[u8]), NinepError>
    ensures { Gives (λ x. (x.0, x.1.now)) result (r_open tag bytes.now) }
{
    let (qid, rest) = qid(bytes)?;
    let (iounit, rest) = long(rest)?;
    let message = Rmsg::Open { tag, qid, iounit };
    Ok((message, rest))
}

#[tactic(auto, unfolding(net_base::specs::NinepReading::r_create))]
fn create_of(tag: u16, bytes: &[u8]) -> Result<(Rmsg, &[u8]), NinepError>
    ensures { Gives (λ x. (x.0, x.1.now)) result (r_create tag bytes.now) }
{
    let (qid, rest) = qid(bytes)?;
    let (iounit, rest) = long(rest)?;
    let message = Rmsg::Create { tag, qid, iounit };
    Ok((message, rest))
}

#[tactic(auto, unfolding(net_base::specs::NinepReading::r_read))]
fn read_of(alloc: Global, tag: u16, bytes: &[u8]) -> Result<(Rmsg, &[u8]), NinepError>
    ensures { Gives (λ x. (x.0, x.1.now)) result (r_read tag bytes.now) }
{
    let (text, rest) = data(alloc, bytes)?;
    let message = Rmsg::Read { tag, bytes: text };
    Ok((message, rest))
}

#[tactic(auto, unfolding(net_base::specs::NinepReading::r_write))]
fn write_of(tag: u16, bytes: &[u8]) -> Result<(Rmsg, &[u8]), NinepError>
    ensures { Gives (λ x. (x.0, x.1.now)) result (r_write tag bytes.now) }
{
    let (count, rest) = long(bytes)?;
    let message = Rmsg::Write { tag, count };
    Ok((message, rest))
}

#[tactic(auto, unfolding(net_base::specs::NinepReading::r_stat))]
fn stat_of(alloc: Global, tag: u16, bytes: &[u8]) -> Result<(Rmsg, &[u8]), NinepError>
    ensures { Gives (λ x. (x.0, x.1.now)) result (r_stat tag bytes.now) }
{
    let (stat, rest) = string(alloc, bytes)?;
    let message = Rmsg::Stat { tag, stat };
    Ok((message, rest))
}
