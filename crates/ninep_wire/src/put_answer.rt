//! Writing what a server answers.
ghost use Rattle.std.specs.Prelude.{◌≡◌, ◌<◌, ◌≤◌, ◌++◌, length, IfOk, OnOk};
ghost use Rattle.net_base.specs.NinepMessages.{SpellsR, IsRmsg, longest, r_bytes, r_fields, r_qids, r_tag, r_type};

use crate::put::{framed, put_data, put_long, put_qid, put_qids, put_string};
use net_base::{Octets, Rmsg};
use std::alloc::{AllocError, Global};

/// The bytes of the message.
#[tactic(auto, unfolding(net_base::specs::NinepMessages::r_bytes))]
pub fn encode_r(alloc: Global, message: &Rmsg) -> Result<Octets, AllocError>
    requires short { length (r_bytes message.now) ≤ longest }
    requires few { length (r_qids message.now) < 17 }
    ensures spelled { IfOk result (λ o. o ≡ r_bytes message.now) }
    ensures spells { IfOk result (λ o. SpellsR message.now o) }
{
    let mut fields = Octets::new(alloc);
    put_fields(&mut fields, message)?;
    framed(alloc, type_of(message), tag_of(message), &fields)
}

// The fields behind the tag.
fn put_fields(out: &mut Octets, message: &Rmsg) -> Result<(), AllocError>
    requires short { length (r_fields message.now) < 8210 }
    requires few { length (r_qids message.now) < 17 }
    ensures fits { OnOk result (IsRmsg message.now) }
    ensures spelled { OnOk result (out.new ≡ out.old ++ r_fields message.now) }
{
    match message {
        Rmsg::Version { msize, version, .. } => {
            put_long(out, *msize)?;
            put_string(out, version)
        }
        Rmsg::Auth { aqid, .. } => { put_qid(out, *aqid) }
        Rmsg::Attach { qid, .. } => { put_qid(out, *qid) }
        Rmsg::Error { ename, .. } => { put_string(out, ename) }
        Rmsg::Flush { .. } => Ok(()),
        Rmsg::Walk { qids, .. } => { put_qids(out, qids) }
        Rmsg::Open { qid, iounit, .. } => {
            put_qid(out, *qid)?;
            put_long(out, *iounit)
        }
        Rmsg::Create { qid, iounit, .. } => {
            put_qid(out, *qid)?;
            put_long(out, *iounit)
        }
        Rmsg::Read { bytes, .. } => { put_data(out, bytes) }
        Rmsg::Write { count, .. } => { put_long(out, *count) }
        Rmsg::Clunk { .. } => Ok(()),
        Rmsg::Remove { .. } => Ok(()),
        Rmsg::Stat { stat, .. } => { put_string(out, stat) }
        Rmsg::Wstat { .. } => Ok(()),
    }
}

fn type_of(message: &Rmsg) -> u8
    ensures { result ≡ r_type message.now }
{
    match message {
        Rmsg::Version { .. } => 101,
        Rmsg::Auth { .. } => 103,
        Rmsg::Attach { .. } => 105,
        Rmsg::Error { .. } => 107,
        Rmsg::Flush { .. } => 109,
        Rmsg::Walk { .. } => 111,
        Rmsg::Open { .. } => 113,
        Rmsg::Create { .. } => 115,
        Rmsg::Read { .. } => 117,
        Rmsg::Write { .. } => 119,
        Rmsg::Clunk { .. } => 121,
        Rmsg::Remove { .. } => 123,
        Rmsg::Stat { .. } => 125,
        Rmsg::Wstat { .. } => 127,
    }
}

fn tag_of(message: &Rmsg) -> u16
    ensures { result ≡ r_tag message.now }
{
    match message {
        Rmsg::Version { tag, .. } => *tag,
        Rmsg::Auth { tag, .. } => *tag,
        Rmsg::Attach { tag, .. } => *tag,
        Rmsg::Error { tag, .. } => *tag,
        Rmsg::Flush { tag, .. } => *tag,
        Rmsg::Walk { tag, .. } => *tag,
        Rmsg::Open { tag, .. } => *tag,
        Rmsg::Create { tag, .. } => *tag,
        Rmsg::Read { tag, .. } => *tag,
        Rmsg::Write { tag, .. } => *tag,
        Rmsg::Clunk { tag, .. } => *tag,
        Rmsg::Remove { tag, .. } => *tag,
        Rmsg::Stat { tag, .. } => *tag,
        Rmsg::Wstat { tag, .. } => *tag,
    }
}
