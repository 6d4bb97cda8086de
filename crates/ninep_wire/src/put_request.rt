//! Writing what a client asks.
ghost use Rattle.std.specs.Prelude.{◌≡◌, ◌<◌, ◌≤◌, ◌++◌, length, IfOk, OnOk};
ghost use Rattle.net_base.specs.NinepFields.{Holds, number_bytes};
ghost use Rattle.net_base.specs.NinepMessages.{SpellsT, IsTmsg, longest, t_bytes, t_fields, t_names, t_tag, t_type};

use crate::put::{
    framed, put_byte, put_data, put_long, put_string, put_strings, put_vast, put_word,
};
use net_base::{Octets, Tmsg};
use std::alloc::{AllocError, Global};

/// The bytes of the message.
#[tactic(auto, unfolding(net_base::specs::NinepMessages::t_bytes))]
pub fn encode_t(alloc: Global, message: &Tmsg) -> Result<Octets, AllocError>
    requires short { length (t_bytes message.now) ≤ longest }
    requires few { length (t_names message.now) < 17 }
    ensures spelled { IfOk result (λ o. o ≡ t_bytes message.now) }
    ensures spells { IfOk result (λ o. SpellsT message.now o) }
{
    let mut fields = Octets::new(alloc);
    put_fields(&mut fields, message)?;
    framed(alloc, type_of(message), tag_of(message), &fields)
}

// The fields behind the tag.
fn put_fields(out: &mut Octets, message: &Tmsg) -> Result<(), AllocError>
    requires short { length (t_fields message.now) < 8210 }
    requires few { length (t_names message.now) < 17 }
    ensures fits { OnOk result (IsTmsg message.now) }
    ensures spelled { OnOk result (out.new ≡ out.old ++ t_fields message.now) }
{
    match message {
        Tmsg::Version { msize, version, .. } => {
            put_long(out, *msize)?;
            put_string(out, version)
        }
        Tmsg::Auth {
            afid,
            uname,
            aname,
            ..
        } => {
            put_long(out, *afid)?;
            put_string(out, uname)?;
            put_string(out, aname)
        }
        Tmsg::Attach {
            fid,
            afid,
            uname,
            aname,
            ..
        } => {
            put_long(out, *fid)?;
            put_long(out, *afid)?;
            put_string(out, uname)?;
            put_string(out, aname)
        }
        Tmsg::Flush { oldtag, .. } => { put_word(out, *oldtag) }
        Tmsg::Walk {
            fid,
            newfid,
            names,
            ..
        } => {
            put_long(out, *fid)?;
            put_long(out, *newfid)?;
            put_strings(out, names)
        }
        Tmsg::Open { fid, mode, .. } => {
            put_long(out, *fid)?;
            put_byte(out, *mode)
        }
        Tmsg::Create {
            fid,
            name,
            perm,
            mode,
            ..
        } => {
            put_long(out, *fid)?;
            put_string(out, name)?;
            put_long(out, *perm)?;
            put_byte(out, *mode)
        }
        Tmsg::Read {
            fid,
            offset,
            count,
            ..
        } => {
            put_place(out, *fid, *offset)?;
            put_long(out, *count)
        }
        Tmsg::Write {
            fid,
            offset,
            bytes,
            ..
        } => {
            put_place(out, *fid, *offset)?;
            put_data(out, bytes)
        }
        Tmsg::Clunk { fid, .. } => { put_long(out, *fid) }
        Tmsg::Remove { fid, .. } => { put_long(out, *fid) }
        Tmsg::Stat { fid, .. } => { put_long(out, *fid) }
        Tmsg::Wstat { fid, stat, .. } => {
            put_long(out, *fid)?;
            put_string(out, stat)
        }
    }
}

// A file and a place in it.
fn put_place(out: &mut Octets, fid: u32, offset: u64) -> Result<(), AllocError>
    ensures fits { Holds 4 fid × Holds 8 offset }
    ensures spelled { OnOk result (out.new ≡ out.old ++ (number_bytes 4 fid ++ number_bytes 8 offset)) }
{
    put_long(out, fid)?;
    put_vast(out, offset)
}

fn type_of(message: &Tmsg) -> u8
    ensures { result ≡ t_type message.now }
{
    match message {
        Tmsg::Version { .. } => 100,
        Tmsg::Auth { .. } => 102,
        Tmsg::Attach { .. } => 104,
        Tmsg::Flush { .. } => 108,
        Tmsg::Walk { .. } => 110,
        Tmsg::Open { .. } => 112,
        Tmsg::Create { .. } => 114,
        Tmsg::Read { .. } => 116,
        Tmsg::Write { .. } => 118,
        Tmsg::Clunk { .. } => 120,
        Tmsg::Remove { .. } => 122,
        Tmsg::Stat { .. } => 124,
        Tmsg::Wstat { .. } => 126,
    }
}

/// The tag of a message.
pub fn tag_of(message: &Tmsg) -> u16
    ensures { result ≡ t_tag message.now }
{
    match message {
        Tmsg::Version { tag, .. } => *tag,
        Tmsg::Auth { tag, .. } => *tag,
        Tmsg::Attach { tag, .. } => *tag,
        Tmsg::Flush { tag, .. } => *tag,
        Tmsg::Walk { tag, .. } => *tag,
        Tmsg::Open { tag, .. } => *tag,
        Tmsg::Create { tag, .. } => *tag,
        Tmsg::Read { tag, .. } => *tag,
        Tmsg::Write { tag, .. } => *tag,
        Tmsg::Clunk { tag, .. } => *tag,
        Tmsg::Remove { tag, .. } => *tag,
        Tmsg::Stat { tag, .. } => *tag,
        Tmsg::Wstat { tag, .. } => *tag,
    }
}
