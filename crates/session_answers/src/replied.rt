//! The answers to messages with a step, by the reply to its last event.
ghost use Rattle.std.specs.Prelude.{◌≡◌, ◌≤◌, false, length, IfOk, OnOk};
ghost use Rattle.net_base.specs.declared.ninep.Tmsg.TheVariants as t;
ghost use Rattle.net_base.specs.NinepMessages.{IsTmsg, longest, r_bytes};
ghost use Rattle.net_base.specs.SessionAnswers as spec;
ghost use Rattle.session_answers.specs.Told as told;
ghost use Rattle.session_answers.specs.Told.{told_by_reply, told_reply_text};
ghost use Rattle.session_script.specs.Seen.{seen_table};

use crate::printed::{is_brief, printed};
use crate::said::{error, piece, qid_of};
use net_base::{FileName, Node, Octets, Reply};
use ninep_wire::{Rmsg, Tmsg, encode_r, tag_of};
use script_task::bytes_in;
use session_script::{Table, is_data};
use std::alloc::{AllocError, Global};

/// The bytes of the answer to a message with a step, by the reply to the step's last event.
pub fn replied_bytes(
    alloc: Global,
    table: &Table,
    message: &Tmsg,
    reply: &Reply,
) -> Result<Octets, AllocError>
    requires message { IsTmsg message.now }
    requires short { table.now.msize ≤ longest }
    ensures { IfOk result (λ bytes. bytes ≡ r_bytes (told_by_reply (seen_table table.now) message.now reply.now)) }
{
    let answer = replied(alloc, table, message, reply)?;
    encode_r(alloc, &answer)
}

/// Whether the reply can be one to an event of a session: it grants it or is a few short words.
pub fn is_told(reply: &Reply) -> bool
    ensures { result ≡ told.is_reply_told reply.now }
{
    is_granting(reply) || is_brief(reply)
}

// The answer to a message with a step, by the reply to the step's last event.
fn replied(alloc: Global, table: &Table, message: &Tmsg, reply: &Reply) -> Result<Rmsg, AllocError>
    requires { IsTmsg message.now }
    ensures told { IfOk result (λ m. m ≡ told_by_reply (seen_table table.now) message.now reply.now) }
    ensures short { OnOk result (spec.is_granting reply.now ≡ false → length (told_reply_text reply.now)
        ≤ spec.longest_error) }
{
    if is_granting(reply) {
        return granted(alloc, table, message, reply);
    }
    let ename = printed(alloc, reply)?;
    Ok(Rmsg::Error {
        tag: tag_of(message),
        ename,
    })
}

// Whether a reply refuses nothing.
fn is_granting(reply: &Reply) -> bool
    ensures { result ≡ spec.is_granting reply.now }
{
    match reply {
        Reply::Slot { .. } => true,
        Reply::Call { .. } => true,
        Reply::Opened { .. } => true,
        Reply::Ok => true,
        Reply::Left => true,
        Reply::Bytes { .. } => true,
        Reply::Count { .. } => true,
        Reply::Lines { .. } => true,
        _ => false,
    }
}

fn granted(alloc: Global, table: &Table, message: &Tmsg, reply: &Reply) -> Result<Rmsg, AllocError>
    requires { IsTmsg message.now }
    ensures { IfOk result (λ m. m ≡ spec.granted (seen_table table.now) message.now reply.now) }
{
    match message {
        Tmsg::Open { tag, fid, .. } => Ok(Rmsg::Open {
            tag: *tag,
            qid: qid_of(now_open(node_at(table, *fid), reply)),
            iounit: 0,
        }),
        Tmsg::Read {
            tag,
            fid,
            offset,
            count,
        } => read(alloc, table, *tag, *fid, *offset, *count, reply),
        Tmsg::Write { tag, bytes, .. } => Ok(Rmsg::Write {
            tag: *tag,
            count: bytes.len() as u32,
        }),
        Tmsg::Clunk { tag, .. } => Ok(Rmsg::Clunk { tag: *tag }),
        _ => error(alloc, tag_of(message), b"not served"),
    }
}

/// The node of a fid, where it is known.
pub fn node_at(table: &Table, fid: u32) -> Node
    ensures { result ≡ spec.node_at (seen_table table.now) fid }
{
    match table.fids.get(fid) {
        Some(target) => target.node,
        None => Node::Root,
    }
}

// What was opened: of clone and listen it is the ctl file of the slot.
fn now_open(node: Node, reply: &Reply) -> Node
    ensures { result ≡ spec.now_open node reply.now }
{
    match (node, reply) {
        (Node::Clone(proto), Reply::Slot { slot, .. }) => {
            Node::File(proto, *slot, FileName::Ctl)
        }
        (Node::File(proto, _, _), Reply::Call { slot, .. }) => {
            Node::File(proto, *slot, FileName::Ctl)
        }
        _ => node,
    }
}

fn read(
    alloc: Global,
    table: &Table,
    tag: u16,
    fid: u32,
    offset: u64,
    count: u32,
    reply: &Reply,
) -> Result<Rmsg, AllocError>
    ensures { IfOk result (λ m. m ≡ spec.granted (seen_table table.now) (t.Read tag fid offset count) reply.now) }
{
    // data are read from where they are
    let skipped = if is_data(node_at(table, fid)) {
        0
    } else {
        offset
    };
    let bytes = Octets::from_slice(alloc, piece(bytes_in(reply), skipped, table.room(count)))?;
    Ok(Rmsg::Read { tag, bytes })
}
