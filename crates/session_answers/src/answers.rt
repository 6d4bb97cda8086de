//! The answers to the messages of a session.
ghost use Rattle.std.specs.Prelude.{◌≡◌, ◌<◌, List, length, IfOk, IfSome, MatchOption};
ghost use Rattle.net_base.specs.declared.ninep.Tmsg.{Tmsg as AnyTmsg};
ghost use Rattle.net_base.specs.Next.{own_replies};
ghost use Rattle.session_answers.specs.Told.{AreTold};
ghost use Rattle.session_answers.specs.Served.{IsLastMessage, IsServedFirst, answered_of, session_state};
ghost use Rattle.session_script.specs.Seen.{seen_table};
ghost use Rattle.net_base.specs.SessionTable.{IsSound};
ghost use Rattle.net_base.specs.SessionScript.{AreMessages};
ghost use Rattle.net_base.specs.Server.{answers_to};
ghost use Rattle.net_base.specs.Session as spec;

use crate::replies::Replies;
use crate::session::Session;
use net_base::{Entries, Lines, Octets, Sequence};
use session_script::{ExportError, first_message};
use std::alloc::{AllocError, Global};

/// The answers to the messages of a session of a host, which is this caller, by its entries in a history.
pub fn answers_by<E: Entries>(
    alloc: Global,
    host: u32,
    bytes: &[u8],
    caller: u32,
    entries: &E,
    owes: bool,
) -> Result<Lines, AllocError>
    ensures { IfOk result (λ lines. (ms : List AnyTmsg) → AreMessages bytes.now ms
        → AreTold (own_replies (E.list entries.now) caller)
        → lines ≡ answers_to (spec.session host) spec.first ms (answered_of owes (E.list entries.now) caller)) }
{
    let mut session = Session::new(alloc, host)?;
    let mut replies = Replies::new(entries, caller, owes);
    let mut answers = Sequence::new(alloc);
    let mut rest = bytes;
    while !rest.is_empty() {
        let Some((answer, behind)) = serve_first(alloc, &mut session, rest, &mut replies)? else {
            return Ok(answers);
        };
        answers.push(answer)?;
        rest = behind;
    }
    Ok(answers)
}

// Serves the first message: its answer, and the bytes behind it.
fn serve_first<'a, E: Entries>(
    alloc: Global,
    session: &mut Session,
    bytes: &'a [u8],
    replies: &mut Replies<'_, E>,
) -> Result<Option<(Octets, &'a [u8])>, AllocError>
    requires sound { IsSound (seen_table session.old.table) }
    ensures served { IfOk result (λ first. MatchOption first
        (IsLastMessage session.old.host (session_state session.old) bytes.now replies.old)
        (λ x. IsServedFirst session.old.host (session_state session.old) (session_state session.new) bytes.now x.1.now
        x.0 replies.old replies.new)) }
    ensures sound { IfOk result (λ first. IfSome first (λ x. IsSound (seen_table session.new.table))) }
    ensures shorter { IfOk result (λ first. IfSome first (λ x. length x.1.now < length bytes.now)) }
    ensures host { session.new.host ≡ session.old.host }
{
    match first_message(alloc, session.table.msize, bytes) {
        Ok((message, behind)) => match session.serve(&message, replies)? {
            Some(answer) => Ok(Some((answer, behind))),
            None => Ok(None),
        },
        Err(ExportError::Memory) => Err(AllocError),
        Err(ExportError::BadStream) => Ok(None),
    }
}
