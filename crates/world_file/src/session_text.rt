//! The text of a world with sessions, line by line.
ghost use Rattle.std.specs.Prelude.{◌≡◌, ℕ, List, [], ◌∷◌, ◌+◌, ◌++◌, ◌<◌, ◌≤◌, ◌^◌, length, Ok, IfOk, IfErr, OnOk, MatchOption, None, Some};
ghost use Rattle.std.specs.List.{last_or};
ghost use Rattle.std.specs.Option.{option_and_then};
ghost use Rattle.net_base.specs.World.{IsWorld};
ghost use Rattle.session_script.specs.Worlds.{HaveHosts, HaveStreams};
ghost use Rattle.world_text.specs.VersionLines.{bad_version_line};
ghost use Rattle.world_text.specs.LineCauses.{cause_number_of};
ghost use Rattle.world_text.specs.WorldLines as lines;
ghost use Rattle.world_text.specs.WorldLines.{at_last, line_verdict};
ghost use Rattle.world_text.specs.WorldText.{with_versions};
ghost use Rattle.world_text.specs.WorldWords.{hex_text, single_word};
ghost use Rattle.world_file.specs.SessionText as spec;
ghost use Rattle.world_file.specs.SessionText.{IsStreamOf, SaysSessions};
ghost use Rattle.session_script.specs.declared.fault.ExportError.TheVariants as fault;
ghost use Rattle.world_file.specs.declared.fault.WorldError.TheVariants as told;
ghost use Rattle.world_file.specs.SessionTold.{StreamBad, session_at, args_of, BundleBad, ClosesBad, IsWholeSession, SaysBad, TakenLine, TakenAs, row_seen, word_seen};
ghost use Rattle.world_file.specs.Told.{IsSmallDraft, TellsCause, going};

use crate::draft::Draft;
use crate::fault::WorldError;
use crate::reader::{at_line, cut_line, read_bundles};
use crate::session_law::sessions_have_places;
use net_base::{Octets, Sequence};
use session_script::{ExportError, Session, SessionWorld, script_of};
use std::alloc::{AllocError, Global};
use std::marker::Model;
use words::{are_bytes, read_hex_word, single, split_first};
use world_text::LineCause;
use world_words::LineFault;

/// The world with sessions that a text says, or its first bad line. It goes once through the bytes.
pub fn read_sessions(alloc: Global, bytes: &[u8]) -> Result<SessionWorld, WorldError>
    ensures ok { IfOk result (λ w. SaysSessions bytes.now (Ok w)) }
    ensures bad { IfErr result (λ e. SaysBad bytes.now e) }
    ensures world { IfOk result (λ w. IsWorld w.world) }
    ensures streams { IfOk result (λ w. HaveStreams w) }
    ensures hosts { IfOk result (λ w. HaveHosts w) }
{
    sessions_have_places();
    are_bytes(bytes);
    read_session_lines(alloc, bytes)
}

#[tactic(auto, using(crate::proofs::SessionTaken::so_first, crate::proofs::SessionTaken::so_next, crate::proofs::SessionTaken::so_bad, crate::proofs::SessionTaken::so_ok, crate::proofs::SessionTaken::so_unread, crate::proofs::SessionTaken::end_unclosed, crate::proofs::SessionTaken::end_missing))]
fn read_session_lines(alloc: Global, bytes: &[u8]) -> Result<SessionWorld, WorldError>
    ensures ok { IfOk result (λ w. SaysSessions bytes.now (Ok w)) }
    ensures bad { IfErr result (λ e. SaysBad bytes.now e) }
{
    let mut told = Told::new(alloc);
    let mut number: u64 = 1;
    let mut rest = bytes;
    while !rest.is_empty() {
        let (line, behind) = cut_line(rest);
        match told.take_line(alloc, line, number) {
            Ok(false) => {}
            Ok(true) => return told.finish(alloc, number, behind),
            Err(error) => return Err(error),
        }
        number += 1;
        rest = behind;
    }
    if let Err(error) = told.close(alloc) {
        return Err(error);
    }
    Err(bad(number, told.draft.missing()))
}

/// What the lines so far say.
#[derive(Drop)]
struct Told {
    draft: Draft,
    sessions: Vec<Session>,
    // the number of the `session` line under which the next lines stand
    under: Option<u64>,
}

/// Which line it is.
#[derive(Clone, Copy)]
enum Row<'a> {
    Passes,
    Feeds(Option<&'a [u8]>),
    OpensSession,
    Other,
}

impl Model for Told {
    ghost use Rattle.world_file.specs.SessionText.{ToldLines as AnyTold};

    ghost Value = { AnyTold };

    ghost view = { λ t. record { draft = t.draft; sessions = t.sessions.items; under = t.under } };
}

impl Told {
    fn new(alloc: Global) -> Told
        ensures { result ≡ spec.opening_told }
    {
        Told {
            draft: Draft::new(alloc),
            sessions: Vec::new(alloc),
            under: None,
        }
    }

    // Takes a line: whether it begins the bundle.
    #[tactic(auto, using(crate::proofs::SessionTaken::taken_by, crate::proofs::SessionTaken::taken_passed))]
    fn take_line(&mut self, alloc: Global, line: &[u8], number: u64) -> Result<bool, WorldError>
        requires small { IsSmallDraft self.old.draft }
        requires few { length self.old.draft.scripts ≤ 32 }
        ensures { TakenLine self.old self.new number line.now result }
    {
        match self.row_of(line) {
            Row::Passes => Ok(false),
            Row::Feeds(word) => self.take_word(alloc, word, number),
            Row::OpensSession => self.take_session(alloc, line, number),
            Row::Other => self.take_other(alloc, line, number),
        }
    }

    // The first line names the timers, whatever its words.
    #[tactic(auto, using(crate::proofs::SessionRows::row_of_words))]
    fn row_of<'a>(&self, line: &'a [u8]) -> Row<'a>
        ensures { row_seen result ≡ spec.session_row self.now.draft line.now }
    {
        if line.is_empty() || line[0] == b'#' {
            return Row::Passes;
        }
        if self.draft.group == 0 {
            return Row::Other;
        }
        let (word, rest) = split_first(line, b' ');
        row_by(word, rest)
    }

    // A line `feed` with this word, or with a wrong argument.
    fn take_word(
        &mut self,
        alloc: Global,
        word: Option<&[u8]>,
        number: u64,
    ) -> Result<bool, WorldError>
        ensures { (line : List ℕ) → TakenAs (spec.Feeds (word_seen word.entry)) self.old self.new number line result }
    {
        let bytes = bytes_of(alloc, word)?;
        self.take_feed(bytes, number)
    }

    // `feed HEX` adds its bytes to the session under which it stands.
    #[tactic(auto, using(crate::proofs::SessionTaken::taken_wrong, crate::proofs::SessionTaken::taken_stray, crate::proofs::SessionTaken::taken_fed))]
    fn take_feed(&mut self, bytes: Option<Octets>, number: u64) -> Result<bool, WorldError>
        ensures { (line : List ℕ) → TakenAs (spec.Feeds bytes) self.old self.new number line result }
    {
        let Some(bytes) = bytes else {
            return Err(bad(number, LineCause::WrongArgument));
        };
        if self.under.is_none() {
            return Err(bad(number, LineCause::OutOfOrder));
        }
        self.extend(bytes.as_slice())?;
        Ok(false)
    }

    // Adds bytes to the last session.
    fn extend(&mut self, bytes: &[u8]) -> Result<(), AllocError>
        ensures { OnOk result (self.new ≡ spec.extended bytes.now self.old) }
    {
        extend_last(&mut self.sessions, bytes)
    }

    // `session HOST` is judged as `script HOST` is, and is a script without steps in its place.
    #[tactic(auto, using(crate::proofs::SessionTaken::session_taken, crate::proofs::SessionTaken::session_begins, crate::proofs::SessionTaken::session_bad, crate::proofs::SessionTaken::session_unclosed))]
    fn take_session(&mut self, alloc: Global, line: &[u8], number: u64) -> Result<bool, WorldError>
        requires small { IsSmallDraft self.old.draft }
        requires few { length self.old.draft.scripts ≤ 32 }
        ensures { TakenAs spec.OpensSession self.old self.new number line.now result }
    {
        if let Err(error) = self.close(alloc) {
            return Err(error);
        }
        let place = self.draft.script_count();
        match self.take_script(alloc, line) {
            Ok(false) => {}
            Ok(true) => return Ok(true),
            Err(fault) => return Err(at_line(fault, number)),
        }
        self.open(alloc, place, number)?;
        Ok(false)
    }

    // A line `session`, as a line `script`.
    fn take_script(&mut self, alloc: Global, line: &[u8]) -> Result<bool, LineFault>
        requires { IsSmallDraft self.old.draft }
        ensures ok { IfOk result (λ begins. line_verdict self.old.draft (spec.as_script line.now)
            ≡ going begins self.new.draft) }
        ensures bad { IfErr result (λ fault. TellsCause fault (line_verdict self.old.draft (spec.as_script line.now))) }
        ensures same { self.new ≡ record self.old { draft = self.new.draft } }
    {
        let script = as_script(alloc, line)?;
        self.draft.take_text(alloc, script.as_slice())
    }

    // Opens the session of the script in this place.
    fn open(&mut self, alloc: Global, place: u32, number: u64) -> Result<(), AllocError>
        ensures { OnOk result (self.new ≡ record {
          draft = self.old.draft;
          sessions = self.old.sessions ++ session_at place self.old.draft ∷ [];
          under = Some number;
        }) }
    {
        let session = Session {
            place,
            host: self.draft.last_host(),
            stream: Octets::new(alloc),
        };
        add(&mut self.sessions, session)?;
        self.under = Some(number);
        Ok(())
    }

    // A line of a world; a step doesn't stand under a session.
    #[tactic(auto, using(crate::proofs::SessionTaken::other_taken, crate::proofs::SessionTaken::other_bad, crate::proofs::SessionTaken::other_unclosed))]
    fn take_other(&mut self, alloc: Global, line: &[u8], number: u64) -> Result<bool, WorldError>
        requires { IsSmallDraft self.old.draft }
        ensures { TakenAs spec.Other self.old self.new number line.now result }
    {
        if let Err(error) = self.close(alloc) {
            return Err(error);
        }
        match self.take_under(alloc, line) {
            Ok(begins) => Ok(begins),
            Err(fault) => Err(at_line(fault, number)),
        }
    }

    // The line by itself, behind which no session goes on.
    fn take_under(&mut self, alloc: Global, line: &[u8]) -> Result<bool, LineFault>
        requires { IsSmallDraft self.old.draft }
        ensures ok { IfOk result (λ begins. spec.other_verdict self.old.under self.old.draft line.now
            ≡ going begins self.new.draft) }
        ensures bad { IfErr result (λ fault. TellsCause fault
            (spec.other_verdict self.old.under self.old.draft line.now)) }
        ensures same { self.new ≡ record { draft = self.new.draft; sessions = self.old.sessions; under = None } }
    {
        let session = self.under.take();
        self.draft.take_under(alloc, session, line)
    }

    // The lines of a session end: its bytes are whole messages, or its line is bad.
    fn close(&self, alloc: Global) -> Result<(), WorldError>
        ensures ok { OnOk result (IsWholeSession self.now.sessions self.now.under) }
        ensures bad { IfErr result (ClosesBad self.now) }
    {
        match self.under {
            Some(line) => judge_stream(alloc, self.last_stream(), line),
            None => Ok(()),
        }
    }

    // The bytes of the last session.
    fn last_stream(&self) -> &[u8]
        ensures { result.now ≡ spec.last_stream self.now.sessions }
    {
        match last_session(self.sessions.as_slice()) {
            Some(session) => session.stream.as_slice(),
            None => &[],
        }
    }

    // The world of the lines so far, with the databases that stand behind the line with this number.
    #[tactic(auto, using(crate::proofs::SessionTaken::bundle_bad))]
    fn finish(self, alloc: Global, number: u64, text: &[u8]) -> Result<SessionWorld, WorldError>
        requires { number + length text.now < 2 ^ 63 }
        ensures ok { IfOk result (λ w. spec.with_sessions self.sessions
            (with_versions number (lines.world_of self.draft) text.now (bad_version_line text.now)) ≡ Ok w) }
        ensures bad { IfErr result (BundleBad self number text.now) }
    {
        let Told {
            draft,
            sessions,
            ..
        } = self;
        match read_bundles(alloc, draft, number, text) {
            Ok(world) => Ok(SessionWorld {
                world,
                sessions: Sequence::from_vec(sessions),
            }),
            Err(error) => Err(error),
        }
    }
}

/// The bytes of a session aren't whole messages.
const BAD_STREAM: u32 = 51;

fn bad(line: u64, cause: LineCause) -> WorldError
    ensures { result ≡ told.Bad line (cause_number_of cause) }
{
    WorldError::Bad {
        line,
        cause: cause.number(),
    }
}

// The last session.
#[tactic(auto, using(crate::proofs::Placed::last_is, crate::proofs::Placed::none_last))]
fn last_session(sessions: &[Session]) -> Option<&Session>
    ensures { MatchOption result (last_or None sessions.now ≡ None)
        (λ session. last_or None sessions.now ≡ Some session.now) }
{
    let count = sessions.len();
    if 0 < count {
        Some(&sessions[count - 1])
    } else {
        None
    }
}

// Whether the bytes of the session at this line are whole messages.
fn judge_stream(alloc: Global, bytes: &[u8], line: u64) -> Result<(), WorldError>
    ensures ok { OnOk result (IsStreamOf bytes.now) }
    ensures bad { IfErr result (StreamBad line bytes.now) }
{
    match script_of(alloc, bytes) {
        Ok(_) => Ok(()),
        Err(error) => Err(at_session(error, line)),
    }
}

// The fault of the session at this line.
fn at_session(error: ExportError, line: u64) -> WorldError
    ensures memory { error ≡ fault.Memory → result ≡ told.Memory }
    ensures bad { error ≡ fault.BadStream → result ≡ told.Bad line spec.bad_stream }
{
    match error {
        ExportError::Memory => WorldError::Memory,
        ExportError::BadStream => WorldError::Bad {
            line,
            cause: BAD_STREAM,
        },
    }
}

fn add(sessions: &mut Vec<Session>, session: Session) -> Result<(), AllocError>
    ensures { OnOk result (sessions.new.items ≡ sessions.old.items ++ session ∷ []) }
{
    sessions.push(session)?;
    Ok(())
}

// Which line it is by its first word, and by what stands behind that.
fn row_by<'a>(word: &'a [u8], rest: Option<&'a [u8]>) -> Row<'a>
    ensures { row_seen result ≡ spec.row_by (word.now ∷ args_of rest.entry) }
{
    if word == b"feed".as_slice() {
        return Row::Feeds(only_word(rest));
    }
    if word == b"session".as_slice() {
        return Row::OpensSession;
    }
    Row::Other
}

// Adds bytes to the last session, if there is one.
#[tactic(auto, using(crate::proofs::Placed::last_set, crate::proofs::Placed::no_last))]
fn extend_last(sessions: &mut Vec<Session>, bytes: &[u8]) -> Result<(), AllocError>
    ensures { OnOk result (sessions.new.items ≡ at_last (spec.with_bytes bytes.now) sessions.old.items) }
{
    let count = sessions.len();
    if 0 < count {
        sessions[count - 1].stream.append(bytes)?;
    }
    Ok(())
}

// The only word behind the first.
#[tactic(auto, using(crate::proofs::SessionRows::none_seen, crate::proofs::SessionRows::single_seen))]
fn only_word(rest: Option<&[u8]>) -> Option<&[u8]>
    ensures { word_seen result ≡ option_and_then hex_text (single_word (args_of rest.entry)) }
{
    single(rest?, b' ')
}

// The bytes that a word tells, if there is one and it tells some.
fn bytes_of(alloc: Global, word: Option<&[u8]>) -> Result<Option<Octets>, AllocError>
    ensures { IfOk result (λ bytes. bytes ≡ word_seen word.entry) }
{
    match word {
        Some(word) => read_hex_word(alloc, word),
        None => Ok(None),
    }
}

// A line whose first word is `session`, with `script` in its place.
fn as_script(alloc: Global, line: &[u8]) -> Result<Octets, AllocError>
    ensures { IfOk result (λ text. text ≡ spec.as_script line.now) }
{
    let mut text = Octets::from_slice(alloc, b"script")?;
    if 7 <= line.len() {
        text.append(&line[7..])?;
    }
    Ok(text)
}
