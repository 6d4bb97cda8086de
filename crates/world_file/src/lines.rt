//! A line of a text, behind those before it.
ghost use Rattle.std.specs.Prelude.{◌≡◌, Ok, IfOk, IfErr};
ghost use Rattle.world_text.specs.LineReading.{read_line};
ghost use Rattle.world_text.specs.WorldLines as spec;
ghost use Rattle.world_file.specs.SessionText.{is_step_read, other_verdict, under_session};
ghost use Rattle.world_file.specs.Told.{IsSmallDraft, TellsCause, going};

use crate::draft::Draft;
use net_base::Timers;
use std::alloc::{AllocError, Global};
use world_text::{LineCause, WorldLine, lines_are_spelled};
use world_words::{LineFault, read_line};

impl Draft {
    /// What a line is, behind those so far: whether it begins the bundle.
    pub(crate) fn take_text(&mut self, alloc: Global, line: &[u8]) -> Result<bool, LineFault>
        requires { IsSmallDraft self.old }
        ensures ok { IfOk result (λ begins. spec.line_verdict self.old line.now ≡ going begins self.new) }
        ensures bad { IfErr result (λ fault. TellsCause fault (spec.line_verdict self.old line.now)) }
    {
        if is_passed(line) {
            return Ok(false);
        }
        if self.group == 0 {
            return self.take_first(line);
        }
        self.take_read(alloc, line)
    }

    /// Takes a line that ends a session, or one where none goes on.
    pub(crate) fn take_under(
        &mut self,
        alloc: Global,
        session: Option<u64>,
        line: &[u8],
    ) -> Result<bool, LineFault>
        requires { IsSmallDraft self.old }
        ensures ok { IfOk result (λ begins. other_verdict session self.old line.now ≡ going begins self.new) }
        ensures bad { IfErr result (λ fault. TellsCause fault (other_verdict session self.old line.now)) }
    {
        match session {
            Some(_) => self.take_under_session(alloc, line),
            None => self.take_text(alloc, line),
        }
    }

    /// A line under a session, where no step stands.
    fn take_under_session(&mut self, alloc: Global, line: &[u8]) -> Result<bool, LineFault>
        requires { IsSmallDraft self.old }
        ensures ok { IfOk result (λ begins. under_session self.old line.now ≡ going begins self.new) }
        ensures bad { IfErr result (λ fault. TellsCause fault (under_session self.old line.now)) }
    {
        if is_step(alloc, line)? {
            return Err(LineFault::Cause(LineCause::OutOfOrder));
        }
        self.take_text(alloc, line)
    }

    /// A line behind the first that isn't passed over.
    fn take_read(&mut self, alloc: Global, text: &[u8]) -> Result<bool, LineFault>
        requires { IsSmallDraft self.old }
        ensures ok { IfOk result (λ begins. spec.judged_line self.old (read_line text.now) ≡ going begins self.new) }
        ensures bad { IfErr result (λ fault. TellsCause fault (spec.judged_line self.old (read_line text.now))) }
    {
        lines_are_spelled();
        let line = read_line(alloc, text)?;
        if let Some(cause) = self.line_cause(&line) {
            return Err(LineFault::Cause(cause));
        }
        let begins = is_ndb(&line);
        self.take_line(alloc, line)?;
        Ok(begins)
    }

    /// `networld 1` or `networld 2`, one of which is the first line.
    fn take_first(&mut self, line: &[u8]) -> Result<bool, LineFault>
        ensures ok { IfOk result (λ begins. spec.first_line self.old line.now ≡ going begins self.new) }
        ensures bad { IfErr result (λ fault. TellsCause fault (spec.first_line self.old line.now)) }
    {
        let timers = if line == b"networld 1".as_slice() {
            Timers::Fixed
        } else if line == b"networld 2".as_slice() {
            Timers::Measured
        } else {
            return Err(LineFault::Cause(LineCause::FirstLine));
        };
        self.group = 1;
        self.timers = timers;
        Ok(false)
    }
}

/// Whether a line begins the bundle.
fn is_ndb(line: &WorldLine) -> bool
    ensures { (d : spec.Draft) → spec.good_line d line.now ≡ going result (spec.after d line.now) }
{
    match line {
        WorldLine::Ndb => true,
        _ => false,
    }
}

/// Empty lines and comments.
fn is_passed(line: &[u8]) -> bool
    ensures { result ≡ spec.passes_over line.now }
{
    line.is_empty() || line[0] == b'#'
}

/// Whether a line is a step.
fn is_step(alloc: Global, line: &[u8]) -> Result<bool, AllocError>
    ensures { IfOk result (λ told. told ≡ is_step_read (read_line line.now)) }
{
    match read_line(alloc, line) {
        Ok(read) => Ok(is_of_script(&read)),
        Err(LineFault::Memory) => Err(AllocError),
        Err(LineFault::Cause(_)) => Ok(false),
    }
}

fn is_of_script(line: &WorldLine) -> bool
    ensures { result ≡ is_step_read (Ok line.now) }
{
    match line {
        WorldLine::OfScript(_) => true,
        _ => false,
    }
}
