//! The lines of cs by fids.
ghost use Rattle.std.specs.Prelude.{◌≡◌, ◌++◌, ◌∷◌, ℕ, List, [], IfOk, OnErr, OnOk};
ghost use Rattle.net_base.specs.declared.ninep.Tmsg.TheVariants as t;
ghost use Rattle.net_base.specs.SessionAnswers as spec;
ghost use Rattle.net_base.specs.Steps as steps;
ghost use Rattle.net_base.specs.Transcript.{as_lines};
ghost use Rattle.session_answers.specs.Found.{found_lines};
ghost use Rattle.session_script.specs.Seen.{seen_table};

use crate::replied::node_at;
use indexmap::IndexMap;
use net_base::{Lines, Octets, Reply, Tmsg};
use session_script::{Table, is_cs};
use std::alloc::{AllocError, Global};

/// What a read of cs finds by each fid: the lines of its last write. Clauses say of it what text each number has.
#[derive(Drop)]
pub struct Found {
    entries: IndexMap<u32, Octets>,
}

impl Found {
    /// No lines, which take no memory yet.
    pub fn new(alloc: Global) -> Found
        ensures { found_lines result ≡ (λ n. []) }
    {
        Found {
            entries: IndexMap::new(alloc),
        }
    }

    /// The lines of a fid.
    pub fn get(&self, fid: u32) -> &[u8]
        ensures { result.now ≡ found_lines self.now fid }
    {
        match self.entries.get(&fid) {
            Some(lines) => lines.as_slice(),
            None => &[],
        }
    }

    // A fid has these lines.
    fn set(&mut self, fid: u32, lines: Octets) -> Result<(), AllocError>
        ensures ok { OnOk result (found_lines self.new ≡ spec.with_found fid lines (found_lines self.old)) }
        ensures err { OnErr result (found_lines self.new ≡ found_lines self.old) }
    {
        self.entries.insert(fid, lines)?;
        Ok(())
    }

    /// The lines of a fid go with it.
    pub fn hear(&mut self, message: &Tmsg)
        ensures { found_lines self.new ≡ spec.found_after (found_lines self.old) message.now }
    {
        match message {
            Tmsg::Clunk { fid, .. } => self.forget(*fid),
            Tmsg::Remove { fid, .. } => self.forget(*fid),
            _ => {}
        }
    }

    /// A write to cs leaves its lines to be read.
    pub fn keep_written(
        &mut self,
        alloc: Global,
        table: &Table,
        fid: u32,
        reply: &Reply,
    ) -> Result<(), AllocError>
        ensures ok { (tag offset : ℕ) (bytes : List ℕ) → OnOk result (found_lines self.new
            ≡ spec.found_by (seen_table table.now) (found_lines self.old) (t.Write tag fid offset bytes) reply.now) }
        ensures err { OnErr result (found_lines self.new ≡ found_lines self.old) }
    {
        if !is_cs(node_at(table, fid)) {
            return Ok(());
        }
        let lines = lines_in(alloc, reply)?;
        self.set(fid, lines)
    }

    /// A fid has no lines any longer.
    pub fn forget(&mut self, fid: u32)
        ensures { found_lines self.new ≡ spec.with_found fid [] (found_lines self.old) }
    {
        self.entries.swap_remove(&fid);
    }
}

// The lines of a reply, with a newline after each.
fn lines_in(alloc: Global, reply: &Reply) -> Result<Octets, AllocError>
    ensures { IfOk result (λ text. text ≡ as_lines (steps.reply_lines reply.now)) }
{
    match reply {
        Reply::Lines { lines } => text_of(alloc, lines),
        _ => Ok(Octets::new(alloc)),
    }
}

fn text_of(alloc: Global, lines: &Lines) -> Result<Octets, AllocError>
    ensures { IfOk result (λ text. text ≡ as_lines lines.now) }
{
    let mut text = Octets::new(alloc);
    for line in lines.as_slice() {
        put_line(&mut text, line.as_slice())?;
    }
    Ok(text)
}

fn put_line(text: &mut Octets, line: &[u8]) -> Result<(), AllocError>
    ensures { OnOk result (text.new ≡ text.old ++ (line.now ++ 10 ∷ [])) }
{
    text.append(line)?;
    text.append(b"\n")
}
