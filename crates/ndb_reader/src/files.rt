//! The files of a bundle, one behind the other in one database that grows.
ghost use Rattle.std.specs.Prelude.{◌≡◌, ◌<◌, length, ℕ, true, not, ◌∷◌, ◌++◌, [], IfOk, OnOk, IfErr, None};
ghost use Rattle.std.specs.List.{list_any};
ghost use Rattle.std.specs.Option.{option_map};
ghost use Rattle.net_base.specs.NdbText as text;
ghost use Rattle.net_base.specs.NdbBundle as bundle;
ghost use Rattle.ndb_reader.specs.Told.{Tells};
ghost use Rattle.ndb_reader.specs.Filed as spec;
ghost use Rattle.ndb_reader.specs.Filed.{AreFiled};

use crate::bundle::Bundle;
use crate::fault::NdbError;
use crate::line::read_line;
use net_base::Growing;
use std::alloc::{AllocError, Global};

/// Where a file's name ends among the names, and where its tuples end among the tuples.
#[derive(Clone, Copy, Debug, Drop)]
pub(crate) struct FileEnd {
    pub(crate) name: u32,
    pub(crate) tuple: u32,
}

/// The files so far, the last of which grows: all their names in a row, all their tuples, and where each file but the last ends.
///
/// A file costs eight bytes beside its name, so that a text of `%file` lines alone keeps the bound on memory.
#[derive(Drop)]
pub(crate) struct Files {
    pub(crate) growing: Growing,
    pub(crate) names: Vec<u8>,
    pub(crate) ends: Vec<FileEnd>,
}

/// A place as it is kept; a run that is longer has no room.
fn place_of(count: usize) -> Result<u32, AllocError>
    ensures { IfOk result (λ place. place ≡ count) }
{
    if count > 0xffff_ffff {
        return Err(AllocError);
    }
    Ok(count as u32)
}

impl Files {
    /// The file before the first `%file NAME` line, without tuples.
    pub(crate) fn new(alloc: Global) -> Result<Files, AllocError>
        ensures sound { IfOk result (λ files. AreFiled files) }
        ensures closed { IfOk result (λ files. (spec.filed files).closed ≡ []) }
        ensures name { IfOk result (λ files. (spec.filed files).name ≡ bundle.unnamed_file) }
        ensures whole { IfOk result (λ files. (spec.filed files).whole ≡ []) }
        ensures last { IfOk result (λ files. (spec.filed files).last ≡ []) }
        ensures pairs { IfOk result (λ files. (spec.filed files).pairs ≡ []) }
    {
        Ok(Files {
            growing: Growing::new(alloc),
            names: Vec::from_slice(alloc, b"/lib/ndb/local")?,
            ends: Vec::new(alloc),
        })
    }

    /// Whether the file that grows has no tuple.
    pub(crate) fn is_empty(&self) -> bool
        ensures { result ≡ text.is_empty (spec.filed self.now).last }
    {
        self.growing.line_count() == 0
    }

    /// Reads the line with this number onto the line that is open, of a text that has zero bytes or has none; tells whether it has words.
    pub(crate) fn read(&mut self, line: &[u8], number: u64, zeros: bool) -> Result<bool, NdbError>
        requires sound { AreFiled self.old }
        requires zeros { list_any text.is_zero line.now ≡ true → zeros ≡ true }
        ensures sound { OnOk result (AreFiled self.new) }
        ensures good { OnOk result (bundle.least_of_causes
            (bundle.causes_of (not (text.is_empty (spec.filed self.old).last)) line.now) ≡ None) }
        ensures pairs { OnOk result (spec.filed self.new ≡ spec.line_filed (text.pairs_of line.now)
            (spec.filed self.old)) }
        ensures some { IfOk result (λ some. some ≡ not (text.is_empty (text.words_of line.now))) }
        ensures bad { IfErr result (λ e. Tells e (option_map (λ (c : ℕ). (number, c))
            (bundle.least_of_causes (bundle.causes_of (not (text.is_empty (spec.filed self.old).last)) line.now)))) }
    {
        let has_tuple = !self.is_empty();
        read_line(&mut self.growing, line, number, has_tuple, zeros)
    }

    /// Starts a tuple with the line that is open.
    pub(crate) fn start(&mut self) -> Result<(), AllocError>
        requires { AreFiled self.old }
        ensures sound { OnOk result (AreFiled self.new) }
        ensures ok { OnOk result (spec.filed self.new ≡ spec.with_started (spec.filed self.old)) }
    {
        self.end_tuple()?;
        self.go_on()
    }

    /// Goes on with the last tuple by the line that is open.
    pub(crate) fn go_on(&mut self) -> Result<(), AllocError>
        requires { AreFiled self.old }
        ensures sound { OnOk result (AreFiled self.new) }
        ensures ok { OnOk result (spec.filed self.new ≡ spec.gone_on (spec.filed self.old)) }
    {
        self.growing.end_line()
    }

    /// Ends the last tuple, if there is one.
    fn end_tuple(&mut self) -> Result<(), AllocError>
        requires { AreFiled self.old }
        ensures sound { OnOk result (AreFiled self.new) }
        ensures ok { OnOk result (spec.filed self.new ≡ spec.last_ended (spec.filed self.old)) }
    {
        if self.growing.line_count() == 0 {
            return Ok(());
        }
        self.growing.end_tuple()?;
        Ok(())
    }

    /// Begins a file.
    pub(crate) fn begin(&mut self, name: &[u8]) -> Result<(), AllocError>
        requires { AreFiled self.old }
        ensures sound { OnOk result (AreFiled self.new) }
        ensures ok { OnOk result (spec.filed self.new ≡ spec.file_begun name.now (spec.filed self.old)) }
    {
        self.end_tuple()?;
        self.end_file()?;
        self.names.extend_from_slice(name)?;
        Ok(())
    }

    /// Ends the file that grows, whose last tuple has ended.
    fn end_file(&mut self) -> Result<(), AllocError>
        requires sound { AreFiled self.old }
        requires last { (spec.filed self.old).last ≡ [] }
        ensures sound { OnOk result (AreFiled self.new) }
        ensures some { OnOk result (0 < length self.new.ends.items) }
        ensures ok { OnOk result (spec.filed self.new ≡ spec.file_begun [] (spec.filed self.old)) }
    {
        let name = place_of(self.names.len())?;
        let tuple = place_of(self.growing.tuple_count())?;
        self.ends.push(FileEnd { name, tuple })?;
        Ok(())
    }

    /// All files, the first of which stands before the first `%file NAME` line.
    pub(crate) fn finish(self) -> Result<Bundle, AllocError>
        requires sound { AreFiled self }
        requires pairs { (spec.filed self).pairs ≡ [] }
        ensures sound { IfOk result (λ bundle. spec.AreBundled bundle) }
        ensures some { IfOk result (λ bundle. 0 < length bundle.ends.items) }
        ensures files { IfOk result (λ bundle. spec.files_of bundle ≡ (spec.filed self).closed ++ spec.file_grown
            (spec.filed self) ∷ []) }
    {
        let mut files = self;
        files.end_tuple()?;
        files.end_file()?;
        Ok(files.into_bundle())
    }

    /// The files that have ended.
    fn into_bundle(self) -> Bundle
        requires sound { AreFiled self }
        requires last { (spec.filed self).last ≡ [] }
        requires pairs { (spec.filed self).pairs ≡ [] }
        ensures sound { spec.AreBundled result }
        ensures ends { result.ends ≡ self.ends }
        ensures files { spec.files_of result ≡ (spec.filed self).closed }
    {
        let Files {
            growing,
            names,
            ends,
        } = self;
        Bundle {
            db: growing.finish(),
            names,
            ends,
        }
    }
}
