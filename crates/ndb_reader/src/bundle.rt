//! The files of a bundle, of which some are chosen.
ghost use Rattle.std.specs.Prelude.{◌≡◌, ◌≤◌, ◌<◌, ◌++◌, [], length, take, get_or, slice_range, OnOk};
ghost use Rattle.net_base.specs.NdbBundle.{File};
ghost use Rattle.net_base.specs.Store.{with_tuples};
ghost use Rattle.ndb_reader.specs.Filed.{files_of, tuples_of, file_begins_at, tuple_at, AreBundled};

use crate::copy::add_tuples;
use crate::files::FileEnd;
use net_base::{Db, Growing};
use std::alloc::AllocError;

/// All files: their tuples in a row, their names in a row, and where each file ends.
#[derive(Drop)]
pub(crate) struct Bundle {
    pub(crate) db: Db,
    pub(crate) names: Vec<u8>,
    pub(crate) ends: Vec<FileEnd>,
}

impl Bundle {
    /// How many files there are.
    pub(crate) fn len(&self) -> usize
        ensures { result ≡ length (files_of self.now) }
    {
        file_count(&self.ends)
    }

    /// The name of the file with this number.
    pub(crate) fn name(&self, number: usize) -> &[u8]
        requires sound { AreBundled self.now }
        requires within { number < length self.now.ends.items }
        ensures { (d : File) → result.now ≡ (get_or (files_of self.now) number d).name }
    {
        let first = name_begin(&self.ends, number);
        part(&self.names, first, self.ends[number].name as usize)
    }

    /// Adds the tuples of the file with this number.
    pub(crate) fn add(&self, number: usize, out: &mut Growing) -> Result<(), AllocError>
        requires sound { AreBundled self.now }
        requires within { number < length self.now.ends.items }
        requires lines { out.old.lines ≡ [] }
        requires pairs { out.old.pairs ≡ [] }
        ensures { OnOk result ((d : File) → out.new ≡ with_tuples (get_or (files_of self.now) number d).tuples
            out.old) }
    {
        let first = tuple_begin(&self.ends, number);
        add_tuples(&self.db, first, self.ends[number].tuple as usize, out)?;
        Ok(())
    }

    /// The tuples of the files from a number to another. It copies nothing and takes no memory.
    pub(crate) fn into_row(self, first: usize, end: usize) -> Db
        requires sound { AreBundled self }
        requires rise { first ≤ end }
        requires within { end ≤ length (files_of self) }
        ensures { tuples_of (take first (files_of self)) ++ result ≡ tuples_of (take end (files_of self)) }
    {
        let from = tuple_begin(&self.ends, first);
        let to = tuple_begin(&self.ends, end);
        let Bundle { db, .. } = self;
        let mut db = db;
        db.keep(from, to);
        db
    }
}

/// How many files have ended.
fn file_count(ends: &[FileEnd]) -> usize
    ensures { result ≡ length ends.now }
{
    ends.len()
}

/// The bytes from a place to another.
fn part(bytes: &[u8], first: usize, end: usize) -> &[u8]
    requires rise { first ≤ end }
    requires within { end ≤ length bytes.now }
    ensures { result.now ≡ slice_range bytes.now first end }
{
    &bytes[first..end]
}

/// Where the name of the file with this number begins.
fn name_begin(ends: &[FileEnd], number: usize) -> usize
    requires { number ≤ length ends.now }
    ensures { result ≡ file_begins_at 0 ends.now number }
{
    if number == 0 {
        return 0;
    }
    ends[number - 1].name as usize
}

/// Where the tuples of the file with this number begin.
fn tuple_begin(ends: &[FileEnd], number: usize) -> usize
    requires { number ≤ length ends.now }
    ensures { result ≡ tuple_at 0 ends.now number }
{
    if number == 0 {
        return 0;
    }
    ends[number - 1].tuple as usize
}
