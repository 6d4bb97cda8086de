//! The text of a database, line by line.
ghost use Rattle.std.specs.Prelude.{◌≡◌, None, Some, IfOk, OnOk, IfErr};
ghost use Rattle.net_base.specs.NdbBundle.{bad_line, reading};
ghost use Rattle.net_base.specs.NdbText.{lines_of};
ghost use Rattle.formats.specs.NdbSpelling.{ReadsBundle};
ghost use Rattle.ndb_reader.specs.Told.{Tells};

use crate::choice::choose;
use crate::fault::NdbError;
use crate::files::Files;
use crate::line::{begun_file, has_zero, is_indented};
use net_base::Db;
use std::alloc::Global;

/// The tuples of a text, or its first bad line: in one pass over its lines, after a look for zero bytes. Each byte is
/// copied at most twice.
pub fn read_ndb(alloc: Global, bytes: &[u8]) -> Result<Db, NdbError>
    ensures ok { IfOk result (λ db. reading bytes.now ≡ Some db) }
    ensures spelled { IfOk result (λ db. ReadsBundle (lines_of bytes.now) db) }
    ensures good { OnOk result (bad_line bytes.now ≡ None) }
    ensures bad { IfErr result (λ e. Tells e (bad_line bytes.now)) }
{
    let mut files = Files::new(alloc)?;
    let zeros = has_zero(bytes);
    let mut number: u64 = 0;
    for line in bytes.split(|byte| *byte == b'\n') {
        number += 1;
        let has_words = files.read(line, number, zeros)?;
        if let Some(name) = begun_file(line) {
            files.begin(name)?;
            continue;
        }
        if !has_words {
            continue;
        }
        if is_indented(line) {
            files.go_on()?;
        } else {
            files.start()?;
        }
    }
    Ok(choose(alloc, files.finish()?)?)
}
