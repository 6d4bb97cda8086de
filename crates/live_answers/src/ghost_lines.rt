//! The lines that a voice has said, as what only clauses see. At run time they are nothing.
ghost use Rattle.std.specs.Prelude.{◌≡◌, ◌++◌, ◌∷◌, [], List, OnOk};
ghost use Rattle.std.specs.Borrow.{ftrue};
ghost use Rattle.live_answers.specs.Lines.{Line, line_text};

use net_base::Octets;
use std::alloc::AllocError;
use std::marker::{Model, PhantomData};

/// A list of lines that has no bytes: clauses alone know it.
#[derive(Drop)]
pub struct GhostLines {
    marker: PhantomData<()>,
    pub ghost list: { List Line },
}

impl Model for GhostLines {
    ghost also_owns = { λ _. ftrue };
}

/// A line of standard output.
pub trait OutputLine {
    // the line of the definitions
    ghost line: { Self → Line };

    /// Writes the line, with its newline.
    fn put(&self, out: &mut Octets) -> Result<(), AllocError>
        ensures { OnOk result (out.new ≡ out.old ++ line_text (line self.now)) };
}

impl GhostLines {
    /// Returns no lines.
    pub fn fresh() -> GhostLines
        ensures { result.list ≡ [] }
    {
        GhostLines {
            marker: PhantomData,
        }
    }

    /// Returns the lines with one more.
    pub fn with<L: OutputLine>(&self, line: &L) -> GhostLines
        ensures { result.list ≡ self.now.list ++ L.line line.now ∷ [] }
    {
        let _ = line;
        GhostLines {
            marker: PhantomData,
        }
    }
}
