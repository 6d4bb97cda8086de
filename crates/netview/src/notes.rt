//! Notes on a bundle.
ghost use Rattle.std.specs.Prelude.{◌≤◌, IfOk, length};
ghost use Rattle.netview.specs.Views.{IsAnswer, input_limit};
ghost use Rattle.netview.specs.Words.{Lint};

use bundle_lint::{LintError, lint};
use net_model::Answer;
use std::alloc::{AllocError, Global};

/// The notes on a bundle, or its first bad line.
pub fn notes_over(alloc: Global, input: &[u8]) -> Result<Answer, AllocError>
    requires { length input.now ≤ input_limit Lint }
    ensures { IfOk result (λ answer. IsAnswer Lint input.now answer) }
{
    match lint(alloc, input) {
        Ok(notes) => Ok(Answer::whole(notes)),
        Err(LintError::Bad { line, cause }) => Answer::bad_input(alloc, line, cause),
        Err(LintError::Memory) => Err(AllocError),
    }
}
