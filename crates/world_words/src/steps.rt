//! The steps of scripts, by their words.
ghost use Rattle.std.specs.Prelude.{◌≡◌, Some, IfOk, IfErr};
ghost use Rattle.world_text.specs.LineReading as spec;
ghost use Rattle.net_base.specs.StepWords.{call_samples, datagram_samples, import_samples, sample_steps};
ghost use Rattle.world_words.specs.Told.{IsRefused};

use crate::arguments::Arguments;
use crate::fault::LineFault;
use net_base::Step;
use std::alloc::Global;
use world_text::LineCause;

/// The step of a word and its arguments.
#[tactic(auto, using(crate::proofs::Refusals::refused_whole, crate::proofs::Refusals::refused_left))]
pub(crate) fn read_step(alloc: Global, word: &[u8], args: &Arguments<'_>) -> Result<Step, LineFault>
    ensures ok { IfOk result (λ step. spec.step_in_line word.now args.now ≡ Some (Some step)) }
    ensures refused { IfErr result (λ e. IsRefused e (spec.step_in_line word.now args.now)) }
{
    let mut args = args.words();
    let step = file_step(alloc, word, &mut args)?;
    args.end()?;
    Ok(step)
}

/// The step of a word that is about files, or of another word.
#[tactic(auto, using(crate::proofs::Refusals::refused_first, crate::proofs::Refusals::refused_later))]
fn file_step(alloc: Global, word: &[u8], args: &mut Arguments<'_>) -> Result<Step, LineFault>
    ensures ok { IfOk result (λ step. spec.step_begun sample_steps word.now args.old ≡ Some (Some (step, args.new))) }
    ensures refused { IfErr result (λ e. IsRefused e (spec.step_begun sample_steps word.now args.old)) }
{
    if word == b"open".as_slice() {
        Ok(Step::Open {
            name: args.name(alloc)?,
            path: args.word(alloc)?,
            mode: args.perhaps_mode()?,
        })
    } else if word == b"read".as_slice() {
        Ok(Step::Read {
            name: args.name(alloc)?,
            count: args.number(1, 65_536)? as u32,
        })
    } else if word == b"write".as_slice() {
        Ok(Step::Write {
            name: args.name(alloc)?,
            text: args.rest(alloc)?,
        })
    } else if word == b"writex".as_slice() {
        Ok(Step::Writex {
            name: args.name(alloc)?,
            text: args.bytes(alloc)?,
        })
    } else if word == b"close".as_slice() {
        Ok(Step::Close {
            name: args.name(alloc)?,
        })
    } else if word == b"ls".as_slice() {
        Ok(Step::Ls {
            path: args.word(alloc)?,
        })
    } else if word == b"cs".as_slice() {
        Ok(Step::Cs {
            query: args.rest(alloc)?,
        })
    } else {
        call_step(alloc, word, args)
    }
}

/// The step of time or calls, or of another word.
#[tactic(auto, using(crate::proofs::Refusals::refused_first, crate::proofs::Refusals::refused_later))]
fn call_step(alloc: Global, word: &[u8], args: &mut Arguments<'_>) -> Result<Step, LineFault>
    ensures ok { IfOk result (λ step. spec.step_begun call_samples word.now args.old ≡ Some (Some (step, args.new))) }
    ensures refused { IfErr result (λ e. IsRefused e (spec.step_begun call_samples word.now args.old)) }
{
    if word == b"until".as_slice() {
        Ok(Step::Until {
            moment: args.number(1, 1_000_000_000)?,
        })
    } else if word == b"refresh".as_slice() {
        Ok(Step::Refresh)
    } else if word == b"dial".as_slice() {
        Ok(Step::Dial {
            name: args.name(alloc)?,
            address: args.word(alloc)?,
        })
    } else if word == b"announce".as_slice() {
        Ok(Step::Announce {
            name: args.name(alloc)?,
            address: args.word(alloc)?,
        })
    } else if word == b"listen".as_slice() {
        Ok(Step::Listen {
            name: args.name(alloc)?,
            from: args.name(alloc)?,
        })
    } else if word == b"accept".as_slice() {
        Ok(Step::Accept {
            name: args.name(alloc)?,
            from: args.name(alloc)?,
        })
    } else if word == b"reject".as_slice() {
        Ok(Step::Reject {
            name: args.name(alloc)?,
        })
    } else if word == b"hangup".as_slice() {
        Ok(Step::Hangup {
            name: args.name(alloc)?,
        })
    } else {
        datagram_step(alloc, word, args)
    }
}

/// The step of calls of datagrams, or of another word.
#[tactic(auto, using(crate::proofs::Refusals::refused_first, crate::proofs::Refusals::refused_later))]
fn datagram_step(alloc: Global, word: &[u8], args: &mut Arguments<'_>) -> Result<Step, LineFault>
    ensures ok { IfOk result (λ step. spec.step_begun datagram_samples word.now args.old
        ≡ Some (Some (step, args.new))) }
    ensures refused { IfErr result (λ e. IsRefused e (spec.step_begun datagram_samples word.now args.old)) }
{
    if word == b"hread".as_slice() {
        Ok(Step::Hread {
            name: args.name(alloc)?,
            count: args.number(1, 65_536)? as u32,
        })
    } else if word == b"hwrite".as_slice() {
        Ok(Step::Hwrite {
            name: args.name(alloc)?,
            bytes: args.datagram(alloc)?,
        })
    } else if word == b"dns".as_slice() {
        Ok(Step::Dns {
            name: args.name(alloc)?,
            times: args.number(1, 1000)? as u32,
        })
    } else {
        import_step(alloc, word, args)
    }
}

/// The step of exports and imports.
#[tactic(auto, using(crate::proofs::Refusals::refused_first, crate::proofs::Refusals::refused_later))]
fn import_step(alloc: Global, word: &[u8], args: &mut Arguments<'_>) -> Result<Step, LineFault>
    ensures ok { IfOk result (λ step. spec.step_begun import_samples word.now args.old ≡ Some (Some (step, args.new))) }
    ensures refused { IfErr result (λ e. IsRefused e (spec.step_begun import_samples word.now args.old)) }
{
    if word == b"export".as_slice() {
        Ok(Step::Export {
            name: args.name(alloc)?,
        })
    } else if word == b"import".as_slice() {
        Ok(Step::Import {
            name: args.name(alloc)?,
        })
    } else if word == b"ropen".as_slice() {
        Ok(Step::Ropen {
            name: args.name(alloc)?,
            call: args.name(alloc)?,
            path: args.remote_path(alloc)?,
            mode: args.mode()?,
        })
    } else if word == b"rread".as_slice() {
        Ok(Step::Rread {
            name: args.name(alloc)?,
            count: args.number(1, 488)? as u32,
        })
    } else if word == b"rwrite".as_slice() {
        Ok(Step::Rwrite {
            name: args.name(alloc)?,
            text: args.rest_of(alloc, 1, 488)?,
        })
    } else if word == b"rclose".as_slice() {
        Ok(Step::Rclose {
            name: args.name(alloc)?,
        })
    } else {
        Err(LineFault::Cause(LineCause::UnknownWord))
    }
}
