//! The steps of both scripts.
ghost use Rattle.std.specs.Prelude.{◌≡◌, ◌++◌, flat_map, codes, IfOk, OnOk};
ghost use Rattle.std.specs.List.{range_with_len};
ghost use Rattle.net_base.specs.declared.world.Step.TheVariants as step;
ghost use Rattle.world_writer.specs.Made as spec;

use net_base::{Octets, Step, StepList};
use std::alloc::{AllocError, Global};
use words::put_decimal;

/// The most bytes that a read of a message asks for.
const READ_COUNT: u32 = 8192;

/// A read.
fn read(alloc: Global, name: &[u8]) -> Result<Step, AllocError>
    ensures { IfOk result (λ s. s ≡ step.Read name.now 8192) }
{
    Ok(Step::Read {
        name: Octets::from_slice(alloc, name)?,
        count: READ_COUNT,
    })
}

/// A write of the k-th message.
fn write(alloc: Global, name: &[u8], k: u32) -> Result<Step, AllocError>
    ensures { IfOk result (λ s. s ≡ step.Write name.now (spec.made_message k)) }
{
    let mut text = Octets::new(alloc);
    put_decimal(&mut text, u64::from(k))?;
    Ok(Step::Write {
        name: Octets::from_slice(alloc, name)?,
        text,
    })
}

/// A close.
fn close(alloc: Global, name: &[u8]) -> Result<Step, AllocError>
    ensures { IfOk result (λ s. s ≡ step.Close name.now) }
{
    Ok(Step::Close {
        name: Octets::from_slice(alloc, name)?,
    })
}

/// Adds what anna does for the k-th message.
fn ask(alloc: Global, steps: &mut StepList, k: u32) -> Result<(), AllocError>
    ensures { OnOk result (steps.new ≡ steps.old ++ spec.message_steps k) }
{
    steps.push(write(alloc, b"d", k)?)?;
    steps.push(read(alloc, b"d")?)
}

/// Adds what helix does for the k-th message.
fn answer(alloc: Global, steps: &mut StepList, k: u32) -> Result<(), AllocError>
    ensures { OnOk result (steps.new ≡ steps.old ++ spec.answering k) }
{
    steps.push(read(alloc, b"e")?)?;
    steps.push(write(alloc, b"e", k)?)
}

/// Adds what anna does for `n` messages.
fn ask_all(alloc: Global, steps: &mut StepList, n: u32) -> Result<(), AllocError>
    ensures { OnOk result (steps.new ≡ steps.old ++ flat_map spec.message_steps (range_with_len 1 n)) }
{
    for before in 0..n {
        ask(alloc, steps, before + 1)?;
    }
    Ok(())
}

/// Adds what helix does for `n` messages.
fn answer_all(alloc: Global, steps: &mut StepList, n: u32) -> Result<(), AllocError>
    ensures { OnOk result (steps.new ≡ steps.old ++ flat_map spec.answering (range_with_len 1 n)) }
{
    for before in 0..n {
        answer(alloc, steps, before + 1)?;
    }
    Ok(())
}

/// Anna's call of helix.
fn dial(alloc: Global) -> Result<Step, AllocError>
    ensures { IfOk result (λ s. s ≡ step.Dial (codes "d") (codes "net!helix!9fs")) }
{
    Ok(Step::Dial {
        name: Octets::from_slice(alloc, b"d")?,
        address: Octets::from_slice(alloc, b"net!helix!9fs")?,
    })
}

/// Anna's steps.
pub fn anna_steps(alloc: Global, n: u32) -> Result<StepList, AllocError>
    ensures { IfOk result (λ steps. steps ≡ spec.anna_steps n) }
{
    let mut steps = StepList::new(alloc);
    steps.push(Step::Until { moment: 10 })?;
    steps.push(dial(alloc)?)?;
    ask_all(alloc, &mut steps, n)?;
    steps.push(close(alloc, b"d")?)?;
    Ok(steps)
}

/// Helix's announcement.
fn announce(alloc: Global) -> Result<Step, AllocError>
    ensures { IfOk result (λ s. s ≡ step.Announce (codes "a") (codes "net!*!9fs")) }
{
    Ok(Step::Announce {
        name: Octets::from_slice(alloc, b"a")?,
        address: Octets::from_slice(alloc, b"net!*!9fs")?,
    })
}

/// Helix's wait for a call.
fn listen(alloc: Global) -> Result<Step, AllocError>
    ensures { IfOk result (λ s. s ≡ step.Listen (codes "c") (codes "a")) }
{
    Ok(Step::Listen {
        name: Octets::from_slice(alloc, b"c")?,
        from: Octets::from_slice(alloc, b"a")?,
    })
}

/// Helix takes the call.
fn accept(alloc: Global) -> Result<Step, AllocError>
    ensures { IfOk result (λ s. s ≡ step.Accept (codes "e") (codes "c")) }
{
    Ok(Step::Accept {
        name: Octets::from_slice(alloc, b"e")?,
        from: Octets::from_slice(alloc, b"c")?,
    })
}

/// Helix's steps.
pub fn helix_steps(alloc: Global, n: u32) -> Result<StepList, AllocError>
    ensures { IfOk result (λ steps. steps ≡ spec.helix_steps n) }
{
    let mut steps = StepList::new(alloc);
    steps.push(announce(alloc)?)?;
    steps.push(listen(alloc)?)?;
    steps.push(accept(alloc)?)?;
    answer_all(alloc, &mut steps, n)?;
    steps.push(read(alloc, b"e")?)?;
    steps.push(close(alloc, b"e")?)?;
    steps.push(close(alloc, b"c")?)?;
    Ok(steps)
}
