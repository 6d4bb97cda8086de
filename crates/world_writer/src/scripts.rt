//! The lines of scripts.
ghost use Rattle.std.specs.Prelude.{◌≡◌, ◌++◌, map, flat_map, OnOk};
ghost use Rattle.world_text.specs.WorldSpelling as spec;
ghost use Rattle.world_text.specs.WorldSpelling.{laid, host_names};

use crate::hosts::host_name;
use crate::line::{put_hex, put_number, put_three, put_two, put_word};
use net_base::{HostSpec, Octets, Script, Step};
use std::alloc::AllocError;
use words::mode_word;

/// Adds the words of a step.
fn put_step(out: &mut Octets, step: &Step) -> Result<(), AllocError>
    ensures { OnOk result (out.new ≡ out.old ++ spec.line_of_step step.now) }
{
    match step {
        Step::Open {
            name,
            path,
            mode: None,
        } => put_three(out, b"open", name.as_slice(), path.as_slice()),
        Step::Open {
            name,
            path,
            mode: Some(mode),
        } => {
            put_three(out, b"open", name.as_slice(), path.as_slice())?;
            put_word(out, mode_word(*mode))
        }
        Step::Read { name, count } => {
            put_two(out, b"read", name.as_slice())?;
            put_number(out, u64::from(*count))
        }
        Step::Write { name, text } => put_three(out, b"write", name.as_slice(), text.as_slice()),
        Step::Writex { name, text } => {
            put_two(out, b"writex", name.as_slice())?;
            put_hex(out, text.as_slice())
        }
        Step::Close { name } => put_two(out, b"close", name.as_slice()),
        Step::Ls { path } => put_two(out, b"ls", path.as_slice()),
        Step::Cs { query } => put_two(out, b"cs", query.as_slice()),
        Step::Until { moment } => {
            out.append(b"until")?;
            put_number(out, *moment)
        }
        Step::Refresh => out.append(b"refresh"),
        Step::Dial { name, address } => {
            put_three(out, b"dial", name.as_slice(), address.as_slice())
        }
        Step::Announce { name, address } => {
            put_three(out, b"announce", name.as_slice(), address.as_slice())
        }
        Step::Listen { name, from } => put_three(out, b"listen", name.as_slice(), from.as_slice()),
        Step::Accept { name, from } => put_three(out, b"accept", name.as_slice(), from.as_slice()),
        Step::Reject { name } => put_two(out, b"reject", name.as_slice()),
        Step::Hangup { name } => put_two(out, b"hangup", name.as_slice()),
        Step::Hread { name, count } => {
            put_two(out, b"hread", name.as_slice())?;
            put_number(out, u64::from(*count))
        }
        Step::Hwrite { name, bytes } => {
            put_two(out, b"hwrite", name.as_slice())?;
            put_hex(out, bytes.as_slice())
        }
        Step::Dns { name, times } => {
            put_two(out, b"dns", name.as_slice())?;
            put_number(out, u64::from(*times))
        }
        // imports
        Step::Export { name } => put_two(out, b"export", name.as_slice()),
        Step::Import { name } => put_two(out, b"import", name.as_slice()),
        Step::Ropen {
            name,
            call,
            path,
            mode,
        } => {
            put_three(out, b"ropen", name.as_slice(), call.as_slice())?;
            put_word(out, path.as_slice())?;
            let word = mode_word(*mode);
            put_word(out, word)
        }
        Step::Rread { name, count } => {
            put_two(out, b"rread", name.as_slice())?;
            put_number(out, u64::from(*count))
        }
        Step::Rwrite { name, text } => put_three(out, b"rwrite", name.as_slice(), text.as_slice()),
        Step::Rclose { name } => put_two(out, b"rclose", name.as_slice()),
    }
}

/// Adds the lines of steps.
fn put_steps(out: &mut Octets, steps: &[Step]) -> Result<(), AllocError>
    ensures { OnOk result (out.new ≡ out.old ++ laid (map spec.line_of_step steps.now)) }
{
    for step in steps {
        put_step(out, step)?;
        out.push(b'\n')?;
    }
    Ok(())
}

/// Adds the lines of a script, where these hosts are.
fn put_script(out: &mut Octets, hosts: &[HostSpec], script: &Script) -> Result<(), AllocError>
    ensures { OnOk result (out.new ≡ out.old ++ laid (spec.lines_of_script (host_names hosts.now) script.now)) }
{
    put_two(out, b"script", host_name(hosts, script.host))?;
    out.push(b'\n')?;
    put_steps(out, script.steps.as_slice())
}

/// Adds the lines of scripts, where these hosts are.
pub fn put_scripts(
    out: &mut Octets,
    hosts: &[HostSpec],
    scripts: &[Script],
) -> Result<(), AllocError>
    ensures { OnOk result (out.new ≡ out.old ++ laid
        (flat_map (spec.lines_of_script (host_names hosts.now)) scripts.now)) }
{
    for script in scripts {
        put_script(out, hosts, script)?;
    }
    Ok(())
}
