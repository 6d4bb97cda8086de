//! A page.
ghost use Rattle.std.specs.Prelude.{◌≡◌, ◌++◌, codes, IfOk, OnOk};
ghost use Rattle.net_base.specs.Legal.{IsLegal, IsTimed};
ghost use Rattle.net_base.specs.World.{IsWorld};
ghost use Rattle.end_rows.specs.EndRows.{end_rows};
ghost use Rattle.packet_rows.specs.PacketRows.{packets_text};
ghost use Rattle.page_payload.specs.Encoding.{encoded};
ghost use Rattle.page_payload.specs.Parts.{part};
ghost use Rattle.net_page.specs.Page as spec;
ghost use Rattle.replay_views.specs.Steps.{step_rows};

use end_rows::put_end_rows;
use net_base::{History, Octets, World};
use packet_rows::put_packet_rows;
use page_payload::{put_input, put_part};
use replay_views::step_rows_of;
use std::alloc::{AllocError, Global};

/// Makes the page of a legal and timed history of a world: the head, the payload and the tail. The input is the text that says the world
/// and the history.
pub fn page_of(
    alloc: Global,
    head: &[u8],
    tail: &[u8],
    input: &[u8],
    world: &World,
    history: &History,
) -> Result<Octets, AllocError>
    requires world { IsWorld world.now }
    requires legal { IsLegal world.now history.now }
    requires timed { IsTimed world.now history.now }
    ensures whole { IfOk result (λ page. page ≡ spec.page head.now tail.now input.now world.now history.now) }
{
    let mut out = Octets::from_slice(alloc, head)?;
    put_payload(&mut out, alloc, input, world, history)?;
    out.append(tail)?;
    Ok(out)
}

fn put_payload(
    out: &mut Octets,
    alloc: Global,
    input: &[u8],
    world: &World,
    history: &History,
) -> Result<(), AllocError>
    requires world { IsWorld world.now }
    requires legal { IsLegal world.now history.now }
    requires timed { IsTimed world.now history.now }
    ensures { OnOk result (out.new ≡ out.old ++ spec.payload input.now world.now history.now) }
{
    out.append(b"page 1\n")?;
    put_input_part(out, alloc, input)?;
    put_packets_part(out, alloc, world, history)?;
    put_steps_part(out, alloc, input, world, history)?;
    put_ends_part(out, alloc, world, history)?;
    Ok(())
}

fn put_input_part(out: &mut Octets, alloc: Global, input: &[u8]) -> Result<(), AllocError>
    ensures { OnOk result (out.new ≡ out.old ++ part (codes "input") (encoded input.now)) }
{
    let mut lines = Octets::new(alloc);
    put_input(&mut lines, input)?;
    put_part(out, b"input", lines.as_slice())
}

fn put_packets_part(
    out: &mut Octets,
    alloc: Global,
    world: &World,
    history: &History,
) -> Result<(), AllocError>
    ensures { OnOk result (out.new ≡ out.old ++ part (codes "packets") (packets_text world.now history.now)) }
{
    let mut rows = Octets::new(alloc);
    put_packet_rows(&mut rows, alloc, world, history)?;
    put_part(out, b"packets", rows.as_slice())
}

fn put_steps_part(
    out: &mut Octets,
    alloc: Global,
    input: &[u8],
    world: &World,
    history: &History,
) -> Result<(), AllocError>
    requires world { IsWorld world.now }
    requires legal { IsLegal world.now history.now }
    requires timed { IsTimed world.now history.now }
    ensures { OnOk result (out.new ≡ out.old ++ part (codes "steps") (step_rows input.now world.now history.now)) }
{
    let rows = step_rows_of(alloc, input, world, history)?;
    put_part(out, b"steps", rows.as_slice())
}

fn put_ends_part(
    out: &mut Octets,
    alloc: Global,
    world: &World,
    history: &History,
) -> Result<(), AllocError>
    requires world { IsWorld world.now }
    requires legal { IsLegal world.now history.now }
    requires timed { IsTimed world.now history.now }
    ensures { OnOk result (out.new ≡ out.old ++ part (codes "ends") (end_rows world.now history.now)) }
{
    let mut rows = Octets::new(alloc);
    put_end_rows(&mut rows, alloc, world, history)?;
    put_part(out, b"ends", rows.as_slice())
}
