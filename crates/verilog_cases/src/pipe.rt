//! The text of a pipe of one stage.
ghost use Rattle.std.specs.Prelude.{◌≡◌, ◌≤◌, length, IfOk};
ghost use Rattle.channel_types.specs.Types.{IsGoodType};
ghost use Rattle.verilog_cases.specs.Pipes.{one_stage as one_stage_of};

use channel_lower::{Lowered, lower};
use channel_types::EsiType;
use design_types::parse_type;
use esi_base::{LONGEST_TEXT, List, NoMemory, Octets};
use esi_types::{Directory, Endpoint};
use flat_design::{Element, Flat};
use netlist::{NetRefused, Part};
use std::alloc::Global;
use verilog_module::Offer;
use verilog_text::print_module;

/// The text of a pipe of one stage of a type; None where the octets are no type.
pub fn pipe_text(alloc: Global, text: &[u8]) -> Result<Option<Octets>, NoMemory> {
    if text.len() > LONGEST_TEXT {
        return Ok(None);
    }
    let Ok(source) = parse_type(alloc, text) else {
        return Ok(None);
    };
    let Ok(sink) = parse_type(alloc, text) else {
        return Ok(None);
    };
    let Some(lowered) = lowered(alloc, source.width())? else {
        return Ok(None);
    };
    let Some(server) = lowered.servers.get(0) else {
        return Ok(None);
    };
    let Some(client) = lowered.clients.get(0) else {
        return Ok(None);
    };
    let directory = Directory {
        to_server: one_endpoint(alloc, b"in", source)?,
        to_client: one_endpoint(alloc, b"out", sink)?,
    };
    let text = print_module(
        alloc,
        b"pipe",
        &directory,
        &lowered.net,
        &[server.ready],
        &[Offer {
            valid: client.valid,
            word: client.word,
        }],
    )?;
    Ok(Some(text))
}

/// One endpoint of a type.
fn one_endpoint(alloc: Global, name: &[u8], ty: EsiType) -> Result<List<Endpoint>, NoMemory>
    requires { IsGoodType ty }
    ensures { IfOk result (λ ends. length ends ≡ 1) }
{
    let name = List::from_slice(alloc, name)?;
    let mut ends = List::new(alloc);
    ends.add(Endpoint { name, ty })?;
    Ok(ends)
}

/// The netlist of one stage between two endpoints; None where it has no room.
fn lowered(alloc: Global, width: u32) -> Result<Option<Lowered>, NoMemory>
    requires low { 1 ≤ width }
    requires high { width ≤ 1024 }
{
    let flat = one_stage(alloc, width)?;
    match lower(alloc, &[Part::Stage { width }], &flat, 1, &[1]) {
        Ok(lowered) => Ok(Some(lowered)),
        Err(NetRefused::TooMany) => Ok(None),
        Err(NetRefused::NoMemory) => Err(NoMemory),
    }
}

/// One stage from channel 0 to channel 1.
fn one_stage(alloc: Global, width: u32) -> Result<Flat, NoMemory>
    ensures { IfOk result (λ flat. flat ≡ one_stage_of width) }
{
    let mut sources = List::new(alloc);
    sources.add(0)?;
    let mut sinks = List::new(alloc);
    sinks.add(1)?;
    let mut elements = List::new(alloc);
    elements.add(Element {
        part: 0,
        sources,
        sinks,
    })?;
    let mut widths = List::new(alloc);
    widths.add(width)?;
    widths.add(width)?;
    Ok(Flat { elements, widths })
}
