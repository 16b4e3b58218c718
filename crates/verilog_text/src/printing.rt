//! The text of the module of a netlist.
ghost use Rattle.std.specs.Prelude.{◌≡◌, ◌≤◌, length, IfOk, OnOk};
ghost use Rattle.verilog_module.specs.OfNetlist.{module_of};
ghost use Rattle.verilog_text.specs.Interfaces.{interface_of};
ghost use Rattle.verilog_text.specs.Laying.{with_pieces};
ghost use Rattle.verilog_text.specs.Layout.{last_line, module_pieces};
ghost use Rattle.verilog_text.specs.Texts.{module_text, IsLaidOut};

use crate::block::put_block;
use crate::endpoints::{put_comments, put_module_line, put_ports};
use crate::nets::{put_assigns, put_declarations, put_outputs};
use crate::piece::Piece;
use crate::putting::put;
use esi_base::{List, NoMemory, Octets};
use esi_types::{Directory, SIDE_ENDPOINTS};
use netlist::Sealed;
use std::alloc::Global;
use verilog_module::Offer;
use verilog_tokens::{Keyword, Token};

/// The text of the Verilog module of a netlist. The module is called `esi_` and the title; the directory has its endpoints; `readies`
/// are the nets that drive the ready ports of the to-server endpoints, and `offers` those that drive the valid and word ports of the
/// to-client endpoints, both in the order of their endpoints.
pub fn print_module(
    alloc: Global,
    title: &[u8],
    directory: &Directory,
    net: &Sealed,
    readies: &[u32],
    offers: &[Offer],
) -> Result<Octets, NoMemory>
    requires readies { length readies.now ≤ SIDE_ENDPOINTS }
    requires offers { length offers.now ≤ SIDE_ENDPOINTS }

    // the octets are exactly those of the layout
    ensures text { IfOk result (λ text. text ≡ module_text (module_of net.now (interface_of title.now directory.now readies.now offers.now))) }

    // so they are the module's tokens, with blanks between them
    ensures tokens { IfOk result (IsLaidOut (module_of net.now (interface_of title.now directory.now readies.now offers.now))) }
{
    let mut text = List::new(alloc);
    put_module(alloc, &mut text, title, directory, net, readies, offers)?;
    Ok(text)
}

/// Adds the text of the module, section by section.
fn put_module(
    alloc: Global,
    text: &mut Octets,
    title: &[u8],
    directory: &Directory,
    net: &Sealed,
    readies: &[u32],
    offers: &[Offer],
) -> Result<(), NoMemory>
    requires readies { length readies.now ≤ SIDE_ENDPOINTS }
    requires offers { length offers.now ≤ SIDE_ENDPOINTS }
    ensures { OnOk result (text.new ≡ with_pieces (module_pieces (module_of net.now (interface_of title.now directory.now readies.now offers.now))) text.old) }
{
    let servers = directory.to_server.len() as u32;
    put_comments(alloc, text, directory)?;
    put_module_line(text, title, directory)?;
    put_ports(text, directory)?;
    put_declarations(text, net)?;
    put_assigns(text, servers, net.nets().as_slice())?;
    put_outputs(text, readies, offers)?;
    put_block(text, net)?;
    put_last_line(text)?;
    Ok(())
}

/// Adds the last line.
fn put_last_line(text: &mut Octets) -> Result<(), NoMemory>
    ensures { OnOk result (text.new ≡ with_pieces last_line text.old) }
{
    put(
        text,
        &[
            Piece::Spelled(Token::Keyword(Keyword::EndModule)),
            Piece::LineEnd,
        ],
    )
}
