//! What is written for nets: their declarations, their assigns, and those of the output ports.
ghost use Rattle.std.specs.Prelude.{◌≡◌, ◌<◌, ◌≤◌, if◌then◌else◌, Some, length, slice_get, OnOk};
ghost use Rattle.verilog_module.specs.Modules.{declared_at};
ghost use Rattle.verilog_module.specs.OfNetlist.{declarations, rights_from};
ghost use Rattle.verilog_module.specs.Tokens.{from, port as port_of};
ghost use Rattle.verilog_text.specs.Laying.{with_pieces};
ghost use Rattle.verilog_text.specs.Layout.{declaration, net_pieces, assign_pieces, assign_opens, statement_ends, output_pieces, ready_pieces, offer_pieces, output_lines};

use crate::piece::Piece;
use crate::putting::put;
use crate::rights::{inputs_behind, put_right, right_of};
use esi_base::{NoMemory, Octets};
use esi_types::SIDE_ENDPOINTS;
use netlist::{MAX_NETS, Net, Sealed};
use verilog_module::{Declared, Offer, Right};
use verilog_tokens::{Keyword, Port, PortRole, PortSide, Sign, Token};

/// Adds the declarations of all nets.
pub(crate) fn put_declarations(text: &mut Octets, net: &Sealed) -> Result<(), NoMemory>
    ensures { OnOk result (text.new ≡ with_pieces (from net_pieces 0 (declarations net.now.nets net.now.widths)) text.old) }
{
    let count = net.nets().len();
    for n in 0..count {
        let declared = declared_of(net, n as u32);
        put_declaration(text, n as u32, declared)?;
    }
    Ok(())
}

/// A net as it is declared.
fn declared_of(net: &Sealed, n: u32) -> Declared
    requires { n < length net.now.nets }
    ensures is { result ≡ declared_at (declarations net.now.nets net.now.widths) n }
    ensures some { 1 ≤ result.width }
{
    let nets = net.nets().as_slice();
    let width = net.width(n);
    let is_register = nets[n as usize].is_register();
    Declared { width, is_register }
}

/// Adds the declaration of a net: `wire [7:0] n1;`.
fn put_declaration(text: &mut Octets, n: u32, declared: Declared) -> Result<(), NoMemory>
    requires { 1 ≤ declared.width }
    ensures { OnOk result (text.new ≡ with_pieces (net_pieces n declared) text.old) }
{
    put_typed(text, n, declared.width, keyword(declared.is_register))
}

/// The keyword of a declaration.
fn keyword(is_register: bool) -> Keyword
    ensures { result ≡ (if is_register then Keyword.Reg else Keyword.Wire) }
{
    if is_register {
        Keyword::Reg
    } else {
        Keyword::Wire
    }
}

/// Adds a declaration.
fn put_typed(text: &mut Octets, n: u32, width: u32, keyword: Keyword) -> Result<(), NoMemory>
    requires { 1 ≤ width }
    ensures { OnOk result (text.new ≡ with_pieces (declaration keyword width (Token.Net n)) text.old) }
{
    put(
        text,
        &[
            Piece::Indent,
            Piece::Spelled(Token::Keyword(keyword)),
            Piece::Space,
            Piece::Spelled(Token::Sign(Sign::LeftBracket)),
            Piece::Spelled(Token::Number(width - 1)),
            Piece::Spelled(Token::Sign(Sign::Colon)),
            Piece::Spelled(Token::Number(0)),
            Piece::Spelled(Token::Sign(Sign::RightBracket)),
            Piece::Space,
            Piece::Spelled(Token::Net(n)),
            Piece::Spelled(Token::Sign(Sign::Semicolon)),
            Piece::LineEnd,
        ],
    )
}

/// Adds the assigns of all nets, where there are so many to-server endpoints.
pub(crate) fn put_assigns(text: &mut Octets, servers: u32, nets: &[Net]) -> Result<(), NoMemory>
    requires servers { servers ≤ SIDE_ENDPOINTS }
    requires few { length nets.now ≤ MAX_NETS }
    ensures { OnOk result (text.new ≡ with_pieces (from (assign_pieces servers) 0 (rights_from 0 nets.now)) text.old) }
{
    let mut inputs = 0;
    for n in 0..nets.len() {
        let net = &nets[n];
        let right = right_of(inputs, net);
        put_assign(text, servers, n as u32, &right)?;
        inputs = inputs_behind(inputs, net);
    }
    Ok(())
}

/// Adds the assign of a net, where it has one: `assign n8 = n0 & n7;`.
fn put_assign(
    text: &mut Octets,
    servers: u32,
    n: u32,
    right: &Option<Right>,
) -> Result<(), NoMemory>
    requires { servers ≤ SIDE_ENDPOINTS }
    ensures { OnOk result (text.new ≡ with_pieces (assign_pieces servers n right.now) text.old) }
{
    match right {
        Some(right) => put_assign_of(text, servers, n, right),
        None => Ok(()),
    }
}

/// Adds the assign of a net.
fn put_assign_of(text: &mut Octets, servers: u32, n: u32, right: &Right) -> Result<(), NoMemory>
    requires { servers ≤ SIDE_ENDPOINTS }
    ensures { OnOk result (text.new ≡ with_pieces (assign_pieces servers n (Some right.now)) text.old) }
{
    put_assign_start(text, n)?;
    put_right(text, servers, right)?;
    put_statement_end(text)?;
    Ok(())
}

/// Adds what stands before the right side of the assign of a net: `assign n8 = `.
fn put_assign_start(text: &mut Octets, n: u32) -> Result<(), NoMemory>
    ensures { OnOk result (text.new ≡ with_pieces (assign_opens (Token.Net n)) text.old) }
{
    put(
        text,
        &[
            Piece::Indent,
            Piece::Spelled(Token::Keyword(Keyword::Assign)),
            Piece::Space,
            Piece::Spelled(Token::Net(n)),
            Piece::Space,
            Piece::Spelled(Token::Sign(Sign::Equals)),
            Piece::Space,
        ],
    )
}

/// Adds the end of a statement.
fn put_statement_end(text: &mut Octets) -> Result<(), NoMemory>
    ensures { OnOk result (text.new ≡ with_pieces statement_ends text.old) }
{
    put(
        text,
        &[Piece::Spelled(Token::Sign(Sign::Semicolon)), Piece::LineEnd],
    )
}

/// Adds the assigns of the output ports.
pub(crate) fn put_outputs(
    text: &mut Octets,
    readies: &[u32],
    offers: &[Offer],
) -> Result<(), NoMemory>
    requires readies { length readies.now ≤ SIDE_ENDPOINTS }
    requires offers { length offers.now ≤ SIDE_ENDPOINTS }
    ensures { OnOk result (text.new ≡ with_pieces (output_lines readies.now offers.now) text.old) }
{
    put_readies(text, readies)?;
    put_offers(text, offers)?;
    Ok(())
}

/// Adds the assigns of the ready ports of the to-server endpoints.
fn put_readies(text: &mut Octets, readies: &[u32]) -> Result<(), NoMemory>
    requires { length readies.now ≤ SIDE_ENDPOINTS }
    ensures { OnOk result (text.new ≡ with_pieces (from ready_pieces 0 readies.now) text.old) }
{
    for n in 0..readies.len() {
        put_ready(text, n as u32, readies[n])?;
    }
    Ok(())
}

/// Adds the assign of the ready port of a to-server endpoint.
fn put_ready(text: &mut Octets, n: u32, ready: u32) -> Result<(), NoMemory>
    ensures { OnOk result (text.new ≡ with_pieces (ready_pieces n ready) text.old) }
{
    put_output(text, PortSide::Server, n, PortRole::Ready, ready)
}

/// Adds the assigns of the valid and word ports of the to-client endpoints.
fn put_offers(text: &mut Octets, offers: &[Offer]) -> Result<(), NoMemory>
    requires { length offers.now ≤ SIDE_ENDPOINTS }
    ensures { OnOk result (text.new ≡ with_pieces (from offer_pieces 0 offers.now) text.old) }
{
    for n in 0..offers.len() {
        let offer = offer_at(offers, n);
        put_offer(text, n as u32, &offer)?;
    }
    Ok(())
}

/// The nets of the output ports of a to-client endpoint.
fn offer_at(offers: &[Offer], n: usize) -> Offer
    requires { n < length offers.now }
    ensures { slice_get offers.now n ≡ Some result }
{
    offers[n]
}

/// Adds the assigns of the valid and word ports of a to-client endpoint.
fn put_offer(text: &mut Octets, n: u32, offer: &Offer) -> Result<(), NoMemory>
    ensures { OnOk result (text.new ≡ with_pieces (offer_pieces n offer.now) text.old) }
{
    let Offer { valid, word } = *offer;
    put_output(text, PortSide::Client, n, PortRole::Valid, valid)?;
    put_output(text, PortSide::Client, n, PortRole::Word, word)?;
    Ok(())
}

/// Adds the assign of an output port: `assign s0_ready = n7;`.
fn put_output(
    text: &mut Octets,
    side: PortSide,
    n: u32,
    role: PortRole,
    net: u32,
) -> Result<(), NoMemory>
    ensures { OnOk result (text.new ≡ with_pieces (output_pieces (port_of side n role) net) text.old) }
{
    put(
        text,
        &[
            Piece::Indent,
            Piece::Spelled(Token::Keyword(Keyword::Assign)),
            Piece::Space,
            Piece::Spelled(Token::Port(Port {
                side,
                channel: n,
                role,
            })),
            Piece::Space,
            Piece::Spelled(Token::Sign(Sign::Equals)),
            Piece::Space,
            Piece::Spelled(Token::Net(net)),
            Piece::Spelled(Token::Sign(Sign::Semicolon)),
            Piece::LineEnd,
        ],
    )
}
