//! What is written for the endpoints: their comment lines, their names in the module line, their ports.
ghost use Rattle.std.specs.Prelude.{◌≡◌, ◌++◌, ◌<◌, ◌≤◌, length, map, OnOk, IfOk};
ghost use Rattle.channel_types.specs.Types.{width_of};
ghost use Rattle.verilog_tokens.specs.declared.token.PortSide.TheVariants.{Server, Client};
ghost use Rattle.verilog_tokens.specs.declared.token.PortRole.TheVariants.{Word};
ghost use Rattle.verilog_module.specs.Tokens.{from, comment_text, side_word as word_of_side, port as port_of};
ghost use Rattle.verilog_text.specs.Interfaces.{line_of};
ghost use Rattle.verilog_text.specs.Laying.{with_pieces};
ghost use Rattle.verilog_text.specs.Layout.{comment_pieces, name_pieces, port_names, server_pieces, client_pieces, lone_input, declaration, line_opens, line_closes, comment_lines, module_line, port_lines};

use crate::piece::Piece;
use crate::putting::put;
use channel_types::printing::push_number;
use design_lex::Spelling;
use esi_base::{List, NoMemory, Octets};
use esi_types::{Directory, Endpoint, SIDE_ENDPOINTS};
use std::alloc::Global;
use verilog_tokens::{Keyword, Port, PortRole, PortSide, Sign, Token};

// ---- comment lines

/// Adds the comment lines of all endpoints.
pub(crate) fn put_comments(
    alloc: Global,
    text: &mut Octets,
    directory: &Directory,
) -> Result<(), NoMemory>
    ensures { OnOk result (text.new ≡ with_pieces (comment_lines (map line_of directory.now.to_server) (map line_of directory.now.to_client)) text.old) }
{
    let to_server = directory.to_server.as_slice();
    let to_client = directory.to_client.as_slice();
    put_side_comments(alloc, text, PortSide::Server, to_server)?;
    put_side_comments(alloc, text, PortSide::Client, to_client)?;
    Ok(())
}

/// Adds the comment lines of a side.
fn put_side_comments(
    alloc: Global,
    text: &mut Octets,
    side: PortSide,
    ends: &[Endpoint],
) -> Result<(), NoMemory>
    requires { length ends.now ≤ SIDE_ENDPOINTS }
    ensures { OnOk result (text.new ≡ with_pieces (from (comment_pieces side) 0 (map line_of ends.now)) text.old) }
{
    for n in 0..ends.len() {
        put_comment(alloc, text, side, n as u32, &ends[n])?;
    }
    Ok(())
}

/// Adds the comment line of an endpoint.
fn put_comment(
    alloc: Global,
    text: &mut Octets,
    side: PortSide,
    n: u32,
    end: &Endpoint,
) -> Result<(), NoMemory>
    ensures { OnOk result (text.new ≡ with_pieces (comment_pieces side n (line_of end.now)) text.old) }
{
    let comment = comment_of(alloc, side, n, end)?;
    put(
        text,
        &[
            Piece::Spelled(Token::Comment(Spelling::new(comment.as_slice()))),
            Piece::LineEnd,
        ],
    )
}

/// What stands behind `//` in the comment line of an endpoint.
#[tactic(auto, using(esi_types::specs::GoodTypes::good_type_recovers))]
fn comment_of(alloc: Global, side: PortSide, n: u32, end: &Endpoint) -> Result<Octets, NoMemory>
    ensures { IfOk result (λ comment. comment ≡ comment_text side n (line_of end.now)) }
{
    let ty = end.ty.print_type(alloc)?;
    let mut comment = List::new(alloc);
    comment.push_all(b" ")?;
    comment.push_all(side_word(side))?;
    comment.push_all(b" ")?;
    push_number(&mut comment, n as u128)?;
    comment.push_all(b" ")?;
    comment.push_all(end.name.as_slice())?;
    comment.push_all(b" ")?;
    comment.push_all(ty.as_slice())?;
    Ok(comment)
}

fn side_word(side: PortSide) -> &'static [u8]
    ensures { result.now ≡ word_of_side side }
{
    match side {
        PortSide::Server => b"to_server",
        PortSide::Client => b"to_client",
    }
}

// ---- the module line

/// Adds the line with the module's name and those of its ports.
pub(crate) fn put_module_line(
    text: &mut Octets,
    title: &[u8],
    directory: &Directory,
) -> Result<(), NoMemory>
    ensures { OnOk result (text.new ≡ with_pieces (module_line title.now (map line_of directory.now.to_server) (map line_of directory.now.to_client)) text.old) }
{
    let to_server = directory.to_server.as_slice();
    let to_client = directory.to_client.as_slice();
    put_line_start(text, title)?;
    put_names(text, PortSide::Server, to_server)?;
    put_names(text, PortSide::Client, to_client)?;
    put_line_end(text)?;
    Ok(())
}

fn put_line_start(text: &mut Octets, title: &[u8]) -> Result<(), NoMemory>
    ensures { OnOk result (text.new ≡ with_pieces (line_opens title.now) text.old) }
{
    put(
        text,
        &[
            Piece::Spelled(Token::Keyword(Keyword::Module)),
            Piece::Space,
            Piece::Spelled(Token::Title(Spelling::new(title))),
            Piece::Spelled(Token::Sign(Sign::LeftParenthesis)),
            Piece::Spelled(Token::Clock),
            Piece::Spelled(Token::Sign(Sign::Comma)),
            Piece::Space,
            Piece::Spelled(Token::Reset),
        ],
    )
}

fn put_line_end(text: &mut Octets) -> Result<(), NoMemory>
    ensures { OnOk result (text.new ≡ with_pieces line_closes text.old) }
{
    put(
        text,
        &[
            Piece::Spelled(Token::Sign(Sign::RightParenthesis)),
            Piece::Spelled(Token::Sign(Sign::Semicolon)),
            Piece::LineEnd,
        ],
    )
}

/// Adds the names of the ports of a side.
fn put_names(text: &mut Octets, side: PortSide, ends: &[Endpoint]) -> Result<(), NoMemory>
    requires { length ends.now ≤ SIDE_ENDPOINTS }
    ensures { OnOk result (text.new ≡ with_pieces (from (name_pieces side) 0 (map line_of ends.now)) text.old) }
{
    for n in 0..ends.len() {
        put_port_names(text, side, n as u32)?;
    }
    Ok(())
}

/// Adds the names of the ports of an endpoint, each behind a comma.
fn put_port_names(text: &mut Octets, side: PortSide, n: u32) -> Result<(), NoMemory>
    ensures { OnOk result (text.new ≡ with_pieces (port_names side n) text.old) }
{
    put(
        text,
        &[
            Piece::Spelled(Token::Sign(Sign::Comma)),
            Piece::Space,
            Piece::Spelled(Token::Port(Port {
                side,
                channel: n,
                role: PortRole::Valid,
            })),
            Piece::Spelled(Token::Sign(Sign::Comma)),
            Piece::Space,
            Piece::Spelled(Token::Port(Port {
                side,
                channel: n,
                role: PortRole::Word,
            })),
            Piece::Spelled(Token::Sign(Sign::Comma)),
            Piece::Space,
            Piece::Spelled(Token::Port(Port {
                side,
                channel: n,
                role: PortRole::Ready,
            })),
        ],
    )
}

// ---- the ports

/// Adds the declarations of all ports.
pub(crate) fn put_ports(text: &mut Octets, directory: &Directory) -> Result<(), NoMemory>
    ensures { OnOk result (text.new ≡ with_pieces (port_lines (map line_of directory.now.to_server) (map line_of directory.now.to_client)) text.old) }
{
    let to_server = directory.to_server.as_slice();
    let to_client = directory.to_client.as_slice();
    put_lone_inputs(text)?;
    put_server_ports(text, to_server)?;
    put_client_ports(text, to_client)?;
    Ok(())
}

/// Adds the declarations of the clock and of the reset.
fn put_lone_inputs(text: &mut Octets) -> Result<(), NoMemory>
    ensures { OnOk result (text.new ≡ with_pieces (lone_input Token.Clock ++ lone_input Token.Reset) text.old) }
{
    put(
        text,
        &[
            Piece::Indent,
            Piece::Spelled(Token::Keyword(Keyword::Input)),
            Piece::Space,
            Piece::Spelled(Token::Clock),
            Piece::Spelled(Token::Sign(Sign::Semicolon)),
            Piece::LineEnd,
            Piece::Indent,
            Piece::Spelled(Token::Keyword(Keyword::Input)),
            Piece::Space,
            Piece::Spelled(Token::Reset),
            Piece::Spelled(Token::Sign(Sign::Semicolon)),
            Piece::LineEnd,
        ],
    )
}

/// Adds the declarations of the ports of all to-server endpoints.
fn put_server_ports(text: &mut Octets, ends: &[Endpoint]) -> Result<(), NoMemory>
    requires { length ends.now ≤ SIDE_ENDPOINTS }
    ensures { OnOk result (text.new ≡ with_pieces (from server_pieces 0 (map line_of ends.now)) text.old) }
{
    for n in 0..ends.len() {
        put_ports_of_server(text, n as u32, &ends[n])?;
    }
    Ok(())
}

/// Adds the declarations of the ports of a to-server endpoint.
fn put_ports_of_server(text: &mut Octets, n: u32, end: &Endpoint) -> Result<(), NoMemory>
    ensures { OnOk result (text.new ≡ with_pieces (server_pieces n (line_of end.now)) text.old) }
{
    put_bit_port(text, Keyword::Input, PortSide::Server, n, PortRole::Valid)?;
    put_word_port(text, Keyword::Input, PortSide::Server, n, end)?;
    put_bit_port(text, Keyword::Output, PortSide::Server, n, PortRole::Ready)?;
    Ok(())
}

/// Adds the declarations of the ports of all to-client endpoints.
fn put_client_ports(text: &mut Octets, ends: &[Endpoint]) -> Result<(), NoMemory>
    requires { length ends.now ≤ SIDE_ENDPOINTS }
    ensures { OnOk result (text.new ≡ with_pieces (from client_pieces 0 (map line_of ends.now)) text.old) }
{
    for n in 0..ends.len() {
        put_ports_of_client(text, n as u32, &ends[n])?;
    }
    Ok(())
}

/// Adds the declarations of the ports of a to-client endpoint.
fn put_ports_of_client(text: &mut Octets, n: u32, end: &Endpoint) -> Result<(), NoMemory>
    ensures { OnOk result (text.new ≡ with_pieces (client_pieces n (line_of end.now)) text.old) }
{
    put_bit_port(text, Keyword::Output, PortSide::Client, n, PortRole::Valid)?;
    put_word_port(text, Keyword::Output, PortSide::Client, n, end)?;
    put_bit_port(text, Keyword::Input, PortSide::Client, n, PortRole::Ready)?;
    Ok(())
}

/// Adds the declaration of a port of one bit: `input [0:0] s0_valid;`.
fn put_bit_port(
    text: &mut Octets,
    way: Keyword,
    side: PortSide,
    n: u32,
    role: PortRole,
) -> Result<(), NoMemory>
    ensures { OnOk result (text.new ≡ with_pieces (declaration way 1 (Token.Port (port_of side n role))) text.old) }
{
    let name = Port {
        side,
        channel: n,
        role,
    };
    put_port(text, way, 1, name)
}

/// Adds the declaration of the word port of an endpoint: `input [7:0] s0_word;`.
fn put_word_port(
    text: &mut Octets,
    way: Keyword,
    side: PortSide,
    n: u32,
    end: &Endpoint,
) -> Result<(), NoMemory>
    ensures { OnOk result (text.new ≡ with_pieces (declaration way (width_of end.now.ty) (Token.Port (port_of side n Word))) text.old) }
{
    let name = Port {
        side,
        channel: n,
        role: PortRole::Word,
    };
    put_port(text, way, width(end), name)
}

/// How wide the words of an endpoint are.
#[tactic(auto, using(esi_types::specs::GoodTypes::good_type_recovers))]
fn width(end: &Endpoint) -> u32
    ensures is { result ≡ width_of end.now.ty }
    ensures some { 1 ≤ result }
{
    end.ty.width()
}

/// Adds the declaration of a port.
fn put_port(text: &mut Octets, way: Keyword, width: u32, name: Port) -> Result<(), NoMemory>
    requires { 1 ≤ width }
    ensures { OnOk result (text.new ≡ with_pieces (declaration way width (Token.Port name)) text.old) }
{
    put(
        text,
        &[
            Piece::Indent,
            Piece::Spelled(Token::Keyword(way)),
            Piece::Space,
            Piece::Spelled(Token::Sign(Sign::LeftBracket)),
            Piece::Spelled(Token::Number(width - 1)),
            Piece::Spelled(Token::Sign(Sign::Colon)),
            Piece::Spelled(Token::Number(0)),
            Piece::Spelled(Token::Sign(Sign::RightBracket)),
            Piece::Space,
            Piece::Spelled(Token::Port(name)),
            Piece::Spelled(Token::Sign(Sign::Semicolon)),
            Piece::LineEnd,
        ],
    )
}
