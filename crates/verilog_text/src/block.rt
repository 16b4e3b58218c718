//! The always block, in which registers change.
ghost use Rattle.std.specs.Prelude.{◌≡◌, ◌<◌, ◌≤◌, Some, None, length, map, OnOk};
ghost use Rattle.std.specs.List.{list_any};
ghost use Rattle.netlist.specs.Nets.{is_register};
ghost use Rattle.netlist.specs.Plans.{next_of as next_of_plan};
ghost use Rattle.verilog_module.specs.OfNetlist.{declarations, reset_from};
ghost use Rattle.verilog_module.specs.Tokens.{from};
ghost use Rattle.verilog_text.specs.Laying.{with_pieces};
ghost use Rattle.verilog_text.specs.Layout.{becomes, reset_pieces, next_pieces, block_opens, block_turns, block_ends, always_pieces, block_lines};

use crate::piece::Piece;
use crate::putting::put;
use esi_base::{NoMemory, Octets, Word};
use netlist::{MAX_NETS, Net, Sealed};
use verilog_tokens::{Keyword, Sign, Token};

/// Adds the always block, where there are registers.
pub(crate) fn put_block(text: &mut Octets, net: &Sealed) -> Result<(), NoMemory>
    ensures { OnOk result (text.new ≡ with_pieces (block_lines (declarations net.now.nets net.now.widths) (map reset_from net.now.nets) net.now.nexts) text.old) }
{
    if has_registers(net.nets().as_slice()) {
        put_always(text, net)
    } else {
        Ok(())
    }
}

/// Whether a net is a register.
fn has_registers(nets: &[Net]) -> bool
    ensures { result ≡ list_any is_register nets.now }
{
    nets.iter().any(|net| net.is_register())
}

/// Adds the always block.
fn put_always(text: &mut Octets, net: &Sealed) -> Result<(), NoMemory>
    ensures { OnOk result (text.new ≡ with_pieces (always_pieces (map reset_from net.now.nets) net.now.nexts) text.old) }
{
    put_block_start(text)?;
    put_resets(text, net.nets().as_slice())?;
    put_block_turn(text)?;
    put_nexts(text, net)?;
    put_block_end(text)?;
    Ok(())
}

/// Adds the head of the block and of its first part.
fn put_block_start(text: &mut Octets) -> Result<(), NoMemory>
    ensures { OnOk result (text.new ≡ with_pieces block_opens text.old) }
{
    put(
        text,
        &[
            Piece::Indent,
            Piece::Spelled(Token::Keyword(Keyword::Always)),
            Piece::Space,
            Piece::Spelled(Token::Sign(Sign::At)),
            Piece::Spelled(Token::Sign(Sign::LeftParenthesis)),
            Piece::Spelled(Token::Keyword(Keyword::Posedge)),
            Piece::Space,
            Piece::Spelled(Token::Clock),
            Piece::Spelled(Token::Sign(Sign::RightParenthesis)),
            Piece::Space,
            Piece::Spelled(Token::Keyword(Keyword::Begin)),
            Piece::LineEnd,
            Piece::Indent,
            Piece::Indent,
            Piece::Spelled(Token::Keyword(Keyword::If)),
            Piece::Space,
            Piece::Spelled(Token::Sign(Sign::LeftParenthesis)),
            Piece::Spelled(Token::Reset),
            Piece::Spelled(Token::Sign(Sign::RightParenthesis)),
            Piece::Space,
            Piece::Spelled(Token::Keyword(Keyword::Begin)),
            Piece::LineEnd,
        ],
    )
}

/// Adds the line between the two parts of the block.
fn put_block_turn(text: &mut Octets) -> Result<(), NoMemory>
    ensures { OnOk result (text.new ≡ with_pieces block_turns text.old) }
{
    put(
        text,
        &[
            Piece::Indent,
            Piece::Indent,
            Piece::Spelled(Token::Keyword(Keyword::End)),
            Piece::Space,
            Piece::Spelled(Token::Keyword(Keyword::Else)),
            Piece::Space,
            Piece::Spelled(Token::Keyword(Keyword::Begin)),
            Piece::LineEnd,
        ],
    )
}

/// Adds the end of the block.
fn put_block_end(text: &mut Octets) -> Result<(), NoMemory>
    ensures { OnOk result (text.new ≡ with_pieces block_ends text.old) }
{
    put(
        text,
        &[
            Piece::Indent,
            Piece::Indent,
            Piece::Spelled(Token::Keyword(Keyword::End)),
            Piece::LineEnd,
            Piece::Indent,
            Piece::Spelled(Token::Keyword(Keyword::End)),
            Piece::LineEnd,
        ],
    )
}

/// Adds what registers become where the reset is 1.
fn put_resets(text: &mut Octets, nets: &[Net]) -> Result<(), NoMemory>
    requires { length nets.now ≤ MAX_NETS }
    ensures { OnOk result (text.new ≡ with_pieces (from reset_pieces 0 (map reset_from nets.now)) text.old) }
{
    for n in 0..nets.len() {
        put_reset(text, n as u32, &nets[n])?;
    }
    Ok(())
}

/// Adds what a net becomes where the reset is 1, if it is a register: `n3 <= 1'h0;`.
fn put_reset(text: &mut Octets, n: u32, net: &Net) -> Result<(), NoMemory>
    ensures { OnOk result (text.new ≡ with_pieces (reset_pieces n (reset_from net.now)) text.old) }
{
    match reset_of(net) {
        Some(word) => put_becomes(text, n, Token::Constant(word)),
        None => Ok(()),
    }
}

/// The reset of a net, if it is a register.
fn reset_of(net: &Net) -> Option<Word>
    ensures { result ≡ reset_from net.now }
{
    match net {
        Net::Register { reset } => Some(*reset),
        _ => None,
    }
}

/// Adds what registers become where the reset is 0.
fn put_nexts(text: &mut Octets, net: &Sealed) -> Result<(), NoMemory>
    ensures { OnOk result (text.new ≡ with_pieces (from next_pieces 0 net.now.nexts) text.old) }
{
    let count = net.nets().len();
    for n in 0..count {
        let next = next_of(net, n as u32);
        put_next(text, n as u32, next)?;
    }
    Ok(())
}

/// The net from which a net takes its next word, if it is a register.
#[tactic(auto, using(crate::specs::Laying::no_next))]
fn next_of(net: &Sealed, n: u32) -> Option<u32>
    requires { n < length net.now.nets }
    ensures { result ≡ next_of_plan net.now n }
{
    let nets = net.nets().as_slice();
    if nets[n as usize].is_register() {
        Some(net.next(n))
    } else {
        None
    }
}

/// Adds what a net becomes where the reset is 0, if it is a register: `n3 <= n13;`.
fn put_next(text: &mut Octets, n: u32, next: Option<u32>) -> Result<(), NoMemory>
    ensures { OnOk result (text.new ≡ with_pieces (next_pieces n next) text.old) }
{
    match next {
        Some(next) => put_becomes(text, n, Token::Net(next)),
        None => Ok(()),
    }
}

/// Adds that a register becomes something.
fn put_becomes(text: &mut Octets, n: u32, right: Token<'_>) -> Result<(), NoMemory>
    ensures { OnOk result (text.new ≡ with_pieces (becomes n right.entry) text.old) }
{
    put(
        text,
        &[
            Piece::Indent,
            Piece::Indent,
            Piece::Indent,
            Piece::Spelled(Token::Net(n)),
            Piece::Space,
            Piece::Spelled(Token::Sign(Sign::Becomes)),
            Piece::Space,
            Piece::Spelled(right),
            Piece::Spelled(Token::Sign(Sign::Semicolon)),
            Piece::LineEnd,
        ],
    )
}
