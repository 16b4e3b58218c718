//! Right sides of assigns.
ghost use Rattle.std.specs.Prelude.{◌≡◌, ◌+◌, ◌^◌, ◌<◌, ◌≤◌, OnOk};
ghost use Rattle.verilog_module.specs.OfNetlist.{right_of as right_of_net, inputs_behind as inputs_behind_net};
ghost use Rattle.verilog_module.specs.Tokens.{input_port as port_of_input};
ghost use Rattle.verilog_text.specs.Laying.{with_pieces};
ghost use Rattle.verilog_text.specs.Layout.{right_pieces, operation};

use crate::piece::Piece;
use crate::putting::put;
use esi_base::{NoMemory, Octets};
use esi_types::SIDE_ENDPOINTS;
use netlist::Net;
use verilog_module::Right;
use verilog_tokens::{Port, PortRole, PortSide, Sign, Token};

/// The right side of a net, where so many inputs stand before it; None for a register.
pub(crate) fn right_of(inputs: u32, net: &Net) -> Option<Right>
    ensures { result ≡ right_of_net inputs net.now }
{
    match net {
        Net::Input { width: _ } => Some(Right::Port(inputs)),
        Net::Register { reset: _ } => None,
        Net::Const(word) => Some(Right::Constant(*word)),
        Net::Not(a) => Some(Right::Not(*a)),
        Net::And(a, b) => Some(Right::And(*a, *b)),
        Net::Or(a, b) => Some(Right::Or(*a, *b)),
        Net::Xor(a, b) => Some(Right::Xor(*a, *b)),
        Net::Add(a, b) => Some(Right::Add(*a, *b)),
        Net::Sub(a, b) => Some(Right::Sub(*a, *b)),
        Net::Equal(a, b) => Some(Right::Equal(*a, *b)),
        Net::Less(a, b) => Some(Right::Less(*a, *b)),
        Net::Choose(test, one, other) => Some(Right::Choose(*test, *one, *other)),
        Net::Slice { of, high, low } => Some(Right::Slice {
            of: *of,
            high: *high,
            low: *low,
        }),
        Net::Concat { high, low } => Some(Right::Concat {
            high: *high,
            low: *low,
        }),
    }
}

/// How many inputs stand before the next net.
pub(crate) fn inputs_behind(inputs: u32, net: &Net) -> u32
    requires { inputs < 2 ^ 31 }
    ensures next { result ≡ inputs_behind_net inputs net.now }
    ensures most { result ≤ inputs + 1 }
{
    if net.is_input() { inputs + 1 } else { inputs }
}

/// Adds a right side, where there are so many to-server endpoints.
pub(crate) fn put_right(text: &mut Octets, servers: u32, right: &Right) -> Result<(), NoMemory>
    requires { servers ≤ SIDE_ENDPOINTS }
    ensures { OnOk result (text.new ≡ with_pieces (right_pieces servers right.now) text.old) }
{
    match right {
        Right::Port(k) => put(
            text,
            &[Piece::Spelled(Token::Port(input_port(servers, *k)))],
        ),
        Right::Constant(word) => put(text, &[Piece::Spelled(Token::Constant(*word))]),
        Right::Not(a) => put(
            text,
            &[
                Piece::Spelled(Token::Sign(Sign::Tilde)),
                Piece::Spelled(Token::Net(*a)),
            ],
        ),
        Right::And(a, b) => put_operation(text, *a, Sign::Ampersand, *b),
        Right::Or(a, b) => put_operation(text, *a, Sign::Bar, *b),
        Right::Xor(a, b) => put_operation(text, *a, Sign::Caret, *b),
        Right::Add(a, b) => put_operation(text, *a, Sign::Plus, *b),
        Right::Sub(a, b) => put_operation(text, *a, Sign::Minus, *b),
        Right::Equal(a, b) => put_operation(text, *a, Sign::DoubleEquals, *b),
        Right::Less(a, b) => put_operation(text, *a, Sign::Less, *b),
        Right::Choose(test, one, other) => put(
            text,
            &[
                Piece::Spelled(Token::Net(*test)),
                Piece::Space,
                Piece::Spelled(Token::Sign(Sign::Question)),
                Piece::Space,
                Piece::Spelled(Token::Net(*one)),
                Piece::Space,
                Piece::Spelled(Token::Sign(Sign::Colon)),
                Piece::Space,
                Piece::Spelled(Token::Net(*other)),
            ],
        ),
        Right::Slice { of, high, low } => put(
            text,
            &[
                Piece::Spelled(Token::Net(*of)),
                Piece::Spelled(Token::Sign(Sign::LeftBracket)),
                Piece::Spelled(Token::Number(*high)),
                Piece::Spelled(Token::Sign(Sign::Colon)),
                Piece::Spelled(Token::Number(*low)),
                Piece::Spelled(Token::Sign(Sign::RightBracket)),
            ],
        ),
        Right::Concat { high, low } => put(
            text,
            &[
                Piece::Spelled(Token::Sign(Sign::LeftBrace)),
                Piece::Spelled(Token::Net(*high)),
                Piece::Spelled(Token::Sign(Sign::Comma)),
                Piece::Space,
                Piece::Spelled(Token::Net(*low)),
                Piece::Spelled(Token::Sign(Sign::RightBrace)),
            ],
        ),
    }
}

/// Adds an operation on two nets: `n0 & n7`.
fn put_operation(text: &mut Octets, a: u32, sign: Sign, b: u32) -> Result<(), NoMemory>
    ensures { OnOk result (text.new ≡ with_pieces (operation a sign b) text.old) }
{
    put(
        text,
        &[
            Piece::Spelled(Token::Net(a)),
            Piece::Space,
            Piece::Spelled(Token::Sign(sign)),
            Piece::Space,
            Piece::Spelled(Token::Net(b)),
        ],
    )
}

/// An input port, by its number among them.
fn input_port(servers: u32, k: u32) -> Port
    requires { servers ≤ SIDE_ENDPOINTS }
    ensures { result ≡ port_of_input servers k }
{
    if k < 2 * servers {
        Port {
            side: PortSide::Server,
            channel: k / 2,
            role: if k % 2 == 0 {
                PortRole::Valid
            } else {
                PortRole::Word
            },
        }
    } else {
        Port {
            side: PortSide::Client,
            channel: k - 2 * servers,
            role: PortRole::Ready,
        }
    }
}
