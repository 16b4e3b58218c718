//! What is due where a token stands, and the rule that another token breaks there.
ghost use Rattle.std.specs.Prelude.{◌≡◌};
ghost use Rattle.verilog_rules.specs.Dues as spec;

use crate::rule::ReadingRule;
use verilog_lex::TokenRule;
use verilog_tokens::{Keyword, Sign, Token};

/// What is due.
#[derive(Clone, Copy, Debug, PartialEq, Eq)]
pub enum Due {
    /// One token alone, or one of several, as the grammar has it.
    Token,
    /// The name of the net that is declared next.
    Declaration,
    /// What drives the next net, port or register: `assign`, or its name in the always block.
    Driver,
    /// The name of the net that is driven next, where so many nets are declared.
    Driven(u32),
    /// An operand, where so many nets are declared.
    Operand(u32),
    /// The next port of the module line.
    PortName,
    /// `,` or `)` behind a port of the module line.
    PortEnd,
    /// What follows where all is driven: `always`, `end` or `endmodule`.
    AllDriven,
}

fn by_itself(token: &Token<'_>) -> ReadingRule
    ensures { result ≡ spec.by_itself token.now }
{
    ReadingRule::Token(TokenRule::of(token))
}

/// The rule of a token that is a name or another word, else that of the token itself.
fn as_declaration(token: &Token<'_>) -> ReadingRule
    ensures { result ≡ spec.as_declaration token.now }
{
    match token {
        Token::Keyword(_)
        | Token::Net(_)
        | Token::Port(_)
        | Token::Clock
        | Token::Reset
        | Token::Title(_)
        | Token::Other => ReadingRule::Declaration,
        _ => by_itself(token),
    }
}

/// The rule of any token but the end and a faulty one, where a driver is due.
fn as_driver(token: &Token<'_>) -> ReadingRule
    ensures { result ≡ spec.as_driver token.now }
{
    match TokenRule::of(token) {
        TokenRule::Unexpected => ReadingRule::Driving,
        rule => ReadingRule::Token(rule),
    }
}

fn as_driven(declared: u32, token: &Token<'_>) -> ReadingRule
    ensures { result ≡ spec.as_driven declared token.now }
{
    match token {
        Token::Net(net) => {
            if *net < declared {
                ReadingRule::Driving
            } else {
                ReadingRule::Undeclared
            }
        }
        Token::Title(_) | Token::Other => ReadingRule::Undeclared,
        _ => by_itself(token),
    }
}

/// A net that is declared is told by its width or by its assign, which the token does not know: it is taken as one without an assign.
fn as_operand(declared: u32, token: &Token<'_>) -> ReadingRule
    ensures { result ≡ spec.as_operand declared token.now }
{
    match token {
        Token::Net(net) => {
            if *net < declared {
                ReadingRule::Unassigned
            } else {
                ReadingRule::Undeclared
            }
        }
        Token::Title(_) | Token::Other => ReadingRule::Undeclared,
        _ => by_itself(token),
    }
}

fn as_port_name(token: &Token<'_>) -> ReadingRule
    ensures { result ≡ spec.as_port_name token.now }
{
    match token {
        Token::Port(_) => ReadingRule::EndpointLine,
        _ => by_itself(token),
    }
}

fn as_port_end(token: &Token<'_>) -> ReadingRule
    ensures { result ≡ spec.as_port_end token.now }
{
    match token {
        Token::Sign(Sign::Comma) | Token::Sign(Sign::RightParenthesis) => ReadingRule::EndpointLine,
        _ => by_itself(token),
    }
}

fn as_all_driven(token: &Token<'_>) -> ReadingRule
    ensures { result ≡ spec.as_all_driven token.now }
{
    match token {
        Token::Keyword(Keyword::Assign) => ReadingRule::Driving,
        _ => by_itself(token),
    }
}

impl Due {
    /// The rule that a token breaks which is not what is due. What is wrong with the token itself comes first.
    pub fn broken_by(self, token: &Token<'_>) -> ReadingRule
        ensures { result ≡ spec.broken_by self token.now }
    {
        match self {
            Due::Token => by_itself(token),
            Due::Declaration => as_declaration(token),
            Due::Driver => as_driver(token),
            Due::Driven(declared) => as_driven(declared, token),
            Due::Operand(declared) => as_operand(declared, token),
            Due::PortName => as_port_name(token),
            Due::PortEnd => as_port_end(token),
            Due::AllDriven => as_all_driven(token),
        }
    }
}
