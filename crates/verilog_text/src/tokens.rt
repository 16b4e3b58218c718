//! Tokens as they are spelled.
ghost use Rattle.std.specs.Prelude.{◌≡◌, ◌++◌, OnOk};
ghost use Rattle.verilog_tokens.specs.Spelling.{spelling, port_text, keyword_text as text_of_keyword, sign_text as text_of_sign, side_letter as letter_of_side, role_word as word_of_role};

use crate::constants::put_constant;
use channel_types::printing::push_number;
use esi_base::{NoMemory, Octets};
use verilog_tokens::{Keyword, Port, PortRole, PortSide, Sign, Token};

/// Adds a token. Tokens that no module is written with add nothing.
pub(crate) fn put_token(text: &mut Octets, token: &Token<'_>) -> Result<(), NoMemory>
    ensures { OnOk result (text.new ≡ text.old ++ spelling token.now) }
{
    match token {
        Token::Keyword(keyword) => text.push_all(keyword_text(*keyword))?,
        Token::Sign(sign) => text.push_all(sign_text(*sign))?,
        Token::Net(net) => {
            text.push_all(b"n")?;
            push_number(text, *net as u128)?;
        }
        Token::Port(port) => put_port(text, *port)?,
        Token::Clock => text.push_all(b"clk")?,
        Token::Reset => text.push_all(b"rst")?,
        Token::Title(title) => {
            text.push_all(b"esi_")?;
            text.push_all(title.octets())?;
        }
        Token::Number(number) => push_number(text, *number as u128)?,
        Token::Constant(word) => put_constant(text, word)?,
        Token::Comment(comment) => {
            text.push_all(b"//")?;
            text.push_all(comment.octets())?;
        }
        Token::Other
        | Token::LeadingZero
        | Token::BadConstant(_)
        | Token::Faulty
        | Token::EndOfText => {}
    }
    Ok(())
}

/// Adds the name of a port: `s0_valid`.
fn put_port(text: &mut Octets, port: Port) -> Result<(), NoMemory>
    ensures { OnOk result (text.new ≡ text.old ++ port_text port) }
{
    text.push_all(side_letter(port.side))?;
    push_number(text, port.channel as u128)?;
    text.push_all(b"_")?;
    text.push_all(role_word(port.role))?;
    Ok(())
}

fn side_letter(side: PortSide) -> &'static [u8]
    ensures { result.now ≡ letter_of_side side }
{
    match side {
        PortSide::Server => b"s",
        PortSide::Client => b"c",
    }
}

fn role_word(role: PortRole) -> &'static [u8]
    ensures { result.now ≡ word_of_role role }
{
    match role {
        PortRole::Valid => b"valid",
        PortRole::Word => b"word",
        PortRole::Ready => b"ready",
    }
}

fn keyword_text(keyword: Keyword) -> &'static [u8]
    ensures { result.now ≡ text_of_keyword keyword }
{
    match keyword {
        Keyword::Module => b"module",
        Keyword::EndModule => b"endmodule",
        Keyword::Input => b"input",
        Keyword::Output => b"output",
        Keyword::Wire => b"wire",
        Keyword::Reg => b"reg",
        Keyword::Assign => b"assign",
        Keyword::Always => b"always",
        Keyword::Posedge => b"posedge",
        Keyword::Begin => b"begin",
        Keyword::End => b"end",
        Keyword::If => b"if",
        Keyword::Else => b"else",
    }
}

fn sign_text(sign: Sign) -> &'static [u8]
    ensures { result.now ≡ text_of_sign sign }
{
    match sign {
        Sign::LeftParenthesis => b"(",
        Sign::RightParenthesis => b")",
        Sign::LeftBracket => b"[",
        Sign::RightBracket => b"]",
        Sign::LeftBrace => b"{",
        Sign::RightBrace => b"}",
        Sign::Comma => b",",
        Sign::Semicolon => b";",
        Sign::Colon => b":",
        Sign::Question => b"?",
        Sign::At => b"@",
        Sign::Tilde => b"~",
        Sign::Ampersand => b"&",
        Sign::Bar => b"|",
        Sign::Caret => b"^",
        Sign::Plus => b"+",
        Sign::Minus => b"-",
        Sign::Equals => b"=",
        Sign::DoubleEquals => b"==",
        Sign::Less => b"<",
        Sign::Becomes => b"<=",
    }
}
