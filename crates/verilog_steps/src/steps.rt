//! One token that is due.
ghost use Rattle.std.specs.Prelude.{◌≡◌, OnErr};
ghost use Rattle.verilog_steps.specs.Steps as spec;

use ll1_grammar::TokenRefusal;
use verilog_lex::Cursor;
use verilog_rules::Due;
use verilog_tokens::{Keyword, Sign, Token};

fn keyword_code(keyword: Keyword) -> u8
    ensures { result ≡ spec.keyword_code keyword }
{
    keyword as u8
}

fn sign_code(sign: Sign) -> u8
    ensures { result ≡ spec.sign_code sign }
{
    sign as u8
}

fn is_keyword(keyword: Keyword, token: &Token<'_>) -> bool
    ensures { result ≡ spec.is_keyword keyword token.now }
{
    match token {
        Token::Keyword(found) => keyword_code(*found) == keyword_code(keyword),
        _ => false,
    }
}

fn is_sign(sign: Sign, token: &Token<'_>) -> bool
    ensures { result ≡ spec.is_sign sign token.now }
{
    match token {
        Token::Sign(found) => sign_code(*found) == sign_code(sign),
        _ => false,
    }
}

fn is_net(net: u32, token: &Token<'_>) -> bool
    ensures { result ≡ spec.is_net net token.now }
{
    match token {
        Token::Net(found) => *found == net,
        _ => false,
    }
}

fn is_number(number: u32, token: &Token<'_>) -> bool
    ensures { result ≡ spec.is_number number token.now }
{
    match token {
        Token::Number(found) => *found == number,
        _ => false,
    }
}

/// The refusal of the token that comes next, where something else is due.
pub fn refusal(cursor: &Cursor<'_>, due: Due) -> TokenRefusal
    ensures { result ≡ spec.refusal due cursor.now }
{
    TokenRefusal {
        number: due.broken_by(cursor.peek()).number(),
        at: cursor.token_begin(),
    }
}

fn pass(cursor: &mut Cursor<'_>, due: Due, is_due: bool) -> Result<(), TokenRefusal>
    ensures reads { spec.Answers (spec.pass due is_due cursor.old) result cursor.new }
    ensures stays { OnErr result (cursor.new ≡ cursor.old) }
{
    if !is_due {
        return Err(refusal(cursor, due));
    }
    cursor.advance();
    Ok(())
}

/// A keyword.
pub fn keyword(cursor: &mut Cursor<'_>, due: Due, word: Keyword) -> Result<(), TokenRefusal>
    ensures reads { spec.Answers (spec.keyword due word cursor.old) result cursor.new }
    ensures stays { OnErr result (cursor.new ≡ cursor.old) }
{
    let is_due = is_keyword(word, cursor.peek());
    pass(cursor, due, is_due)
}

/// A sign.
pub fn sign(cursor: &mut Cursor<'_>, due: Due, mark: Sign) -> Result<(), TokenRefusal>
    ensures reads { spec.Answers (spec.sign due mark cursor.old) result cursor.new }
    ensures stays { OnErr result (cursor.new ≡ cursor.old) }
{
    let is_due = is_sign(mark, cursor.peek());
    pass(cursor, due, is_due)
}

/// The name of a net, by its number.
pub fn net(cursor: &mut Cursor<'_>, due: Due, named: u32) -> Result<(), TokenRefusal>
    ensures reads { spec.Answers (spec.net due named cursor.old) result cursor.new }
    ensures stays { OnErr result (cursor.new ≡ cursor.old) }
{
    let is_due = is_net(named, cursor.peek());
    pass(cursor, due, is_due)
}

/// A number, by its value.
pub fn number(cursor: &mut Cursor<'_>, due: Due, value: u32) -> Result<(), TokenRefusal>
    ensures reads { spec.Answers (spec.number due value cursor.old) result cursor.new }
    ensures stays { OnErr result (cursor.new ≡ cursor.old) }
{
    let is_due = is_number(value, cursor.peek());
    pass(cursor, due, is_due)
}
