//! The token that a text begins with.
ghost use Rattle.std.specs.Prelude.{◌≡◌, ◌<◌, ◌≤◌, IsTrue, length, slice_index};
ghost use Rattle.std.specs.Char.{is_ascii_digit as is_digit};
ghost use Rattle.verilog_lex.specs.Octet as octet;
ghost use Rattle.verilog_lex.specs.Tokens as spec;

use crate::constants::constant_token;
use crate::numbers::number_token;
use crate::octets::{begins_word, digits_len, hex_len, line_len, sign_of, word_len};
use crate::words::word_token;
use design_lex::Spelling;
use verilog_tokens::{Sign, Token};

fn begins_comment(text: &[u8]) -> bool
    ensures { result ≡ octet.begins_comment text.now }
{
    matches!(text, [b'/', b'/', ..])
}

fn begins_base(text: &[u8]) -> bool
    ensures { result ≡ octet.begins_base text.now }
{
    matches!(text, [b'\'', b'h', ..])
}

fn begins_equality(text: &[u8]) -> bool
    ensures { result ≡ octet.begins_equality text.now }
{
    matches!(text, [b'=', b'=', ..])
}

fn begins_assignment(text: &[u8]) -> bool
    ensures { result ≡ octet.begins_assignment text.now }
{
    matches!(text, [b'<', b'=', ..])
}

/// The comment that a text begins with, and the count of its octets.
fn cut_comment<'a>(text: &'a [u8]) -> (Token<'a>, usize)
    requires { IsTrue (octet.begins_comment text.now) }
    ensures { result ≡ spec.cut_comment text.entry.now }
{
    let line = &text[2..];
    let len = line_len(line);
    (Token::Comment(Spelling::new(&line[..len])), 2 + len)
}

/// The constant of a width and the hexadecimal digits at the front, and the count of these.
fn cut_digits<'a>(width: &[u8], text: &[u8]) -> (Token<'a>, usize)
    ensures { result ≡ spec.cut_digits width.now text.now }
{
    let count = hex_len(text);
    (constant_token(width, &text[..count]), count)
}

/// The number or the constant that a text begins with, and the count of its octets.
fn cut_number<'a>(text: &'a [u8]) -> (Token<'a>, usize)
    ensures { result ≡ spec.cut_number text.entry.now }
{
    let len = digits_len(text);
    let behind = &text[len..];
    if begins_base(behind) {
        let (token, count) = cut_digits(&text[..len], &behind[2..]);
        (token, len + 2 + count)
    } else {
        (number_token(&text[..len]), len)
    }
}

fn one_sign<'a>(sign: Option<Sign>) -> (Token<'a>, usize)
    ensures { result ≡ spec.one_sign sign }
{
    match sign {
        Some(sign) => (Token::Sign(sign), 1),
        None => (Token::Faulty, 1),
    }
}

/// The sign that a text begins with, and the count of its octets.
fn cut_sign<'a>(text: &[u8]) -> (Token<'a>, usize)
    requires { 0 < length text.now }
    ensures { result ≡ spec.cut_sign text.now }
{
    if begins_equality(text) {
        (Token::Sign(Sign::DoubleEquals), 2)
    } else if begins_assignment(text) {
        (Token::Sign(Sign::Becomes), 2)
    } else {
        one_sign(sign_of(text[0]))
    }
}

/// The word that a text begins with, and the count of its octets.
fn cut_word<'a>(text: &'a [u8]) -> (Token<'a>, usize)
    ensures { result ≡ spec.cut_word text.entry.now }
{
    let len = word_len(text);
    (word_token(&text[..len]), len)
}

#[tactic(auto, unfolding(crate::specs::Tokens::cut))]
fn cut<'a>(text: &'a [u8]) -> (Token<'a>, usize)
    requires { 0 < length text.now }
    ensures { result ≡ spec.cut text.entry.now }
{
    if begins_comment(text) {
        cut_comment(text)
    } else if begins_word(text[0]) {
        cut_word(text)
    } else if text[0].is_ascii_digit() {
        cut_number(text)
    } else {
        cut_sign(text)
    }
}

/// The token that a text begins with, the longest one, and the count of its octets.
pub fn next_token<'a>(text: &'a [u8]) -> (Token<'a>, usize)
    requires { 0 < length text.now }
    ensures token { result ≡ spec.cut text.entry.now }
    ensures some { 0 < result.1 }
    ensures within { result.1 ≤ length text.entry.now }
{
    cut(text)
}
