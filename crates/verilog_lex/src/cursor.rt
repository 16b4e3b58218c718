//! A cursor over the tokens of a text.
ghost use Rattle.std.specs.Prelude.{◌≡◌, ◌≤◌, ◌↔◌, IsTrue, [], length};

use crate::cutting::next_token;
use crate::octets::blanks_len;
use std::marker::Model;
use verilog_tokens::Token;

/// What is left of a text's tokens. Contracts see the list of the lexemes that are left, each a token with its span: the offset of
/// its first octet, and the offset behind its last one.
#[derive(Debug, Drop)]
pub struct Cursor<'a> {
    text: &'a [u8],
    /// The token that comes next, or the end.
    token: Token<'a>,
    begin: usize,
    end: usize,
}

impl<'a> Model for Cursor<'a> {
    ghost use Rattle.std.specs.Prelude.{List, ◌≤◌, length};
    ghost use Rattle.verilog_lex.specs.Tokens.{Lexeme, with_front, tokens, IsCursor};

    ghost Value = { List Lexeme };

    ghost view = { λ c. with_front c.token c.begin c.end (tokens c.text.now c.end) };

    ghost invariant = { λ c. IsCursor c.text.now c.token c.begin c.end };
}

impl<'a> Cursor<'a> {
    ghost use Rattle.verilog_lex.specs.Tokens as spec;

    /// The tokens of a text from an offset on.
    pub fn from_offset(text: &'a [u8], at: usize) -> Cursor<'a>
        requires { at ≤ length text.now }
        ensures { result ≡ spec.tokens text.entry.now at }
    {
        let blanks = blanks_len(&text[at..]);
        let begin = at + blanks;
        if begin == text.len() {
            return Cursor {
                text,
                token: Token::EndOfText,
                begin,
                end: begin,
            };
        }
        let (token, len) = next_token(&text[begin..]);
        Cursor {
            text,
            token,
            begin,
            end: begin + len,
        }
    }

    /// The tokens of a text.
    pub fn new(text: &'a [u8]) -> Cursor<'a>
        ensures { result ≡ spec.tokens text.entry.now 0 }
    {
        Cursor::from_offset(text, 0)
    }

    /// The token that comes next, or the end.
    pub fn peek(&self) -> &Token<'a>
        ensures { result.now ≡ spec.first_token self.now }
    {
        &self.token
    }

    /// Whether no token is left.
    pub fn is_at_end(&self) -> bool
        ensures { IsTrue result ↔ (self.now ≡ []) }
    {
        self.begin == self.end
    }

    /// The offset of the first octet of the token that comes next; None exactly at the end.
    pub fn token_begin(&self) -> Option<usize>
        ensures { result ≡ spec.first_begin self.now }
    {
        if self.begin == self.end {
            None
        } else {
            Some(self.begin)
        }
    }

    /// The offset behind the token that comes next; None exactly at the end.
    pub fn token_end(&self) -> Option<usize>
        ensures { result ≡ spec.first_end self.now }
    {
        if self.begin == self.end {
            None
        } else {
            Some(self.end)
        }
    }

    /// Goes past the token that comes next; at the end it stays there.
    pub fn advance(&mut self)
        ensures { self.new ≡ spec.others self.old }
    {
        if self.begin != self.end {
            *self = Cursor::from_offset(self.text, self.end);
        }
    }
}
