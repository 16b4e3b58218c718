//! What a word is.
ghost use Rattle.std.specs.Prelude.{◌≡◌, map};
ghost use Rattle.std.specs.Str.{bytes_eq};
ghost use Rattle.verilog_lex.specs.Words as spec;

use crate::numbers::index_of;
use crate::octets::digits_len;
use design_lex::Spelling;
use verilog_tokens::{Keyword, Port, PortRole, PortSide, Token};

/// The keywords.
const KEYWORDS: [(&[u8], Keyword); 13] = [
    (b"module", Keyword::Module),
    (b"endmodule", Keyword::EndModule),
    (b"input", Keyword::Input),
    (b"output", Keyword::Output),
    (b"wire", Keyword::Wire),
    (b"reg", Keyword::Reg),
    (b"assign", Keyword::Assign),
    (b"always", Keyword::Always),
    (b"posedge", Keyword::Posedge),
    (b"begin", Keyword::Begin),
    (b"end", Keyword::End),
    (b"if", Keyword::If),
    (b"else", Keyword::Else),
];

/// The keyword that a word is by a table.
fn keyword_in(mut table: &[(&[u8], Keyword)], word: &[u8]) -> Option<Keyword>
    ensures { result ≡ spec.keyword_in (map (λ k. (k.0.now, k.1)) table.entry.now) word.now }
{
    while let [entry, others @ ..] = table {
        if word == entry.0 {
            return Some(entry.1);
        }
        table = others;
    }
    None
}

#[tactic(auto, unfolding(crate::specs::Words::keyword_of))]
fn keyword_of(word: &[u8]) -> Option<Keyword>
    ensures { result ≡ spec.keyword_of word.now }
{
    keyword_in(&KEYWORDS, word)
}

fn is_same(word: &[u8], other: &[u8]) -> bool
    ensures { result ≡ bytes_eq word.now other.now }
{
    word == other
}

/// What stands behind the number of a port.
fn role_of(word: &[u8]) -> Option<PortRole>
    ensures { result ≡ spec.role_of word.now }
{
    if is_same(word, b"_valid") {
        Some(PortRole::Valid)
    } else if is_same(word, b"_word") {
        Some(PortRole::Word)
    } else if is_same(word, b"_ready") {
        Some(PortRole::Ready)
    } else {
        None
    }
}

/// The net whose number these octets are.
fn net_of(digits: &[u8]) -> Option<u32>
    ensures { result ≡ spec.net_of digits.now }
{
    if digits_len(digits) == digits.len() {
        index_of(digits)
    } else {
        None
    }
}

fn port_with(side: PortSide, channel: Option<u32>, role: Option<PortRole>) -> Option<Port>
    ensures { result ≡ spec.port_with side channel role }
{
    match (channel, role) {
        (Some(channel), Some(role)) => Some(Port {
            side,
            channel,
            role,
        }),
        _ => None,
    }
}

/// The port that what stands behind the letter of a side is.
fn port_of(side: PortSide, word: &[u8]) -> Option<Port>
    ensures { result ≡ spec.port_of side word.now }
{
    let len = digits_len(word);
    port_with(side, index_of(&word[..len]), role_of(&word[len..]))
}

fn net_token<'a>(net: Option<u32>) -> Token<'a>
    ensures { result ≡ spec.net_token net }
{
    match net {
        Some(number) => Token::Net(number),
        None => Token::Other,
    }
}

fn port_token<'a>(port: Option<Port>) -> Token<'a>
    ensures { result ≡ spec.port_token port }
{
    match port {
        Some(port) => Token::Port(port),
        None => Token::Other,
    }
}

fn begins_title(word: &[u8]) -> bool
    ensures { result ≡ spec.begins_title word.now }
{
    matches!(word, [b'e', b's', b'i', b'_', ..])
}

/// The token of a word by its first letter.
#[tactic(auto, unfolding(crate::specs::Words::by_letter))]
fn by_letter<'a>(word: &[u8]) -> Token<'a>
    ensures { result ≡ spec.by_letter word.now }
{
    match word {
        [b'n', digits @ ..] => net_token(net_of(digits)),
        [b's', behind @ ..] => port_token(port_of(PortSide::Server, behind)),
        [b'c', behind @ ..] => port_token(port_of(PortSide::Client, behind)),
        _ => Token::Other,
    }
}

fn title_or_name<'a>(word: &'a [u8]) -> Token<'a>
    ensures { result ≡ spec.title_or_name word.entry.now }
{
    if begins_title(word) {
        Token::Title(Spelling::new(&word[4..]))
    } else {
        by_letter(word)
    }
}

/// The token of a word that is no keyword.
#[tactic(auto, unfolding(crate::specs::Words::name_token))]
fn name_token<'a>(word: &'a [u8]) -> Token<'a>
    ensures { result ≡ spec.name_token word.entry.now }
{
    if is_same(word, b"clk") {
        Token::Clock
    } else if is_same(word, b"rst") {
        Token::Reset
    } else {
        title_or_name(word)
    }
}

/// The token that a word is.
#[tactic(auto, unfolding(crate::specs::Words::word_token))]
pub fn word_token<'a>(word: &'a [u8]) -> Token<'a>
    ensures { result ≡ spec.word_token word.entry.now }
{
    match keyword_of(word) {
        Some(keyword) => Token::Keyword(keyword),
        None => name_token(word),
    }
}
