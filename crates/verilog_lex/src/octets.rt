//! What an octet of a Verilog text may be.
ghost use Rattle.std.specs.Prelude.{◌≡◌, ◌≤◌, length};
ghost use Rattle.std.specs.List.{prefix_len};
ghost use Rattle.std.specs.Char.{is_ascii_digit as is_digit};
ghost use Rattle.verilog_lex.specs.Octet as octet;

use verilog_tokens::Sign;

fn is_blank(b: u8) -> bool
    ensures { result ≡ octet.is_blank b }
{
    b == b' ' || b == b'\n'
}

/// Whether a word may begin with an octet.
pub fn begins_word(b: u8) -> bool
    ensures { result ≡ octet.begins_word b }
{
    b.is_ascii_lowercase() || b.is_ascii_uppercase() || b == b'_'
}

fn is_word_octet(b: u8) -> bool
    ensures { result ≡ octet.is_word_octet b }
{
    begins_word(b) || b.is_ascii_digit()
}

fn is_hex_digit(b: u8) -> bool
    ensures { result ≡ octet.is_hex_digit b }
{
    b.is_ascii_digit() || (b >= b'a' && b <= b'f')
}

/// The sign of one octet.
pub fn sign_of(b: u8) -> Option<Sign>
    ensures { result ≡ octet.sign_of b }
{
    match b {
        b'(' => Some(Sign::LeftParenthesis),
        b')' => Some(Sign::RightParenthesis),
        b'[' => Some(Sign::LeftBracket),
        b']' => Some(Sign::RightBracket),
        b'{' => Some(Sign::LeftBrace),
        b'}' => Some(Sign::RightBrace),
        b',' => Some(Sign::Comma),
        b';' => Some(Sign::Semicolon),
        b':' => Some(Sign::Colon),
        b'?' => Some(Sign::Question),
        b'@' => Some(Sign::At),
        b'~' => Some(Sign::Tilde),
        b'&' => Some(Sign::Ampersand),
        b'|' => Some(Sign::Bar),
        b'^' => Some(Sign::Caret),
        b'+' => Some(Sign::Plus),
        b'-' => Some(Sign::Minus),
        b'=' => Some(Sign::Equals),
        b'<' => Some(Sign::Less),
        _ => None,
    }
}

fn count_blanks(text: &[u8]) -> usize
    ensures { result ≡ prefix_len octet.is_blank text.now }
{
    text.iter().take_while(|b| is_blank(**b)).count()
}

/// How many blanks stand at the front.
pub fn blanks_len(text: &[u8]) -> usize
    ensures count { result ≡ prefix_len octet.is_blank text.now }
    ensures within { result ≤ length text.now }
{
    count_blanks(text)
}

/// How many octets stand before the LF that ends the line, or before the end.
pub fn line_len(text: &[u8]) -> usize
    ensures { result ≡ prefix_len octet.in_line text.now }
{
    text.iter().take_while(|b| **b != b'\n').count()
}

/// How many octets of words stand at the front.
pub fn word_len(text: &[u8]) -> usize
    ensures { result ≡ prefix_len octet.is_word_octet text.now }
{
    text.iter().take_while(|b| is_word_octet(**b)).count()
}

fn count_digits(text: &[u8]) -> usize
    ensures { result ≡ prefix_len is_digit text.now }
{
    text.iter().take_while(|b| b.is_ascii_digit()).count()
}

/// How many decimal digits stand at the front.
pub fn digits_len(text: &[u8]) -> usize
    ensures count { result ≡ prefix_len is_digit text.now }
    ensures within { result ≤ length text.now }
{
    count_digits(text)
}

/// How many hexadecimal digits stand at the front.
pub fn hex_len(text: &[u8]) -> usize
    ensures { result ≡ prefix_len octet.is_hex_digit text.now }
{
    text.iter().take_while(|b| is_hex_digit(**b)).count()
}
