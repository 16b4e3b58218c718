//! What an octet of a design text may be.
ghost use Rattle.std.specs.Prelude.{◌≡◌};
ghost use Rattle.std.specs.List.{prefix_len};
ghost use Rattle.std.specs.Char.{is_ascii_digit as is_digit};
ghost use Rattle.design_lex.specs.Octet as octet;

/// Whether an octet is space, tab, CR or LF.
pub fn is_blank(b: u8) -> bool
    ensures { result ≡ octet.is_blank b }
{
    b == b' ' || b == b'\t' || b == b'\r' || b == b'\n'
}

/// Whether a word may begin with an octet.
pub fn begins_word(b: u8) -> bool
    ensures { result ≡ octet.begins_word b }
{
    b.is_ascii_lowercase() || b.is_ascii_uppercase() || b == b'_'
}

fn is_word_octet(b: u8) -> bool
    ensures { result ≡ octet.is_word_octet b }
{
    begins_word(b) || b.is_ascii_digit()
}

fn is_hex_digit(b: u8) -> bool
    ensures { result ≡ octet.is_hex_digit b }
{
    b.is_ascii_digit() || (b >= b'a' && b <= b'f')
}

/// Whether an octet is a sign.
pub fn is_sign(b: u8) -> bool
    ensures { result ≡ octet.is_sign b }
{
    matches!(
        b,
        b';' | b':' | b',' | b'.' | b'=' | b'{' | b'}' | b'(' | b')' | b'<' | b'>' | b'[' | b']'
    )
}

/// How many octets of words stand at the front.
pub fn word_len(text: &[u8]) -> usize
    ensures { result ≡ prefix_len octet.is_word_octet text.now }
{
    text.iter().take_while(|b| is_word_octet(**b)).count()
}

/// How many decimal digits stand at the front.
pub fn digits_len(text: &[u8]) -> usize
    ensures { result ≡ prefix_len is_digit text.now }
{
    text.iter().take_while(|b| b.is_ascii_digit()).count()
}

/// How many hexadecimal digits stand at the front.
pub fn hex_len(text: &[u8]) -> usize
    ensures { result ≡ prefix_len octet.is_hex_digit text.now }
{
    text.iter().take_while(|b| is_hex_digit(**b)).count()
}
