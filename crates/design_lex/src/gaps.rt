//! Blanks and comments.
ghost use Rattle.std.specs.Prelude.{◌≡◌};
ghost use Rattle.design_lex.specs.Octet as octet;
ghost use Rattle.design_lex.specs.Steps.{SkipsGap};

use crate::octets::is_blank;

fn begins_gap(text: &[u8]) -> bool
    ensures { result ≡ octet.begins_gap text.now }
{
    match text {
        [b'/', b'/', ..] => true,
        [first, ..] => is_blank(*first),
        [] => false,
    }
}

/// How many octets of blanks and comments stand at the front.
pub fn gap_len(text: &[u8]) -> usize
    ensures { SkipsGap text.now result }
{
    let mut within_comment = false;
    for (i, b) in text.iter().enumerate() {
        if within_comment {
            within_comment = *b != b'\n';
        } else if begins_gap(&text[i..]) {
            within_comment = *b == b'/';
        } else {
            return i;
        }
    }
    text.len()
}
