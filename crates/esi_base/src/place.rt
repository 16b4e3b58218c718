//! Where a text was refused, and by which rule.
ghost use Rattle.std.specs.Prelude.{◌≡◌, ◌≤◌, ◌<◌, ◌-◌, ◌^◌, length};

/// A place in a text. Line and column count from 1, and a column counts octets.
#[derive(Clone, Copy, Debug, PartialEq, Eq)]
pub struct Place {
    /// The line, from 1.
    pub line: u32,
    /// The column in the line, in octets, from 1.
    pub column: u32,
}

impl Place {
    ghost use Rattle.esi_base.specs.Places.{place_at};

    /// The place of the octet at an offset of a text, or of the text's end. It takes one walk over
    /// the octets before it.
    pub fn at_offset(text: &[u8], at: usize) -> Place
        requires within { at ≤ length text.now }
        requires small { length text.now < 2 ^ 32 - 1 }
        ensures { result ≡ place_at text.now at }
    {
        let mut line: u32 = 1;
        let mut column: u32 = 1;
        for octet in &text[..at] {
            if *octet == b'\n' {
                line += 1;
                column = 1;
            } else {
                column += 1;
            }
        }
        Place { line, column }
    }
}

/// A text is refused: the number of the rule that it breaks, and where.
#[derive(Clone, Copy, Debug, PartialEq, Eq)]
pub struct Refusal {
    /// The rule's number.
    pub number: u16,
    /// Where the text breaks it.
    pub place: Place,
}
