//! What all of the code stands on, as contracts of functions that do nothing.
ghost use Rattle.hpack_huffman.specs.Laws.{OneCode, OneText, ReadAgain};

/// What is written for a text is read as that text.
pub fn code_is_read_again_law()
    ensures { ReadAgain }
{}

/// Octets are the code of at most one text.
pub fn one_text_law()
    ensures { OneText }
{}

/// A text has one code: no other octets stand for it.
pub fn one_code_law()
    ensures { OneCode }
{}
