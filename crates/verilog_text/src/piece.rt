//! A piece of the text of a module.

use verilog_tokens::Token;

/// A piece of a text: a token, or a blank.
#[derive(Debug, Drop)]
pub enum Piece<'a> {
    /// One space between two tokens.
    Space,
    /// The two spaces by which a line is indented, once for each block around it.
    Indent,
    /// The end of a line.
    LineEnd,
    /// A token, as it is spelled.
    Spelled(Token<'a>),
}
