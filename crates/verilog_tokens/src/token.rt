//! What a token is.

use design_lex::Spelling;
use esi_base::Word;

/// A keyword.
#[derive(Clone, Copy, Debug, PartialEq, Eq)]
pub enum Keyword {
    /// `module`
    Module,
    /// `endmodule`
    EndModule,
    /// `input`
    Input,
    /// `output`
    Output,
    /// `wire`
    Wire,
    /// `reg`
    Reg,
    /// `assign`
    Assign,
    /// `always`
    Always,
    /// `posedge`
    Posedge,
    /// `begin`
    Begin,
    /// `end`
    End,
    /// `if`
    If,
    /// `else`
    Else,
}

/// A sign, of one octet or two.
#[derive(Clone, Copy, Debug, PartialEq, Eq)]
pub enum Sign {
    /// `(`
    LeftParenthesis,
    /// `)`
    RightParenthesis,
    /// `[`
    LeftBracket,
    /// `]`
    RightBracket,
    /// `{`
    LeftBrace,
    /// `}`
    RightBrace,
    /// `,`
    Comma,
    /// `;`
    Semicolon,
    /// `:`
    Colon,
    /// `?`
    Question,
    /// `@`
    At,
    /// `~`
    Tilde,
    /// `&`
    Ampersand,
    /// `|`
    Bar,
    /// `^`
    Caret,
    /// `+`
    Plus,
    /// `-`
    Minus,
    /// `=`
    Equals,
    /// `==`
    DoubleEquals,
    /// `<`
    Less,
    /// `<=`, the nonblocking assignment
    Becomes,
}

/// The side of a port: which endpoint it belongs to.
#[derive(Clone, Copy, Debug, PartialEq, Eq)]
pub enum PortSide {
    /// `s`, a to-server endpoint
    Server,
    /// `c`, a to-client endpoint
    Client,
}

/// Which of the three ports of an endpoint it is.
#[derive(Clone, Copy, Debug, PartialEq, Eq)]
pub enum PortRole {
    /// `valid`
    Valid,
    /// `word`
    Word,
    /// `ready`
    Ready,
}

/// A port of an endpoint, as its name has it: `s0_valid`.
#[derive(Clone, Copy, Debug, PartialEq, Eq)]
pub struct Port {
    /// The letter in front.
    pub side: PortSide,
    /// The number of the endpoint on its side, from 0.
    pub channel: u32,
    /// The word behind `_`.
    pub role: PortRole,
}

/// Why a constant is none.
#[derive(Clone, Copy, Debug, PartialEq, Eq)]
pub enum ConstantFault {
    /// Its width is 0 or above `WORD_BITS`.
    Width,
    /// It has another count of digits than ceil(width / 4), or does not fit its width.
    Digits,
}

/// A token of the Verilog text that is written and read here (IEEE 1364, section 3, as far as the
/// subset goes). A comment is a token, and so is a place where no token begins.
#[derive(Debug, Drop)]
pub enum Token<'a> {
    /// A keyword.
    Keyword(Keyword),
    /// A sign.
    Sign(Sign),
    /// The name of a net: `n` and its number, which has no leading zero and is below 2^32.
    Net(u32),
    /// The name of a port of an endpoint. The endpoint's number has no leading zero and is below 2^32.
    Port(Port),
    /// `clk`
    Clock,
    /// `rst`
    Reset,
    /// A word that begins with `esi_`, by the octets behind that.
    Title(Spelling<'a>),
    /// Any other word.
    Other,
    /// A decimal number without leading zeros. 2^32 - 1 stands for every greater one too.
    Number(u32),
    /// A number, or the width of a constant, with a leading zero.
    LeadingZero,
    /// A constant, `W'hDIGITS`.
    Constant(Word),
    /// `W'hDIGITS` that is no constant.
    BadConstant(ConstantFault),
    /// A comment, by the octets behind `//`. It ends before the LF, or where the text ends.
    Comment(Spelling<'a>),
    /// An octet that begins no token.
    Faulty,
    /// The end of the text, which a cursor reports behind the last token.
    EndOfText,
}
