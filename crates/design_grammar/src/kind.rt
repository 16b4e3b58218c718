//! The kinds of tokens that the grammar tells apart.
ghost use Rattle.std.specs.Prelude.{◌≡◌, ◌==◌};
ghost use Rattle.ll1_grammar.specs.Kinds.{among};
ghost use Rattle.design_grammar.specs.Kinds as spec;

use crate::words::word_kind;
use design_lex::Token;

/// What a token is to the grammar.
#[derive(Clone, Copy, Debug, PartialEq, Eq)]
pub enum Kind {
    /// A faulty token, or the end of the text.
    Nothing,
    /// A word that is no keyword and no operator.
    Name,
    /// A type word: `ui`, `si` or `i` with a width.
    TypeWord,
    /// The number 1.
    One,
    /// Another number of at most 2^32 - 1.
    Small,
    /// A greater number.
    Great,
    /// The sign `;`.
    Semicolon,
    /// The sign `:`.
    Colon,
    /// The sign `,`.
    Comma,
    /// The sign `.`.
    Dot,
    /// The sign `=`.
    Equals,
    /// The sign `{`.
    OpenBrace,
    /// The sign `}`.
    CloseBrace,
    /// The sign `(`.
    OpenParenthesis,
    /// The sign `)`.
    CloseParenthesis,
    /// The sign `<`.
    Less,
    /// The sign `>`.
    Greater,
    /// The sign `[`.
    OpenBracket,
    /// The sign `]`.
    CloseBracket,
    /// The keyword `esi`.
    Esi,
    /// The keyword `pipe`.
    Pipe,
    /// The keyword `stages`.
    Stages,
    /// The keyword `bundle`.
    Bundle,
    /// The keyword `service`.
    Service,
    /// The keyword `module`.
    Module,
    /// The keyword `top`.
    Top,
    /// The keyword `to_hw`.
    ToHw,
    /// The keyword `from_hw`.
    FromHw,
    /// The keyword `port`.
    Port,
    /// The keyword `in`.
    In,
    /// The keyword `out`.
    Out,
    /// The keyword `request`.
    Request,
    /// The keyword `as`.
    As,
    /// The keyword `implement`.
    Implement,
    /// The keyword `inst`.
    Inst,
    /// The keyword `chan`.
    Chan,
    /// The keyword `drive`.
    Drive,
    /// The keyword `stage`.
    Stage,
    /// The keyword `buffer`.
    Buffer,
    /// The keyword `fifo`.
    Fifo,
    /// The keyword `map`.
    Map,
    /// The keyword `scan`.
    Scan,
    /// The keyword `fork`.
    Fork,
    /// The keyword `join`.
    Join,
    /// The keyword `as_fifo`.
    AsFifo,
    /// The keyword `as_vr`.
    AsVr,
    /// The keyword `void`.
    Void,
    /// The keyword `struct`.
    Struct,
    /// The keyword `array`.
    Array,
    /// The keyword `union`.
    Union,
    /// The operator `lit`.
    Lit,
    /// The operator `make`.
    Make,
    /// The operator `cast`.
    Cast,
    /// The operator `zext`.
    Zext,
    /// The operator `slice`.
    Slice,
    /// The operator `not`.
    Not,
    /// The operator `and`.
    And,
    /// The operator `or`.
    Or,
    /// The operator `xor`.
    Xor,
    /// The operator `add`.
    Add,
    /// The operator `sub`.
    Sub,
    /// The operator `eq`.
    Eq,
    /// The operator `lt`.
    Lt,
    /// The operator `cat`.
    Cat,
    /// The operator `mux`.
    Mux,
}

/// The kind of a number.
fn number_kind(number: u128) -> Kind
    ensures { result ≡ spec.number_kind number }
{
    if number == 1 {
        Kind::One
    } else if number < 0x1_0000_0000 {
        Kind::Small
    } else {
        Kind::Great
    }
}

/// The kind of a sign.
fn sign_kind(octet: u8) -> Kind
    ensures { result ≡ spec.sign_kind octet }
{
    match octet {
        b';' => Kind::Semicolon,
        b':' => Kind::Colon,
        b',' => Kind::Comma,
        b'.' => Kind::Dot,
        b'=' => Kind::Equals,
        b'{' => Kind::OpenBrace,
        b'}' => Kind::CloseBrace,
        b'(' => Kind::OpenParenthesis,
        b')' => Kind::CloseParenthesis,
        b'<' => Kind::Less,
        b'>' => Kind::Greater,
        b'[' => Kind::OpenBracket,
        b']' => Kind::CloseBracket,
        _ => Kind::Nothing,
    }
}

/// The kind of a token, or of the end of the text.
pub fn kind_of(token: &Token<'_>) -> Kind
    ensures { result ≡ spec.kind_of token.now }
{
    match token {
        Token::Word(word) => word_kind(word.octets()),
        Token::TypeWord(_, _) => Kind::TypeWord,
        Token::Number(number) => number_kind(*number),
        Token::Sign(octet) => sign_kind(*octet),
        Token::Faulty(_) | Token::End => Kind::Nothing,
    }
}

/// The number of a kind, as contracts see it.
fn code(kind: Kind) -> u8
    ensures { result ≡ spec.code kind }
{
    kind as u8
}

/// Whether two kinds are one, by their numbers.
pub fn is_same(a: Kind, b: Kind) -> bool
    ensures { result ≡ (spec.code a == spec.code b) }
{
    code(a) == code(b)
}

/// Whether a word of this kind is no name: a keyword or a type word.
pub fn is_reserved(kind: Kind) -> bool
    ensures { result ≡ spec.is_reserved (spec.code kind) }
{
    let code = code(kind);
    code == Kind::TypeWord as u8 || (Kind::Esi as u8 <= code && code <= Kind::Union as u8)
}

/// Whether a word of this kind is a name; operators are not reserved.
pub fn is_name(kind: Kind) -> bool
    ensures { result ≡ among spec.names (spec.code kind) }
{
    matches!(
        kind,
        Kind::Name
            | Kind::Lit
            | Kind::Make
            | Kind::Cast
            | Kind::Zext
            | Kind::Slice
            | Kind::Not
            | Kind::And
            | Kind::Or
            | Kind::Xor
            | Kind::Add
            | Kind::Sub
            | Kind::Eq
            | Kind::Lt
            | Kind::Cat
            | Kind::Mux
    )
}

/// Whether a word of this kind is an operator of two operands.
pub fn is_binary(kind: Kind) -> bool
    ensures { result ≡ among spec.binaries (spec.code kind) }
{
    matches!(
        kind,
        Kind::And | Kind::Or | Kind::Xor | Kind::Add | Kind::Sub | Kind::Eq | Kind::Lt | Kind::Cat
    )
}
