//! The limit of types that stand inside one another. That of widths is `WIDEST_TYPE` of `design_lex`.

/// How many types may stand inside one another, the outermost one counted. It bounds how deep calls
/// nest that walk a type, and so the stack that a text of a type costs.
pub const OPEN_TYPES: u32 = 16;

const _: () = prove!(OPEN_TYPES == 16);
