//! The limit of expressions that stand inside one another.

/// How many expressions may stand inside one another, the outermost one counted. It bounds how deep calls
/// nest that walk an expression, and so the stack that a text of an expression costs.
pub const OPEN_EXPRESSIONS: u32 = 64;

const _: () = prove!(OPEN_EXPRESSIONS == 64);
