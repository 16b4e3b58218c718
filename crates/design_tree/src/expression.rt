//! Expressions, which compute a value from those of variables.
use crate::leaves::{Name, Number};
use crate::operators::Binary;
use channel_types::EsiType;
use esi_base::List;
use sqlite_items::{Boxed, Items};

/// What follows an expression, and takes a part of its value.
#[derive(Debug, Drop)]
pub enum Suffix {
    /// A field of a struct: a dot and its name.
    Field(Name),
    /// An element of an array: its index, in brackets.
    Element(Number),
}

/// An expression.
#[cycle(types)]
#[derive(Debug, Drop)]
pub enum Expression {
    /// The value of a variable.
    Variable(Name),
    /// A part of a value, by one suffix or more: each takes its part of what those before it give. The
    /// tree is no deeper for many suffixes than for one.
    Part {
        /// The expression whose value it is a part of; it has no suffixes of its own.
        of: Boxed<Expression>,
        /// The suffixes, in the text's order, one at least.
        suffixes: List<Suffix>,
    },
    /// A number as a value of a type.
    Literal {
        /// The offset of the first octet of the operator's word.
        at: usize,
        /// The type of the value.
        ty: EsiType,
        /// The number.
        value: Number,
    },
    /// A struct of its fields, or an array of its elements.
    Make {
        /// The offset of the first octet of the operator's word.
        at: usize,
        /// The type of the value. That it is a struct or an array is checked later.
        ty: EsiType,
        /// The fields or the elements, in the text's order, maybe none.
        parts: Items<Expression>,
    },
    /// The same bits as a value of another type.
    Cast {
        /// The offset of the first octet of the operator's word.
        at: usize,
        /// The type of the result.
        ty: EsiType,
        /// The value whose bits they are.
        of: Boxed<Expression>,
    },
    /// Zero extension: a number with zero bits above it, up to a width in bits.
    Zext {
        /// The offset of the first octet of the operator's word.
        at: usize,
        /// The width of the result, in bits.
        width: Number,
        /// The number that is extended.
        of: Boxed<Expression>,
    },
    /// The bits from one index down to another.
    Slice {
        /// The offset of the first octet of the operator's word.
        at: usize,
        /// The index of the highest bit; the lowest bit of a value has the index 0.
        high: Number,
        /// The index of the lowest bit.
        low: Number,
        /// The value whose bits they are.
        of: Boxed<Expression>,
    },
    /// The complement of each bit.
    Not {
        /// The offset of the first octet of the operator's word.
        at: usize,
        /// The value whose bits are complemented.
        of: Boxed<Expression>,
    },
    /// An operator of two operands.
    Binary {
        /// The offset of the first octet of the operator's word.
        at: usize,
        /// Which operator.
        operator: Binary,
        /// The first operand.
        left: Boxed<Expression>,
        /// The second operand.
        right: Boxed<Expression>,
    },
    /// A multiplexer: one of two values, chosen by a bit.
    Mux {
        /// The offset of the first octet of the operator's word.
        at: usize,
        /// The bit.
        condition: Boxed<Expression>,
        /// The value where the bit is 1.
        when_one: Boxed<Expression>,
        /// The value where the bit is 0.
        when_zero: Boxed<Expression>,
    },
}
