//! Variables, and what an expression over them is.
use crate::value_type::ValueType;
use channel_types::EsiType;
use netlist::Formula;

/// A variable of an expression.
#[derive(Clone, Copy, Debug)]
pub struct Variable<'a> {
    /// The octets of its name.
    pub name: &'a [u8],
    /// Its type.
    pub ty: &'a EsiType,
}

/// An expression that fits.
#[derive(Debug, Drop)]
pub struct Typed<'a> {
    /// The offset of its first octet.
    pub at: usize,
    /// Its type.
    pub ty: ValueType<'a>,
    /// What computes its value: variable `i` is the one at index `i` of the variables.
    pub formula: Formula,
}
