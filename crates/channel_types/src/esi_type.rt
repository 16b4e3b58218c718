//! The types of channels.
use design_lex::Class;
use esi_base::Octets;
use sqlite_items::{Boxed, Items};

/// What a channel carries.
#[cycle(types)]
#[derive(Debug, Drop)]
pub enum EsiType {
    /// A number of so many bits, of a class.
    Bits { class: Class, width: u32 },
    /// Nothing but that something came: one bit that is 0.
    Void,
    /// A value for each field, in order.
    Struct(Items<Field>),
    /// So many values of one type.
    Array { item: Boxed<EsiType>, count: u32 },
}

/// A field of a struct.
#[cycle(types)]
#[derive(Debug, Drop)]
pub struct Field {
    /// A name of the design text, of which no other field of the struct has the same.
    pub name: Octets,
    /// What the field carries.
    pub ty: EsiType,
}
