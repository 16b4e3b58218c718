//! What goes through a channel.
use esi_base::Word;
use sqlite_items::Items;

/// A value of a channel type.
#[derive(Debug, Drop)]
pub enum Value {
    /// A number, by its bits.
    Number(Word),
    /// The value of `void`.
    Void,
    /// A value for each field of a struct, in order.
    Struct(Items<Value>),
    /// The items of an array, in order.
    Array(Items<Value>),
}
