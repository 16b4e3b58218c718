//! The types of the channels of a body, along its element order, and the first place at which a type does
//! not fit (docs/design-text.md).
#![tactic(auto)]

mod body;
mod declared_types;
mod expressions;
mod joins;
mod known_types;
mod laws;
pub mod limits;
pub mod made_element;
mod nesting;
mod operations;
pub mod origin;
pub mod own_type;
pub mod slot;
pub mod source_type;
mod sources;
mod statements;
pub mod typed_element;

pub use body::type_body;
pub use laws::{body_law, listed_law, operation_law};
pub use limits::GREATEST_COUNT;
pub use typed_element::TypedElement;
