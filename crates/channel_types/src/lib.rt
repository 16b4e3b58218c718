//! Channel types: what a channel carries, how wide it is, and the text of a type (docs/design-text.md).
#![tactic(auto)]

mod copy;
pub mod esi_type;
pub mod limits;
mod names;
pub mod printing;
mod same;
pub mod type_rule;
mod width;

pub use copy::copied;
pub use design_lex::{Class, WIDEST_TYPE};
pub use esi_type::{EsiType, Field};
pub use limits::OPEN_TYPES;
pub use names::names_repeat;
pub use same::{are_same, same_types_law};
pub use type_rule::TypeRule;
pub use width::capped_width;
