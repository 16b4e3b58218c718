//! Names with the places at which they stand: the first that stands there twice, and where each stands
//! first. All of it takes time in n log n.
#![tactic(auto)]

mod first_place;
pub mod key;
mod repeats;
pub mod table;

pub use first_place::{earlier, least_place_law};
pub use key::{Key, Mark};
pub use repeats::{first_repeat, name_places_law};
pub use table::NameTable;
