//! Channel types and endpoints, by the names that the crates above use: what a channel carries, how the
//! text of a type is read and written, the end of a channel, and the directory of a design's endpoints.
#![tactic(auto)]

mod directory;
mod endpoint;

pub use channel_types::{Class, EsiType, Field, OPEN_TYPES, TypeRule, printing};
pub use design_types::{next_type, parse_type, read_type};
pub use directory::{Directory, SIDE_ENDPOINTS, Side};
pub use endpoint::Endpoint;
