//! The manifest of a design: what it is called, its endpoints and its requests, as JSON (docs/manifest.md).
#![tactic(auto)]

mod asked;
mod text;
mod value;

pub use asked::Asked;
pub use text::manifest_text;
