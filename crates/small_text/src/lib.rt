//! What the small line texts share: lines and their parts, numbers and octets in hexadecimal.
#![tactic(auto)]

pub mod hexadecimal;
pub mod laws;
pub mod numbers;
pub mod text;

pub use hexadecimal::{push_hex, read_octets};
pub use numbers::read_number;
pub use text::{Line, Lines, Part};
