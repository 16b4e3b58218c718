//! The law of readers whose next step may depend on what they have read so far: definitions and lemmas for the readers of other
//! crates, over any type of tokens. Readers are definitions (see `specs/`), so there is no code here but a law of an example.
#![tactic(auto)]

mod law;

pub use law::pairs_law;
