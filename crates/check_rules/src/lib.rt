//! The rules of a design, by which it is checked once its text was read (docs/design-text.md). Most of this
//! crate is `specs/`: where each rule is broken, and which rule's break is reported. In code there are the
//! rules by name, their limits, and what a reference may refer to.
#![tactic(auto)]

pub mod keys;
pub mod limits;
pub mod referent;
pub mod rule;
mod sources;

pub use limits::{
    LARGEST_DESIGN, MAX_BRANCHES, MAX_DEPTH, MAX_ENDPOINTS, MAX_STAGES, MIN_BRANCHES, MIN_DEPTH,
    MIN_STAGES,
};
pub use referent::{Referent, Resolution};
pub use rule::CheckRule;
pub use sources::operation_sources;
