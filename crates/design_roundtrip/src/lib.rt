//! What a design is printed as is read again as that design, apart from offsets (docs/design-text.md). This
//! crate has no code: its laws stand in `specs/`, for the proofs of `esi_text`.
#![tactic(auto)]
