//! What the tokens of a design text are to its grammar (docs/design-text.md): their kinds, the refusal
//! of a token that is not wanted, and the readers of one token and of lists, on which all others stand.
#![tactic(auto)]

pub mod kind;
pub mod lists;
pub mod reading;
pub mod rule;
pub mod words;

pub use kind::{Kind, is_same, kind_of};
pub use lists::{Listed, items_after, next_items};
pub use ll1_grammar::TokenRefusal;
pub use reading::TokenStop;
pub use rule::GrammarRule;
