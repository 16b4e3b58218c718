//! The tokens of a design text, and a cursor over them: what every reader of such a text stands on.
#![tactic(auto)]

pub mod cursor;
mod cutting;
mod digits;
mod gaps;
pub mod law;
pub mod limits;
mod octets;
pub mod token;

pub use cursor::Cursor;
pub use law::tokens_law;
pub use limits::{LONGEST_WORD, TOO_WIDE, WIDEST_TYPE};
pub use token::{Class, LexicalRule, Spelling, Token};
