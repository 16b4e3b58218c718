//! Worked turns of a small server, and a reader over the history of each connection. Its definitions stand
//! in `specs/`; here are the laws, which do nothing when they run.
#![tactic(auto)]

pub mod rule;
pub mod turns;

pub use rule::kept_answers_law;
pub use turns::{
    one_value_law, opened_windows_law, reset_while_waiting_law, second_attachment_law,
    shut_windows_law,
};
