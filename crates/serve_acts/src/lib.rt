//! The acts of a server: what it does at a time, and the questions of a session that are asked of the list
//! of its acts. Its definitions stand in `specs/`; here are the values of which they and the code of a
//! server speak.
#![tactic(auto)]

mod call;
mod decline;
pub mod limits;

pub use call::Call;
pub use decline::Decline;
