//! The laws of serving, of every list of acts that is legal, and so of every schedule. There is no code
//! here but the laws themselves, which do nothing when they run. `S` is what the circuit consists of.
#![tactic(auto)]

pub mod octets;
pub mod order;
pub mod prefix;
pub mod replay;
pub mod replies;
pub mod rings;

pub use octets::every_octet_law;
pub use order::{arrival_law, taken_once_law};
pub use prefix::{prefix_law, stream_function_law};
pub use replay::replay_law;
pub use replies::{ok_law, reply_law};
pub use rings::rings_law;
