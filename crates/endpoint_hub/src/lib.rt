//! The rings between the endpoints of a design and its circuit, the journal of a session, and what a
//! cycle does to both.
#![tactic(auto)]

mod hub;
mod journal;
mod laws;
mod limits;
mod ring;

pub use cycle_rules::{RING_VALUES, SESSION_VALUES};
pub use hub::{AttachStop, Hub, PutStop};
pub use journal::{Attachment, Handed, Journal, Report, Taken};
pub use laws::{cycle_law, new_rings_law, rings_law};
pub use limits::SIDE_CHANNELS;
