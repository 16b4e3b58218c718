//! What every crate of the project stands on: places in a text, refusals, out of memory, lists, queues
//! of octets and words of bits.
#![tactic(auto)]

pub mod limits;
pub mod list;
pub mod octet_queue;
pub mod place;
pub mod poll;
pub mod stop;
pub mod word;

pub use limits::LONGEST_TEXT;
pub use list::{List, Octets};
pub use octet_queue::OctetQueue;
pub use place::{Place, Refusal};
pub use poll::Poll;
pub use stop::{NoMemory, Stop};
pub use word::Word;
