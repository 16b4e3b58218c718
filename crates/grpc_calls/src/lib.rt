//! The calls of the service `esi.cosim.ChannelServer`: what a call asks for, the header lists of replies,
//! and the messages of a stream, each of which stands after a prefix of five octets ("gRPC over HTTP/2").
#![tactic(auto)]

mod asking;
mod deframer;
mod fields;
mod judging;
mod laws;
mod listing;
mod prefix;
mod procedure;
mod reply;
pub mod status;

pub use asking::{Asking, CallRule};
pub use deframer::{DeframeStop, Deframer};
pub use judging::classify;
pub use laws::{any_cutting_law, deframer_law, one_stream_law, prefixed_law, refusal_law};
pub use listing::channel_list;
pub use prefix::prefixed;
pub use procedure::Procedure;
pub use reply::{Reply, reply_headers};
