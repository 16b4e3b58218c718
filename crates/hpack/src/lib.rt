//! Header blocks of HTTP/2 (RFC 7541): a decoder and an encoder, each with its table.
#![tactic(auto)]

mod decoder;
mod dynamic_table;
mod encoder;
mod fields;
mod header;
mod header_list;
mod integer;
mod laws;
mod limits;
mod representation;
mod sought;
mod static_table;
mod stop;
mod string;
mod writing;

pub use decoder::Decoder;
pub use encoder::Encoder;
pub use header::{Header, Headers};
pub use laws::{encoded_block_law, eviction_law, one_answer_law};
pub use limits::{MAX_HEADER_LIST_SIZE, MAX_TABLE_SIZE};
pub use stop::{BlockRule, HpackStop};
