//! Fields of octets in the Protocol Buffers wire format: read one at a time, and written. Source: the
//! Protocol Buffers encoding (protobuf.dev, "Encoding").
#![tactic(auto)]

pub mod field;
pub mod laws;
pub mod limit;
pub mod reading;
pub mod rule;
pub mod varint;
pub mod writing;

pub use field::{WireField, WireRefusal, WireValue};
pub use limit::{GREATEST_FIELD_NUMBER, VARINT_OCTETS};
pub use reading::read_field;
pub use rule::WireRule;
pub use writing::{write_span, write_varint};
