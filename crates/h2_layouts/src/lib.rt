//! The frames of HTTP/2 (RFC 9113), one at a time: their layouts, the rules that they may break, and
//! the frames as octets, read and written.
#![tactic(auto)]

pub mod code;
pub mod context;
mod continuation_frame;
mod data_frame;
pub mod flag;
pub mod frame;
pub mod frame_type;
mod goaway_frame;
pub mod header;
mod headers_frame;
pub mod laws;
pub mod limit;
mod ping_frame;
mod placing;
mod priority_frame;
mod reading;
pub mod role;
mod rst_stream_frame;
pub mod rule;
pub mod setting;
mod settings_frame;
mod window_update_frame;
mod writing;

pub use context::FrameContext;
pub use frame::Frame;
pub use frame_type::FrameType;
pub use header::FrameHeader;
pub use laws::layout_law;
pub use reading::{PayloadStop, read_payload};
pub use role::Role;
pub use rule::FrameRule;
pub use setting::Setting;
pub use writing::{frame_len, is_writable, write_frame};
