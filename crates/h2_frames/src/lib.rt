//! The frames of an HTTP/2 connection (RFC 9113), read from octets that arrive in any pieces, and written.
#![tactic(auto)]

mod front;
mod laws;
mod preface;
mod reader;

pub use h2_layouts::{Frame, Role, Setting, frame_len, is_writable, write_frame};
pub use laws::{any_cutting_law, fault_law, one_stream_law, reader_law, written_law};
pub use reader::{FrameReader, FrameStop};
