//! Flow control of one HTTP/2 connection (RFC 9113, sections 5.2 and 6.9): how many octets of DATA may
//! be sent and may still arrive, on each open stream and on the whole connection.
#![tactic(auto)]

mod laws;
mod ledger;
mod limits;
mod stream_windows;

pub use laws::{calls_law, connection_law};
pub use ledger::{FlowFault, Ledger};
pub use limits::{FIRST_WINDOW, GREATEST_WINDOW, OPEN_STREAMS};
pub use stream_windows::StreamWindows;
