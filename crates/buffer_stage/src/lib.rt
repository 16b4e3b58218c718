//! The nets of any part, pass by pass as lowering makes them: registers, forward nets, backward nets, next nets.
#![tactic(auto)]

mod backward;
mod forward;
pub mod laid;
mod laws;
mod next;
mod registers;

pub use backward::emit_backward;
pub use forward::emit_forward;
pub use laid::{Laid, Wire};
pub use laws::good_parts_go;
pub use next::emit_next;
pub use registers::emit_registers;
