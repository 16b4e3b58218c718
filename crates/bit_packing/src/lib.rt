//! Values of channel types as words of bits, and words as octets.
#![tactic(auto)]

mod fitting;
mod laws;
mod octets;
mod packing;
mod unpacking;
mod value;
mod voids;

pub use fitting::fits;
pub use laws::one_packed_value_law;
pub use octets::{Unpacked, from_octets, to_octets};
pub use packing::pack;
pub use unpacking::unpack;
pub use value::Value;
pub use voids::is_packing;
