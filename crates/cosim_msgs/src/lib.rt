//! The five messages of the calls, as octets of the Protocol Buffers encoding (docs/messages.md).
#![tactic(auto)]

pub mod addressed_message;
pub mod channel_desc;
pub mod cosim_message;
pub mod data_message;
pub mod list_of_channels;
mod octet_range;
mod values;
pub mod void_message;
mod writing;

pub use addressed_message::AddressedMessage;
pub use channel_desc::ChannelDesc;
pub use cosim_message::{CosimMessage, MsgStop};
pub use data_message::Message;
pub use list_of_channels::ListOfChannels;
pub use void_message::VoidMessage;
