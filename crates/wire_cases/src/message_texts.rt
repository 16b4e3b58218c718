//! Messages of the calls, as text.

use cosim_msgs::{AddressedMessage, ChannelDesc, ListOfChannels, Message};
use esi_base::NoMemory;
use std::alloc::Global;

/// A message with the channel that it is for.
pub fn of_addressed(alloc: Global, message: &AddressedMessage) -> Result<String, NoMemory> {
    let name = octet_texts::text_of(alloc, message.channel_name.as_slice())?;
    let octets = octet_texts::digits_of(alloc, message.message.octets.as_slice())?;
    Ok(format!(in alloc; "channel {name}, data {octets}")?)
}

/// A channel's description.
pub fn of_channel(alloc: Global, channel: &ChannelDesc) -> Result<String, NoMemory> {
    let name = octet_texts::text_of(alloc, channel.name.as_slice())?;
    let direction = channel.dir;
    let ty = octet_texts::text_of(alloc, channel.ty.as_slice())?;
    Ok(format!(in alloc; "name {name}, direction {direction}, type {ty}")?)
}

/// A list of channels.
pub fn of_channels(alloc: Global, list: &ListOfChannels) -> Result<String, NoMemory> {
    let count = list.channels.len();
    let mut text = format!(in alloc; "{count} channels")?;
    for channel in list.channels.as_slice() {
        text.push_str("; ")?;
        let channel = of_channel(alloc, channel)?;
        text.push_str(channel.as_str())?;
    }
    Ok(text)
}

/// The octets of one value.
pub fn of_data(alloc: Global, message: &Message) -> Result<String, NoMemory> {
    let octets = octet_texts::digits_of(alloc, message.octets.as_slice())?;
    Ok(format!(in alloc; "data {octets}")?)
}

/// A message without fields.
pub fn of_void(alloc: Global) -> Result<String, NoMemory> {
    Ok(String::from_str(alloc, "void")?)
}
