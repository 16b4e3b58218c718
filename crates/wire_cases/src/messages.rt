//! Messages of the calls, read.

use crate::{fields, message_texts};
use cosim_msgs::{
    AddressedMessage, ChannelDesc, CosimMessage, ListOfChannels, Message, MsgStop, VoidMessage,
};
use esi_base::NoMemory;
use std::alloc::Global;

/// What octets are as a message of a kind: `addressed`, `channel`, `channels`, `data` or `void`. None
/// where the text names none.
pub fn read(alloc: Global, text: &str) -> Result<Option<String>, NoMemory> {
    let (kind, rest) = text.split_once(" ").unwrap_or((text, ""));
    match octet_texts::octets_of(alloc, rest)? {
        Some(octets) => message_of(alloc, kind, octets.as_slice()),
        None => Ok(None),
    }
}

/// What octets are as a message of a kind; None where there is no such kind.
pub fn message_of(alloc: Global, kind: &str, octets: &[u8]) -> Result<Option<String>, NoMemory> {
    let text = match kind {
        "addressed" => addressed(alloc, octets)?,
        "channel" => channel(alloc, octets)?,
        "channels" => channels(alloc, octets)?,
        "data" => data(alloc, octets)?,
        "void" => void(alloc, octets)?,
        _ => return Ok(None),
    };
    Ok(Some(text))
}

fn addressed(alloc: Global, octets: &[u8]) -> Result<String, NoMemory> {
    match AddressedMessage::decode(alloc, octets) {
        Ok(message) => message_texts::of_addressed(alloc, &message),
        Err(stop) => of_stop(alloc, stop),
    }
}

fn channel(alloc: Global, octets: &[u8]) -> Result<String, NoMemory> {
    match ChannelDesc::decode(alloc, octets) {
        Ok(channel) => message_texts::of_channel(alloc, &channel),
        Err(stop) => of_stop(alloc, stop),
    }
}

fn channels(alloc: Global, octets: &[u8]) -> Result<String, NoMemory> {
    match ListOfChannels::decode(alloc, octets) {
        Ok(list) => message_texts::of_channels(alloc, &list),
        Err(stop) => of_stop(alloc, stop),
    }
}

fn data(alloc: Global, octets: &[u8]) -> Result<String, NoMemory> {
    match Message::decode(alloc, octets) {
        Ok(message) => message_texts::of_data(alloc, &message),
        Err(stop) => of_stop(alloc, stop),
    }
}

fn void(alloc: Global, octets: &[u8]) -> Result<String, NoMemory> {
    match VoidMessage::decode(alloc, octets) {
        Ok(_message) => message_texts::of_void(alloc),
        Err(stop) => of_stop(alloc, stop),
    }
}

/// Why octets are no message.
fn of_stop(alloc: Global, stop: MsgStop) -> Result<String, NoMemory> {
    match stop {
        MsgStop::Refused(refusal) => fields::of_refusal(alloc, refusal),
        MsgStop::NoMemory => Err(NoMemory),
    }
}
