//! What is answered: header lists of replies, and the list of the channels.

use crate::calls::digits_of;
use cosim_msgs::CosimMessage;
use esi_base::{NoMemory, Octets};
use esi_types::Directory;
use grpc_calls::{Reply, channel_list, prefixed, reply_headers};
use std::alloc::Global;

/// The message that ListChannels answers, with its prefix.
pub fn list(alloc: Global, directory: &Directory) -> Result<Option<String>, NoMemory> {
    let list = channel_list(alloc, directory)?;
    let mut message = Octets::new(alloc);
    list.encode(&mut message)?;
    if message.len() > 16_384 {
        return Ok(None);
    }
    let mut out = Octets::new(alloc);
    prefixed(message.as_slice(), &mut out)?;
    Ok(Some(digits_of(alloc, out.as_slice())?))
}

/// The header list of a reply: `http STATUS`, `only STATUS`, `begin`, `trailers STATUS`.
pub fn headers(alloc: Global, text: &str) -> Result<Option<String>, NoMemory> {
    let Some(reply) = reply_of(text) else {
        return Ok(None);
    };
    let headers = reply_headers(alloc, reply)?;
    let mut shown = String::new(alloc);
    for header in headers.as_slice() {
        if !shown.is_empty() {
            shown.push_str(" ")?;
        }
        push_octets(&mut shown, header.name.as_slice())?;
        shown.push_str("=")?;
        push_octets(&mut shown, header.value.as_slice())?;
    }
    Ok(Some(shown))
}

fn reply_of(text: &str) -> Option<Reply> {
    if text == "begin" {
        return Some(Reply::Begin);
    }
    let (kind, status) = text.split_once(" ")?;
    match kind {
        "http" => Some(Reply::Http(status.parse::<u16>().ok()?)),
        "only" => Some(Reply::Only(status.parse::<u8>().ok()?)),
        "trailers" => Some(Reply::Trailers(status.parse::<u8>().ok()?)),
        _ => None,
    }
}

/// Adds octets that are ASCII.
fn push_octets(text: &mut String, octets: &[u8]) -> Result<(), NoMemory> {
    for octet in octets {
        text.push(char::from(*octet))?;
    }
    Ok(())
}
