//! Messages of the calls, written.
ghost use Rattle.std.specs.Prelude.{IsTrue};
ghost use Rattle.cosim_msgs.specs.Spelling.{IsWritableList};

use cosim_msgs::{
    AddressedMessage, ChannelDesc, CosimMessage, ListOfChannels, Message, VoidMessage,
};
use esi_base::{List, NoMemory, Octets};
use std::alloc::Global;

/// What each message is written after.
const BEFORE: &[u8] = b"x";

/// The octets of a message: `addressed` with a name and data, `channel` with a name, a direction (none
/// or 01) and a type, `channels` with such channels, `data` with octets, `void`. None where the text
/// names none.
pub fn written(alloc: Global, text: &str) -> Result<Option<String>, NoMemory> {
    let (kind, rest) = text.split_once(" ").unwrap_or((text, ""));
    let Some(items) = octet_texts::items_of(alloc, rest)? else {
        return Ok(None);
    };
    let mut out = Octets::from_slice(alloc, BEFORE)?;
    if !write_kind(alloc, kind, items.as_slice(), &mut out)? {
        return Ok(None);
    }
    Ok(Some(octet_texts::digits_of(alloc, out.as_slice())?))
}

/// Writes the message of a kind with parts; whether there is such a message.
pub fn write_kind(
    alloc: Global,
    kind: &str,
    parts: &[Octets],
    out: &mut Octets,
) -> Result<bool, NoMemory> {
    match (kind, parts) {
        ("addressed", [name, data]) => addressed(alloc, name, data)?.encode(out)?,
        ("channel", [name, direction, ty]) => {
            let channel = channel(alloc, name, direction, ty)?;
            if channel.dir > 1 {
                return Ok(false);
            }
            channel.encode(out)?;
        }
        ("channels", _) => return write_channels(alloc, parts, out),
        ("data", [data]) => Message {
            octets: Octets::from_slice(alloc, data.as_slice())?,
        }
        .encode(out)?,
        ("void", []) => VoidMessage.encode(out)?,
        _ => return Ok(false),
    }
    Ok(true)
}

/// A message for a channel.
pub fn addressed(
    alloc: Global,
    name: &Octets,
    data: &Octets,
) -> Result<AddressedMessage, NoMemory> {
    Ok(AddressedMessage {
        channel_name: Octets::from_slice(alloc, name.as_slice())?,
        message: Message {
            octets: Octets::from_slice(alloc, data.as_slice())?,
        },
    })
}

/// A channel, whose direction is the last octet of what stands for it.
fn channel(
    alloc: Global,
    name: &Octets,
    direction: &Octets,
    ty: &Octets,
) -> Result<ChannelDesc, NoMemory> {
    Ok(ChannelDesc {
        name: Octets::from_slice(alloc, name.as_slice())?,
        dir: u32::from(direction.as_slice().last().copied().unwrap_or(0)),
        ty: Octets::from_slice(alloc, ty.as_slice())?,
    })
}

/// Writes a list of channels, three parts each; whether there are whole channels that may be written.
fn write_channels(alloc: Global, parts: &[Octets], out: &mut Octets) -> Result<bool, NoMemory> {
    let mut channels = List::new(alloc);
    let mut rest = parts;
    for _ in 0..u32::MAX {
        match rest {
            [name, direction, ty, more @ ..] => {
                channels.add(channel(alloc, name, direction, ty)?)?;
                rest = more;
            }
            _ => break,
        }
    }
    let list = ListOfChannels { channels };
    if !rest.is_empty() || !is_writable(&list) {
        return Ok(false);
    }
    list.encode(out)?;
    Ok(true)
}

/// Whether each direction is one of the two.
fn is_writable(list: &ListOfChannels) -> bool
    ensures { IsTrue result → IsWritableList list.now }
{
    list.channels
        .as_slice()
        .iter()
        .all(|channel| channel.dir <= 1)
}
