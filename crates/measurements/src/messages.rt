//! Messages of the Protocol Buffers encoding.
use cosim_msgs::{AddressedMessage, CosimMessage, ListOfChannels};
use esi_base::Octets;
use std::alloc::Global;

/// Reads octets as an AddressedMessage so often, and gives the octets of its message.
pub fn read_message(alloc: Global, rounds: u32, octets: &[u8]) -> Option<usize> {
    let mut made = 0;
    for _ in 0..rounds {
        let addressed = AddressedMessage::decode(alloc, octets).ok()?;
        made = addressed.message.octets.len();
    }
    Some(made)
}

/// Reads octets as an AddressedMessage, writes it so often, and gives the octets written.
pub fn write_message(alloc: Global, rounds: u32, octets: &[u8]) -> Option<usize> {
    let addressed = AddressedMessage::decode(alloc, octets).ok()?;
    let mut out = Octets::new(alloc);
    for _ in 0..rounds {
        out.truncate(0);
        addressed.encode(&mut out).ok()?;
    }
    Some(out.len())
}

/// Reads octets as a ListOfChannels so often, and gives the count of its channels.
pub fn read_list(alloc: Global, rounds: u32, octets: &[u8]) -> Option<usize> {
    let mut made = 0;
    for _ in 0..rounds {
        let list = ListOfChannels::decode(alloc, octets).ok()?;
        made = list.channels.len();
    }
    Some(made)
}
