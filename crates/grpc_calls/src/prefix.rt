//! The prefix of a message: the Compressed-Flag, an octet that is 0 where the message is not
//! compressed, and the Message-Length, four octets, the most significant first.
ghost use Rattle.std.specs.Prelude.{◌≡◌, ◌<◌, ◌^◌, ◌++◌, length, OnOk, OnErr};
ghost use Rattle.grpc_calls.specs.Messages.{prefixed_of};
ghost use Rattle.grpc_calls.specs.Front.{front_of};

use esi_base::{NoMemory, Octets};

/// How many octets a prefix has: one of the flag, four of the length.
pub(crate) const PREFIX_OCTETS: usize = 5;

const _: () = prove!(PREFIX_OCTETS == 5);

/// The flag of a message that is not compressed, and that of one that is; there is no other.
pub(crate) const NOT_COMPRESSED: u8 = 0;

const _: () = prove!(NOT_COMPRESSED == 0);

pub(crate) const COMPRESSED: u8 = 1;

const _: () = prove!(COMPRESSED == 1);

/// What stands first in octets of a stream.
#[derive(Clone, Copy, Debug, PartialEq, Eq)]
pub(crate) enum Front {
    /// A whole message of so many octets, after its prefix.
    Whole(usize),
    /// A prefix whose flag is not 0.
    Compressed,
    /// A prefix with the flag 0, whose length passes the limit.
    TooLong,
    /// Less than a message.
    Unfinished,
}

/// What stands first in octets, for messages of at most `limit` octets: the flag is checked first, then
/// the length, both as soon as the five octets of a prefix stand.
pub(crate) fn read_front(limit: u32, octets: &[u8]) -> Front
    ensures { result ≡ front_of limit octets.now }
{
    let [flag, a, b, c, d, rest @ ..] = octets else {
        return Front::Unfinished;
    };
    if *flag != NOT_COMPRESSED {
        return Front::Compressed;
    }
    let count = u32::from_be_bytes([*a, *b, *c, *d]);
    if limit < count {
        return Front::TooLong;
    }
    let count = count as usize;
    if rest.len() < count {
        return Front::Unfinished;
    }
    Front::Whole(count)
}

/// Appends a message of fewer than 2^32 octets with its prefix: the flag 0, the length in four
/// octets, the most significant first, and the message. It fails only when it runs out of memory, and
/// then leaves `out` as it was.
pub fn prefixed(message: &[u8], out: &mut Octets) -> Result<(), NoMemory>
    requires { length message.now < 2 ^ 32 }
    ensures appended { OnOk result (out.new ≡ out.old ++ prefixed_of message.now) }
    ensures unchanged { OnErr result (out.new ≡ out.old) }
{
    let before = out.len();
    let [a, b, c, d] = (message.len() as u32).to_be_bytes();
    out.push_all(&[NOT_COMPRESSED, a, b, c, d])?;
    if out.push_all(message).is_err() {
        out.truncate(before);
        return Err(NoMemory);
    }
    Ok(())
}
