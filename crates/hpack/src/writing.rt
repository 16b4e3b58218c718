//! Integers and strings, as an encoder writes them.
ghost use Rattle.std.specs.Prelude.{◌≡◌, ◌<◌, ◌^◌, ◌+◌, ◌++◌, length, OnOk, OnErr};
ghost use Rattle.hpack.specs.Extends.{Extends};
ghost use Rattle.hpack.specs.Integers.{full_prefix};
ghost use Rattle.hpack.specs.Encoding.{groups_of, integer_with, text_of};

use crate::integer::full_prefix;
use crate::limits::{CODED_MARK, PLAIN_MARK, STRING_BITS};
use esi_base::{NoMemory, Octets};
use hpack_huffman::{huff_encode, huff_len};

/// An integer in a prefix of so many bits, below a mark (RFC 7541, section 5.1).
pub(crate) fn write_marked(mark: u8, bits: u32, n: u32, out: &mut Octets) -> Result<(), NoMemory>
    requires narrow { bits < 8 }
    requires room { mark + full_prefix bits < 2 ^ 8 }
    ensures written { OnOk result (out.new ≡ out.old ++ integer_with mark bits n) }
    ensures extends { OnErr result (Extends out.old out.new) }
{
    let full = full_prefix(bits);
    if n < u32::from(full) {
        return out.add(mark + n as u8);
    }
    out.add(mark + full)?;
    write_groups(n - u32::from(full), out)
}

/// A string, Huffman coded where that takes fewer octets (section 5.2).
pub(crate) fn write_text(text: &[u8], out: &mut Octets) -> Result<(), NoMemory>
    requires { length text.now < 2 ^ 32 }
    ensures written { OnOk result (out.new ≡ out.old ++ text_of text.now) }
    ensures extends { OnErr result (Extends out.old out.new) }
{
    let count = huff_len(text);
    if count < text.len() {
        write_marked(CODED_MARK, STRING_BITS, count as u32, out)?;
        huff_encode(text, out)
    } else {
        write_marked(PLAIN_MARK, STRING_BITS, text.len() as u32, out)?;
        Ok(out.push_all(text)?)
    }
}

/// Seven bits an octet, the least significant first.
fn write_groups(n: u32, out: &mut Octets) -> Result<(), NoMemory>
    ensures written { OnOk result (out.new ≡ out.old ++ groups_of 4 n) }
    ensures extends { OnErr result (Extends out.old out.new) }
{
    let mut rest = n;
    while rest >= 128 {
        match out.add(128 + (rest % 128) as u8) {
            Ok(()) => rest /= 128,
            Err(NoMemory) => return Err(NoMemory),
        }
    }
    out.add(rest as u8)
}
