//! What the files in memory share: texts by name, and the reading of a piece of one.
ghost use Rattle.std.specs.Prelude.{◌≡◌, ◌-◌, Some, length, take, drop, min, OnOk, OnErr};
ghost use Rattle.std.specs.BTreeMap.{get_by_text};
ghost use Rattle.esi_links.specs.Texts.{SameTexts, SameElsewhere};

use esi_base::{NoMemory, Octets};
use std::alloc::Global;
use std::collections::BTreeMap;

/// Texts by name.
pub(crate) type Held = BTreeMap<String, Octets>;

/// Puts a text under a name, in place of an older one. Where it runs out of memory the texts
/// stay.
pub(crate) fn hold_text(
    alloc: Global,
    held: &mut Held,
    name: &str,
    octets: &[u8],
) -> Result<(), NoMemory>
    ensures held { OnOk result (get_by_text held.new name.now ≡ Some octets.now) }
    ensures elsewhere { SameElsewhere name.now (get_by_text held.old) (get_by_text held.new) }
    ensures refused { OnErr result (SameTexts (get_by_text held.old) (get_by_text held.new)) }
{
    let key = String::from_str(alloc, name)?;
    let text = Octets::from_slice(alloc, octets)?;
    held.insert(key, text)?;
    Ok(())
}

/// Copies the octets of a text from an offset on to a piece, as far as there is room, and answers
/// how many they are. The rest of the piece stays.
pub(crate) fn copy_piece(text: &[u8], at: u64, into: &mut [u8]) -> usize
    ensures count { result ≡ min (length into.old) (length text.now - at) }
    ensures copied { take result into.new ≡ take result (drop at text.now) }
    ensures rest { drop result into.new ≡ drop result into.old }
{
    let at = (at as usize).min(text.len());
    let count = into.len().min(text.len() - at);
    into[..count].copy_from_slice(&text[at..at + count]);
    count
}
