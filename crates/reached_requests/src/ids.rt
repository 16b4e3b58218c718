//! The texts of application ids.
ghost use Rattle.std.specs.Prelude.{◌≡◌, ◌∷◌, [], ◌++◌, OnOk, IfOk};
ghost use Rattle.reached_requests.specs.Requests.{id_text, index_text};

use design_tree::ApplicationId;
use esi_base::{List, NoMemory, Octets};
use std::alloc::Global;

/// Between two ids.
const DOT: u8 = b'.';

const _: () = prove!(DOT == 46);

/// The text of an id behind a prefix.
pub fn id_behind(alloc: Global, prefix: &[u8], id: &ApplicationId) -> Result<Octets, NoMemory>
    ensures { IfOk result (λ text. text ≡ prefix.now ++ id_text id.now) }
{
    let mut text = List::from_slice(alloc, prefix)?;
    text.push_all(id.name.octets.as_slice())?;
    push_index(alloc, &mut text, id.index)?;
    Ok(text)
}

/// The same, with a dot behind it.
pub fn prefix_behind(alloc: Global, prefix: &[u8], id: &ApplicationId) -> Result<Octets, NoMemory>
    ensures { IfOk result (λ text. text ≡ prefix.now ++ (id_text id.now ++ 46 ∷ [])) }
{
    let mut text = id_behind(alloc, prefix, id)?;
    text.add(DOT)?;
    Ok(text)
}

/// Adds the index of an id, in brackets, if it has one.
fn push_index(alloc: Global, text: &mut Octets, index: Option<u32>) -> Result<(), NoMemory>
    ensures { OnOk result (text.new ≡ text.old ++ index_text index) }
{
    match index {
        None => Ok(()),
        Some(number) => {
            let digits = number.to_string(alloc)?;
            text.add(b'[')?;
            text.push_all(digits.as_bytes())?;
            text.add(b']')
        }
    }
}
