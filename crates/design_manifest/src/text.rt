//! The text of a manifest.
ghost use Rattle.std.specs.Prelude.{IfOk};
ghost use Rattle.design_manifest.specs.Manifest.{manifest_of, IsManifestText};

use crate::asked::Asked;
use crate::value::manifest;
use esi_base::{List, NoMemory, Octets};
use esi_types::Directory;
use std::alloc::Global;

/// The octet that ends the line of the manifest.
const LINE_FEED: u8 = b'\n';

const _: () = prove!(LINE_FEED == 10);

/// The manifest of a design of this title with these endpoints and these requests: JSON with no blank outside its strings, on
/// one line that a line feed ends. The keys of each object stand in the order of their octets.
pub fn manifest_text(
    alloc: Global,
    title: &[u8],
    directory: &Directory,
    requests: &[Asked],
) -> Result<Octets, NoMemory>
    ensures text { IfOk result (IsManifestText (manifest_of title.now directory.now requests.now)) }
{
    let value = manifest(alloc, title, directory, requests)?;
    let json = value.to_string(alloc)?;
    let mut text = List::new(alloc);
    text.push_all(json.as_bytes())?;
    text.add(LINE_FEED)?;
    Ok(text)
}
