//! Directories of endpoints: `NAMES NAMES NAME`, of those to the server, of those to the client, and the
//! name that is sought; names with commas between them, `-` for none.
ghost use Rattle.std.specs.Prelude.{◌≤◌, length, IfOk};
ghost use Rattle.esi_types.specs.declared.directory.TheConstants.{SIDE_ENDPOINTS};

use esi_base::{List, NoMemory};
use esi_types::{Class, Directory, Endpoint, EsiType, SIDE_ENDPOINTS, Side};
use std::alloc::Global;

/// Where the name is found.
pub fn answer(alloc: Global, text: &str) -> Result<Option<String>, NoMemory> {
    let Some((to_server, rest)) = text.split_once(" ") else {
        return Ok(None);
    };
    let Some((to_client, name)) = rest.split_once(" ") else {
        return Ok(None);
    };
    let directory = Directory {
        to_server: endpoints(alloc, to_server)?,
        to_client: endpoints(alloc, to_client)?,
    };
    let name = if name == "-" { "" } else { name };
    match directory.find(name.as_bytes()) {
        Some((Side::ToServer, index)) => Ok(Some(format!(in alloc; "to the server, {index}")?)),
        Some((Side::ToClient, index)) => Ok(Some(format!(in alloc; "to the client, {index}")?)),
        None => Ok(Some(String::from_str(alloc, "none")?)),
    }
}

/// Endpoints of the names.
fn endpoints(alloc: Global, names: &str) -> Result<List<Endpoint>, NoMemory>
    ensures { IfOk result (λ endpoints. length endpoints ≤ SIDE_ENDPOINTS) }
{
    let mut endpoints = List::new(alloc);
    if names == "-" {
        return Ok(endpoints);
    }
    for name in names.split(",") {
        if endpoints.len() < SIDE_ENDPOINTS {
            endpoints.add(endpoint(alloc, name)?)?;
        }
    }
    Ok(endpoints)
}

/// An endpoint of the name, through which octets go.
fn endpoint(alloc: Global, name: &str) -> Result<Endpoint, NoMemory> {
    Ok(Endpoint {
        name: List::from_slice(alloc, name.as_bytes())?,
        ty: EsiType::Bits {
            class: Class::Unsigned,
            width: 8,
        },
    })
}
