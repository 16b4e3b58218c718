//! Directories of endpoints: `name=type;name=type name=type`, those to the server and those to the client;
//! `-` for none.
ghost use Rattle.std.specs.Prelude.{◌≤◌, length, IfOk, IfSome};
ghost use Rattle.esi_types.specs.declared.directory.TheConstants.{SIDE_ENDPOINTS};

use esi_base::{LONGEST_TEXT, List, NoMemory, Stop};
use esi_types::{Directory, Endpoint, SIDE_ENDPOINTS, parse_type};
use std::alloc::Global;

/// The directory of a text; None where it is none.
pub fn read(alloc: Global, text: &str) -> Result<Option<Directory>, NoMemory> {
    let Some((to_server, to_client)) = text.split_once(" ") else {
        return Ok(None);
    };
    let Some(to_server) = endpoints(alloc, to_server)? else {
        return Ok(None);
    };
    let Some(to_client) = endpoints(alloc, to_client)? else {
        return Ok(None);
    };
    Ok(Some(Directory {
        to_server,
        to_client,
    }))
}

/// The endpoints of one side.
fn endpoints(alloc: Global, text: &str) -> Result<Option<List<Endpoint>>, NoMemory>
    ensures { IfOk result (λ found. IfSome found (λ endpoints. length endpoints ≤ SIDE_ENDPOINTS)) }
{
    let mut endpoints = List::new(alloc);
    if text == "-" {
        return Ok(Some(endpoints));
    }
    for item in text.split(";") {
        let Some(endpoint) = endpoint(alloc, item)? else {
            return Ok(None);
        };
        endpoints.add(endpoint)?;
    }
    if endpoints.len() > SIDE_ENDPOINTS {
        return Ok(None);
    }
    Ok(Some(endpoints))
}

/// An endpoint of a name and a type.
fn endpoint(alloc: Global, item: &str) -> Result<Option<Endpoint>, NoMemory> {
    let Some((name, ty)) = item.split_once("=") else {
        return Ok(None);
    };
    if ty.len() > LONGEST_TEXT {
        return Ok(None);
    }
    match parse_type(alloc, ty.as_bytes()) {
        Ok(ty) => Ok(Some(Endpoint {
            name: List::from_slice(alloc, name.as_bytes())?,
            ty,
        })),
        Err(Stop::Refused(_)) => Ok(None),
        Err(Stop::NoMemory) => Err(NoMemory),
    }
}
