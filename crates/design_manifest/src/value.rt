//! The manifest as a JSON value.
ghost use Rattle.std.specs.Prelude.{◌≡◌, ◌++◌, map, IfOk, OnOk};
ghost use Rattle.serde_json.specs.Data.{string};
ghost use Rattle.serde_json.specs.View.{view};
ghost use Rattle.design_manifest.specs.Manifest.{manifest_of, endpoint_of, endpoints_of, request_of, characters};

use crate::asked::Asked;
use esi_base::NoMemory;
use esi_types::{Directory, Endpoint, Side};
use serde_json::{Map, Value, put};
use std::alloc::Global;

/// The version of the manifest.
const VERSION: u64 = 1;

const _: () = prove!(VERSION == 1);

/// The manifest of a design.
pub fn manifest(
    alloc: Global,
    title: &[u8],
    directory: &Directory,
    requests: &[Asked],
) -> Result<Value, NoMemory>
    ensures { IfOk result (λ value. view value ≡ manifest_of title.now directory.now requests.now) }
{
    let mut endpoints = Vec::new(alloc);
    add_endpoints(
        alloc,
        &mut endpoints,
        Side::ToServer,
        directory.to_server.as_slice(),
    )?;
    add_endpoints(
        alloc,
        &mut endpoints,
        Side::ToClient,
        directory.to_client.as_slice(),
    )?;
    let mut asked = Vec::new(alloc);
    for request in requests {
        asked.push(request_value(alloc, request)?)?;
    }
    let mut members = Map::new(alloc);
    put(&mut members, alloc, "design", string(alloc, title)?)?;
    put(&mut members, alloc, "endpoints", Value::Array(endpoints))?;
    put(&mut members, alloc, "requests", Value::Array(asked))?;
    put(&mut members, alloc, "version", Value::from(VERSION))?;
    Ok(Value::Object(members))
}

/// Adds the endpoints of a side.
fn add_endpoints(
    alloc: Global,
    values: &mut Vec<Value>,
    side: Side,
    endpoints: &[Endpoint],
) -> Result<(), NoMemory>
    ensures { OnOk result (map view values.new.items ≡ map view values.old.items ++ endpoints_of side endpoints.now) }
{
    for endpoint in endpoints {
        values.push(endpoint_value(alloc, side, endpoint)?)?;
    }
    Ok(())
}

/// An endpoint: its direction, its name, its type and how many bits that has.
#[tactic(auto, using(esi_types::specs::GoodTypes::good_type_recovers))]
fn endpoint_value(alloc: Global, side: Side, endpoint: &Endpoint) -> Result<Value, NoMemory>
    ensures { IfOk result (λ value. view value ≡ endpoint_of side endpoint.now) }
{
    let direction = match side {
        Side::ToServer => "to_server",
        Side::ToClient => "to_client",
    };
    let ty = endpoint.ty.print_type(alloc)?;
    let mut members = Map::new(alloc);
    put(
        &mut members,
        alloc,
        "dir",
        Value::try_from_str(alloc, direction)?,
    )?;
    put(
        &mut members,
        alloc,
        "name",
        string(alloc, endpoint.name.as_slice())?,
    )?;
    put(&mut members, alloc, "type", string(alloc, ty.as_slice())?)?;
    put(
        &mut members,
        alloc,
        "width",
        Value::from(endpoint.ty.width()),
    )?;
    Ok(Value::Object(members))
}

/// A request: its bundle, its id, its service and port.
fn request_value(alloc: Global, request: &Asked) -> Result<Value, NoMemory>
    ensures { IfOk result (λ value. view value ≡ request_of request.now) }
{
    let mut members = Map::new(alloc);
    put(
        &mut members,
        alloc,
        "bundle",
        string(alloc, request.bundle.as_slice())?,
    )?;
    put(
        &mut members,
        alloc,
        "id",
        string(alloc, request.id.as_slice())?,
    )?;
    put(
        &mut members,
        alloc,
        "service",
        string(alloc, request.service.as_slice())?,
    )?;
    Ok(Value::Object(members))
}

/// The string whose characters have the numbers of the octets.
fn string(alloc: Global, octets: &[u8]) -> Result<Value, NoMemory>
    ensures { IfOk result (λ value. view value ≡ string (characters octets.now)) }
{
    let mut text = String::new(alloc);
    for octet in octets {
        text.push(char::from(*octet))?;
    }
    Ok(Value::String(text))
}
