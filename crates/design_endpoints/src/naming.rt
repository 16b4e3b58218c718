//! Endpoints with their names.
ghost use Rattle.std.specs.Prelude.{◌≡◌, ◌++◌, All, IfOk, OnOk, map};
ghost use Rattle.design_endpoints.specs.Endpoints.{endpoint_of_member, ends_of_members, named_in, goes as goes_by, has_good_type};

use design_tree::{Direction, Member};
use esi_base::{List, NoMemory};
use esi_types::Endpoint;
use std::alloc::Global;

/// The octet between an application id and the name of a member.
const DOT: u8 = b'.';

const _: () = prove!(DOT == 46);

/// Adds the endpoints of the members of a request that go this way.
pub(crate) fn add_members(
    alloc: Global,
    way: Direction,
    id: &[u8],
    members: &[Member],
    endpoints: &mut List<Endpoint>,
) -> Result<(), NoMemory>
    requires { All has_good_type members.now }
    ensures { OnOk result (map named_in endpoints.new ≡ map named_in endpoints.old ++ ends_of_members way id.now members.now) }
{
    for member in members {
        if goes(way, member.direction) {
            endpoints.add(endpoint(alloc, id, member)?)?;
        }
    }
    Ok(())
}

/// Whether the two ways are one.
fn goes(way: Direction, other: Direction) -> bool
    ensures { result ≡ goes_by way other }
{
    match way {
        Direction::ToHardware => matches!(other, Direction::ToHardware),
        Direction::FromHardware => matches!(other, Direction::FromHardware),
    }
}

/// The endpoint of a member.
fn endpoint(alloc: Global, id: &[u8], member: &Member) -> Result<Endpoint, NoMemory>
    requires { has_good_type member.now }
    ensures { IfOk result (λ endpoint. named_in endpoint ≡ endpoint_of_member id.now member.now) }
{
    let mut name = List::from_slice(alloc, id)?;
    name.add(DOT)?;
    name.push_all(member.name.octets.as_slice())?;
    let ty = member.ty.copy(alloc)?;
    Ok(Endpoint { name, ty })
}
