//! The rules at one request.
ghost use Rattle.std.specs.Prelude.{◌≡◌, All, IfOk};
ghost use Rattle.std.specs.List.{list_any};
ghost use Rattle.channel_types.specs.Types.{IsGoodType};
ghost use Rattle.design_endpoints.specs.Endpoints.{has_good_type};
ghost use Rattle.design_endpoints.specs.BindRules.{is_long_name, has_long_text, is_long_text};

use crate::limits::{LONGEST_NAME, LONGEST_TYPE};
use design_tree::Member;
use esi_base::NoMemory;
use esi_types::EsiType;
use std::alloc::Global;

/// Whether the name of some member's endpoint is too long, behind the application id.
pub(crate) fn has_long_name(id: &[u8], members: &[Member]) -> bool
    ensures { result ≡ list_any (is_long_name id.now) members.now }
{
    members.iter().any(|member| is_long(id, member))
}

/// Whether the name of a member's endpoint is too long.
fn is_long(id: &[u8], member: &Member) -> bool
    ensures { result ≡ is_long_name id.now member.now }
{
    id.len() as u128 + 1 + member.name.octets.len() as u128 > LONGEST_NAME as u128
}

/// Whether the text of some member's type is too long.
pub(crate) fn has_long_type(alloc: Global, members: &[Member]) -> Result<bool, NoMemory>
    requires { All has_good_type members.now }
    ensures { IfOk result (λ long. long ≡ list_any has_long_text members.now) }
{
    for member in members {
        if is_long_type(alloc, &member.ty)? {
            return Ok(true);
        }
    }
    Ok(false)
}

/// Whether the text of a type is too long.
fn is_long_type(alloc: Global, ty: &EsiType) -> Result<bool, NoMemory>
    requires { IsGoodType ty.now }
    ensures { IfOk result (λ long. long ≡ is_long_text ty.now) }
{
    let text = ty.print_type(alloc)?;
    Ok(LONGEST_TYPE < text.len())
}
