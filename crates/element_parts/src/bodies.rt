//! What stands for the elements of a design.
ghost use Rattle.std.specs.Prelude.{◌≡◌, map};
ghost use Rattle.esi_base.specs.Answers.{Reads};
ghost use Rattle.channel_typing.specs.Misfits.{misfits};
ghost use Rattle.channel_typing.specs.Walk.{first_or};
ghost use Rattle.design_scopes.specs.Resolving.{scope_in};
ghost use Rattle.element_parts.specs.Listing.{no_parts, parts_of};
ghost use Rattle.element_parts.specs.Walk.{bodies_added};

use crate::body::add_body;
use crate::design_parts::DesignParts;
use design_scopes::body::Body;
use design_scopes::declared::Declared;
use esi_base::{List, Stop};
use std::alloc::Global;

/// What stands for the elements of the bodies of a design, in this order: a table of parts, and for each body
/// its elements in element order. It is refused at the first place at which a type does not fit. It takes
/// time in n log n beside the types that joins make.
#[tactic(auto, using(crate::proofs::Turns::bodies_exact))]
pub fn list_parts<'a>(
    alloc: Global,
    declared: &Declared<'a>,
    bodies: &[Body<'a>],
) -> Result<DesignParts, Stop<usize>>
    ensures { Reads (first_or (misfits (map (scope_in declared.now) bodies.now)) (parts_of (map (scope_in declared.now) bodies.now))) result }
{
    listed_bodies(alloc, declared, bodies)
}

/// The same, body after body.
fn listed_bodies<'a>(
    alloc: Global,
    declared: &Declared<'a>,
    bodies: &[Body<'a>],
) -> Result<DesignParts, Stop<usize>>
    ensures { Reads (bodies_added no_parts (map (scope_in declared.now) bodies.now)) result }
{
    let mut found = nothing_found(alloc);
    for body in bodies {
        match add_body(alloc, declared, body, &mut found) {
            Ok(()) => {}
            Err(stop) => return Err(stop),
        }
    }
    Ok(found)
}

/// A table without parts, and no bodies.
fn nothing_found(alloc: Global) -> DesignParts
    ensures { result ≡ no_parts }
{
    DesignParts {
        parts: List::new(alloc),
        ordered: List::new(alloc),
    }
}
