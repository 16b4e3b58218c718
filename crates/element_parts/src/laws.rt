//! What the parts of a table stand for.
ghost use Rattle.element_parts.specs.Standing.{EachPartStands};
ghost use Rattle.element_parts.specs.Fitting.{EachPartFits};

/// In a design whose types fit, each part of the table stands for an operation of one of its bodies, with the
/// types that its sources have; the formula of a map or a scan is good for these types, and worth what its
/// expression means (`StandsFor` of `specs/Standing.antt`). Such a part fits the channels between which it
/// stands, where these have widths that types may have. It does nothing when it runs.
pub fn parts_law()
    ensures stands { EachPartStands }
    ensures fits { EachPartFits }
{}
