//! What is known of the plans and the parts of a design that breaks no rule.
ghost use Rattle.planned_laws.specs.Planned.{EachIsGood, EachPartIsKnown};

use element_parts::parts_law;
use once_laws::accepted_law;

/// Where a design breaks no rule, its plans are good, so that each body uses each of its channels once, and
/// each part of its table stands for an operation of one of its bodies. It does nothing when it runs.
pub fn planned_law()
    ensures plans { EachIsGood }
    ensures parts { EachPartIsKnown }
{
    accepted_law();
    parts_law();
}
