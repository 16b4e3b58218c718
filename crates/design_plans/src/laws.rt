//! The plans of a design are good, where its names are.
ghost use Rattle.design_plans.specs.DesignLaws.{EachDesign};

use plan_laws::plan_law;

/// Where each name of each body is used once (`IsOnceBody` of `plan_laws`), all plans are good, and `flat_law`
/// of `flat_design` speaks of the flat list that they make. Of a body with more endpoints than a top may have
/// nothing is asked, but that it is given no channels. It does nothing when it runs.
pub fn design_law()
    ensures { EachDesign }
{
    plan_law();
}
