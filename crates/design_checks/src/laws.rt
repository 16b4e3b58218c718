//! What the checks of a design report.
ghost use Rattle.design_checks.specs.Law.{EachReportsOne};

/// A design is never both accepted and refused, and it is refused by one rule at one place. It does nothing
/// when it runs.
pub fn checks_law()
    ensures { EachReportsOne }
{}
