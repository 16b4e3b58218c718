//! The parts of a design that breaks no rule fit.
ghost use Rattle.fitted_parts.specs.Fitted.{EachFits, EachTypeIsGood};

/// In a design that breaks no rule, and whose text has good types alone, each type of a body is good, and
/// what stands for an operation is a good part that fits the channels between which it stands. It does
/// nothing when it runs.
pub fn fitted_law()
    ensures types { EachTypeIsGood }
    ensures parts { EachFits }
{}
