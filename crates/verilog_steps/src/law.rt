//! That the readers of one token are readers of the law of exact readers.
ghost use Rattle.verilog_steps.specs.ExactSteps.{StepsAreTokens};

/// A step reads one token that passes a test, and refuses each other one by the rule that it breaks there.
pub fn steps_law()
    ensures { StepsAreTokens }
{}
