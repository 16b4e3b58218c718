//! The law of the reader of expressions.
ghost use Rattle.design_expressions.specs.ExpressionTexts.{ExpressionsFound, ExpressionsRead, OthersRefused};

/// What `next_expression` reads, by its clause `reads`: a text of the grammar's expressions within the
/// limits (`found`), and each such text is read as the expression that it is (`only`). All else is
/// refused at the first token with which no expression goes on, or at which a limit is broken
/// (`refused`). It does nothing when it runs.
#[tactic(auto, using(crate::specs::ExpressionTexts::expressions_found, crate::specs::ExpressionTexts::expressions_read, crate::specs::ExpressionTexts::others_refused))]
pub fn expression_law()
    ensures found { ExpressionsFound }
    ensures only { ExpressionsRead }
    ensures refused { OthersRefused }
{}
