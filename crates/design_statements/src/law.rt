//! The law of the reader of statements.
ghost use Rattle.design_statements.specs.StatementTexts.{StartsKnown, StatementsFound, StatementsRead, OthersRefused};

/// What `next_statement` reads, by its clause: a text of the grammar's statements within the limits
/// (`found`), and each such text is read as the statement that it is (`only`). All else is refused at
/// the first token with which no statement goes on, or at which a limit is broken (`refused`). The kinds
/// of `begins_statement` are those with which a statement of the grammar begins (`starts`). It does
/// nothing when it runs.
#[tactic(auto, using(crate::specs::StatementLaw::starts_are, crate::specs::StatementTexts::statements_found, crate::specs::StatementTexts::statements_read, crate::specs::StatementTexts::others_refused))]
pub fn statement_law()
    ensures found { StatementsFound }
    ensures only { StatementsRead }
    ensures refused { OthersRefused }
    ensures starts { StartsKnown }
{}
