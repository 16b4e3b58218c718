//! The words of operators and directions.
ghost use Rattle.design_tree.specs.Words.{ByTheirWords, operators, operator_word, directions, direction_word, port_directions, port_direction_word};

/// Each operator and each direction is found in the list of its kind (docs/design-text.md) by its word; so
/// no two of a kind have the same word. It does nothing when it runs.
#[tactic(auto, using(crate::specs::Words::operators_by_words, crate::specs::Words::directions_by_words, crate::specs::Words::port_directions_by_words))]
pub fn words_law()
    ensures operators { ByTheirWords operators operator_word }
    ensures directions { ByTheirWords directions direction_word }
    ensures port_directions { ByTheirWords port_directions port_direction_word }
{}
