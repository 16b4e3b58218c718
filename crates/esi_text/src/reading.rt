//! A design text is read.
ghost use Rattle.std.specs.Prelude.{◌≡◌, ◌<◌, ◌≤◌, ◌↔◌, length, map, All, IfOk};
ghost use Rattle.channel_types.specs.Types.{IsGoodType};
ghost use Rattle.design_expressions.specs.declared.limits.TheConstants.{OPEN_EXPRESSIONS};
ghost use Rattle.design_lex.specs.Tokens.{tokens};
ghost use Rattle.design_printer.specs.Canonical.{canonical};
ghost use Rattle.design_roundtrip.specs.RoundTrip.{IsWritten, SameButOffsets};
ghost use Rattle.design_tree.specs.Tokens.{tokens_of};
ghost use Rattle.design_tree.specs.declared.design.DesignTree.{DesignTree as Tree};
ghost use Rattle.esi_base.specs.Answers.{AnswersAs, IfRefused};
ghost use Rattle.esi_text.specs.DesignAnswers.{tree_of};
ghost use Rattle.esi_text.specs.Designs.{design_of, too_long, IsDesignText, StopsToBeDesign};
ghost use Rattle.esi_text.specs.RuleNumbers.{rule_number, IsDesignNumber};
ghost use Rattle.esi_text.specs.TypesIn.{types_in};

use crate::design::Design;
use crate::limits::LONGEST_DESIGN;
use crate::places::stop_in;
use crate::rule::DesignRule;
use design_grammar::Kind;
use design_grammar::reading::refuse;
use design_lex::Cursor;
use design_reader::next_design;
use esi_base::{List, Place, Refusal, Stop};
use std::alloc::Global;

/// Reads a design text. A text above `LONGEST_DESIGN` is refused by `DesignRule::TooLong` at 1:1. Any
/// other is refused at the first token with which no text of the grammar goes on, at its first octet, or
/// at the end, by a rule of its tokens (`LexicalRule`) or of the grammar (`GrammarRule`); or where a
/// limit is broken, the first of them, innermost first:
///
/// - `GrammarRule::TooManyOpenTypes` and `TooManyOpenExpressions` at the first token of the type or the
///   expression that is one too deep;
/// - `TypeRule::WidthOutOfRange` at the first octet of a type, checked when it was read;
/// - `TypeRule::RepeatedField` at the first octet of a struct, checked after its width.
pub fn read_design(alloc: Global, text: &[u8]) -> Result<Design, Stop>
    // The answer is what the text means, and the design keeps the text.
    ensures reads { AnswersAs tree_of (design_of text.now) result }
    ensures text { IfOk result (λ design. design.text ≡ text.now) }

    // Only texts of the grammar are read, and each that is not too long is, as the one design that it has.
    ensures found { IfOk result (λ design. IsDesignText text.now design.tree) }
    ensures only { (tree : Tree) → length text.now ≤ LONGEST_DESIGN → IsDesignText text.now tree
        → AnswersAs tree_of (Ok tree) result }

    // The tokens of the text, offsets aside, are those with which the design is written.
    ensures written { IfOk result (λ design. map (λ x. x.1) (tokens text.now 0) ≡ tokens_of design.tree) }

    // Each type that stands in the design is good.
    ensures good { IfOk result (λ design. All IsGoodType (types_in design.tree)) }

    // What is refused stops there to be a text of the grammar.
    ensures refused { length text.now ≤ LONGEST_DESIGN → IfRefused result (StopsToBeDesign text.now) }

    // The numbers of refusals are those of the rules above, and no others.
    ensures numbers { IfRefused result (λ refusal. IsDesignNumber refusal.number) }

    // A text that is too long is refused for that, and no other is.
    ensures too_long { LONGEST_DESIGN < length text.now → AnswersAs tree_of (Err too_long) result }
    ensures only_too_long { IfRefused result (λ refusal. (refusal.number ≡ rule_number DesignRule.TooLong)
        ↔ (LONGEST_DESIGN < length text.now)) }

    // The printed text of a design is read as that design again, places aside, if it is not too long; and
    // then it is the printed text of what was read.
    ensures again { (tree : Tree) → IsWritten OPEN_EXPRESSIONS tree → text.now ≡ canonical (tokens_of tree)
        → IfOk result (λ design. SameButOffsets OPEN_EXPRESSIONS tree design.tree) }
    ensures never_refused { (tree : Tree) → IsWritten OPEN_EXPRESSIONS tree → text.now ≡ canonical (tokens_of tree)
        → IfRefused result (λ _. LONGEST_DESIGN < length text.now) }
    ensures printed_again { (tree : Tree) → IsWritten OPEN_EXPRESSIONS tree → text.now ≡ canonical (tokens_of tree)
        → IfOk result (λ design. canonical (tokens_of design.tree) ≡ text.now) }
{
    read_text(alloc, text)
}

/// Reads a whole text, its length first and then its tokens from the first to the last.
#[tactic(auto, unfolding(crate::specs::Designs::design_of_depth))]
fn read_text(alloc: Global, text: &[u8]) -> Result<Design, Stop>
    ensures reads { AnswersAs tree_of (design_of text.now) result }
    ensures text { IfOk result (λ design. design.text ≡ text.now) }
{
    if text.len() > LONGEST_DESIGN {
        return Err(Stop::Refused(Refusal {
            number: DesignRule::TooLong.number(),
            place: Place { line: 1, column: 1 },
        }));
    }
    let mut cursor = Cursor::new(text);
    let tree = match next_design(&mut cursor, alloc) {
        Ok(tree) => tree,
        Err(stop) => return Err(stop_in(text, stop)),
    };
    if !cursor.is_at_end() {
        return Err(stop_in(text, refuse(&cursor, Kind::Nothing)));
    }
    let kept = List::from_slice(alloc, text)?;
    Ok(Design { tree, text: kept })
}
