//! The laws of the canonical text.
ghost use Rattle.std.specs.Prelude.{◌≡◌, ℕ, List, map, All};
ghost use Rattle.design_lex.specs.Tokens.{tokens};
ghost use Rattle.design_lex.specs.declared.token.Token.{Token};
ghost use Rattle.channel_types.specs.declared.esi_type.EsiType.{EsiType};
ghost use Rattle.channel_types.specs.Types.{IsGoodType};
ghost use Rattle.channel_types.specs.Text.{text_of};
ghost use Rattle.design_tree.specs.Tokens.{type_tokens};
ghost use Rattle.design_printer.specs.Canonical.{canonical};
ghost use Rattle.design_printer.specs.CutAgain.{IsPrintable, token_in};
ghost use Rattle.design_printer.specs.TextTokens.{IsUsable};

/// The canonical text of tokens that are spelled right is cut into these tokens again, apart from their
/// offsets. The tokens of every text that has no fault, and no type word above 1,024 bits, are spelled
/// right, and so are those of every good type. The canonical text of a type's tokens is the text with
/// which the type is printed alone. It does nothing when it runs.
#[tactic(auto, using(crate::specs::CutAgain::canonical_tokens, crate::specs::TextTokens::text_printable, crate::specs::PrintableTypes::type_printable, crate::specs::TypeTexts::type_text))]
pub fn canonical_law()
    ensures cut_again { (ts : List Token) → All IsPrintable ts → map token_in (tokens (canonical ts) 0) ≡ ts }
    ensures of_texts { (text : List ℕ) (at : ℕ) → All IsUsable (map token_in (tokens text at)) → All IsPrintable (map token_in (tokens text at)) }
    ensures of_types { (ty : EsiType) → IsGoodType ty → All IsPrintable (type_tokens ty) }
    ensures same_types { (ty : EsiType) → canonical (type_tokens ty) ≡ text_of ty }
{}
