//! What the cutting of a text means.
ghost use Rattle.std.specs.Prelude.{◌≡◌, ℕ, List, drop};
ghost use Rattle.design_lex.specs.Cuts.{IsCut};
ghost use Rattle.design_lex.specs.Tokens.{Lexeme, tokens};

/// The lexemes that a cursor sees are the text cut from the front, and no other list is: blanks and
/// comments stand between them and nothing else does, each is the longest token there, and nothing is
/// left out.
pub fn tokens_law()
    ensures is_cut { (text : List ℕ) (at : ℕ) → IsCut at (drop at text) (tokens text at) }
    ensures only_cut { (text : List ℕ) (at : ℕ) (lexemes : List Lexeme) → IsCut at (drop at text) lexemes → lexemes ≡ tokens text at }
{}
