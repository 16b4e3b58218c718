//! What the cutting of a text means.
ghost use Rattle.std.specs.Prelude.{◌≡◌, ℕ, List, drop};
ghost use Rattle.verilog_lex.specs.Cuts.{IsCut};
ghost use Rattle.verilog_lex.specs.Spelled.{Spells, tokens_in};
ghost use Rattle.verilog_lex.specs.Tokens.{Lexeme, tokens};
ghost use Rattle.verilog_tokens.specs.declared.token.Token.{Token};

/// The lexemes that a cursor sees are the text cut from the front, and no other list is: blanks stand between them and nothing else
/// does, each is the longest token there, and nothing is left out.
pub fn tokens_law()
    ensures is_cut { (text : List ℕ) (at : ℕ) → IsCut at (drop at text) (tokens text at) }
    ensures only_cut { (text : List ℕ) (at : ℕ) (lexemes : List Lexeme) → IsCut at (drop at text) lexemes → lexemes ≡ tokens text at }
{}

/// A text in which tokens are spelled, each apart from what stands behind it and with blanks between them, is cut into those tokens.
pub fn spelled_law()
    ensures { (text : List ℕ) (ts : List Token) → Spells text ts → tokens_in (tokens text 0) ≡ ts }
{}
