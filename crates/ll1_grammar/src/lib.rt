//! The law of LL(1) grammars, whose texts are read by one token of lookahead: definitions and lemmas for
//! the readers of other crates, over any type of tokens. Rules, trees and readers are definitions (see
//! `specs/`), so there is no code here but the law itself and the refusal of a token.
#![tactic(auto)]

ghost use Rattle.ll1_grammar.specs.Laws.{Found, Only, OneTree, Refused};

mod refusal;

pub use refusal::TokenRefusal;

/// One token decides: of every grammar over tokens of the type `T`, every rule of it that one token
/// decides, and every depth to which rules may be called and checks of trees. What the rule's reader
/// reads is a text of the rule within these limits (`found`), and each such text is read (`only`). All
/// else is refused at the first token with which no text of the grammar without limits goes on, or at
/// which a limit is broken, and no limit is broken before (`refused`). No text has two trees
/// (`one_tree`). It does nothing when it runs.
pub fn one_token_decides<T>()
    ensures found { Found T }
    ensures only { Only T }
    ensures refused { Refused T }
    ensures one_tree { OneTree T }
{}

#[cfg(test)]
mod tests {
    use super::*;

    #[test]
    fn the_law_is_of_a_concrete_type(_rt: HostRuntime) {
        one_token_decides::<u8>();
    }
}
