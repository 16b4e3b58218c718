//! A text that grows by one token after another.
ghost use Rattle.std.specs.Prelude.{◌≡◌, ◌++◌, not, [], ◌∷◌, false, if◌then◌else◌, OnOk};
ghost use Rattle.design_lex.specs.declared.token.Token.TheVariants.{Word as word_token, TypeWord as type_word_token, Number as number_token, Sign as sign_token};
ghost use Rattle.design_grammar.specs.Kinds.{keyword};
ghost use Rattle.design_printer.specs.Canonical.{ends_line, no_space_before};
ghost use Rattle.design_printer.specs.Printers.{with_token, allows_space_after};

use channel_types::printing::{push_class, push_number};
use design_grammar::Kind;
use design_grammar::words::word_of;
use design_lex::Class;
use esi_base::{List, NoMemory, Octets};
use std::alloc::Global;

/// The canonical text of some tokens, and whether a space may follow.
#[derive(Debug, Drop)]
pub struct Printer {
    /// The text of the tokens so far.
    pub text: Octets,
    /// Whether a space stands before the next token, where that token takes one.
    pub allows_space: bool,
}

impl Printer {
    /// A printer of no tokens yet.
    pub fn new(alloc: Global) -> Printer
        ensures { result ≡ record { text = []; allows_space = false } }
    {
        Printer {
            text: List::new(alloc),
            allows_space: false,
        }
    }

    /// Adds a space, where one may stand.
    fn space(&mut self) -> Result<(), NoMemory>
        ensures text { OnOk result (self.new.text ≡ self.old.text ++ (if self.old.allows_space then 32 ∷ [] else [])) }
        ensures same { self.new.allows_space ≡ self.old.allows_space }
    {
        if self.allows_space {
            self.text.push_all(b" ")?;
        }
        Ok(())
    }

    /// Adds a word: a name, or another word by its octets.
    #[tactic(auto, unfolding(crate::specs::Printers::with_token))]
    pub fn word(&mut self, octets: &[u8]) -> Result<(), NoMemory>
        ensures { OnOk result (self.new ≡ with_token (word_token octets.now) self.old) }
    {
        self.space()?;
        self.text.push_all(octets)?;
        self.allows_space = true;
        Ok(())
    }

    /// Adds a keyword, by its kind.
    pub fn keyword(&mut self, kind: Kind) -> Result<(), NoMemory>
        ensures { OnOk result (self.new ≡ with_token (word_token (keyword kind)) self.old) }
    {
        self.word(word_of(kind))
    }

    /// Adds a number, in decimal.
    #[tactic(auto, unfolding(crate::specs::Printers::with_token))]
    pub fn number(&mut self, number: u128) -> Result<(), NoMemory>
        ensures { OnOk result (self.new ≡ with_token (number_token number) self.old) }
    {
        self.space()?;
        push_number(&mut self.text, number)?;
        self.allows_space = true;
        Ok(())
    }

    /// Adds a type word, by its class and width.
    #[tactic(auto, unfolding(crate::specs::Printers::with_token))]
    pub fn type_word(&mut self, class: Class, width: u32) -> Result<(), NoMemory>
        ensures { OnOk result (self.new ≡ with_token (type_word_token class width) self.old) }
    {
        self.space()?;
        push_class(&mut self.text, class)?;
        push_number(&mut self.text, width as u128)?;
        self.allows_space = true;
        Ok(())
    }

    /// Adds a sign, by its octet.
    #[tactic(auto, unfolding(crate::specs::Printers::with_token))]
    pub fn sign(&mut self, octet: u8) -> Result<(), NoMemory>
        ensures { OnOk result (self.new ≡ with_token (sign_token octet) self.old) }
    {
        if takes_space(octet) {
            self.space()?;
        }
        push_octet(&mut self.text, octet)?;
        if is_line_end(octet) {
            push_octet(&mut self.text, b'\n')?;
        }
        self.allows_space = allows_space_after(octet);
        Ok(())
    }
}

/// Adds one octet.
fn push_octet(text: &mut Octets, octet: u8) -> Result<(), NoMemory>
    ensures { OnOk result (text.new ≡ text.old ++ octet ∷ []) }
{
    text.add(octet)
}

/// Whether a space stands before a sign, if one may stand there.
fn takes_space(octet: u8) -> bool
    ensures { result ≡ not (no_space_before (sign_token octet)) }
{
    !matches!(
        octet,
        b';' | b':' | b',' | b'.' | b')' | b']' | b'>' | b'<' | b'[' | b'('
    )
}

/// Whether a line ends after a sign.
fn is_line_end(octet: u8) -> bool
    ensures { result ≡ ends_line (sign_token octet) }
{
    matches!(octet, b';' | b'{' | b'}')
}

/// Whether a space may follow a sign.
fn allows_space_after(octet: u8) -> bool
    ensures { result ≡ allows_space_after (sign_token octet) }
{
    !is_line_end(octet) && !matches!(octet, b'(' | b'[' | b'<' | b'.')
}
