//! The reader of lists: one item after another, as long as a token comes with which an item begins.
ghost use Rattle.std.specs.Prelude.{◌≡◌, [], ◌∷◌, false};
ghost use Rattle.esi_base.specs.Answers.{ReadsAs};
ghost use Rattle.ll1_grammar.specs.Rule.{Kinds};
ghost use Rattle.ll1_grammar.specs.Kinds.{among};
ghost use Rattle.ll1_grammar.specs.Readers.{Reader};
ghost use Rattle.design_lex.specs.declared.token.Token.{Token as DesignToken};
ghost use Rattle.design_grammar.specs.Grammar.{AnswersAt, StandsAt};
ghost use Rattle.design_grammar.specs.Kinds as kinds;
ghost use Rattle.design_grammar.specs.Rules.{designs};
ghost use Rattle.design_grammar.specs.Lists as spec;

use crate::kind::{Kind, kind_of};
use crate::reading::TokenStop;
use design_lex::Cursor;
use esi_base::List;
use std::alloc::Global;

/// What a list of the design text is made of: how an item is read, and with which tokens one begins.
/// Where commas stand between items, an item is read after its comma.
pub trait Listed {
    /// An item.
    type Item: Drop;

    // the reader of an item
    ghost reader: { Reader DesignToken Self.Item };

    // the kinds of tokens with which an item begins
    ghost starts: { Kinds };

    /// Whether an item begins with a token of this kind.
    fn begins(kind: Kind) -> bool
        ensures { result ≡ among starts (kinds.code kind) };

    /// Reads the item that comes next, and goes past it. It is refused at the first token with which no
    /// item goes on, or at which a limit is broken, and stops otherwise only when it runs out of memory.
    fn next(cursor: &mut Cursor<'_>, alloc: Global) -> Result<Self::Item, TokenStop>
        ensures reads { AnswersAt (reader cursor.old) result cursor.new }
        ensures stands { StandsAt result cursor.new };

    // no item is empty
    ghost shorter: { spec.Shortens reader };

    // and none begins with the end of the text
    ghost ends: { among starts (designs.kind designs.at_end) ≡ false };
}

/// One item more.
#[tactic(auto, unfolding(crate::specs::Lists::one_more))]
fn one_more<L: Listed>(
    cursor: &mut Cursor<'_>,
    alloc: Global,
    items: &mut List<L::Item>,
) -> Result<(), TokenStop>
    ensures reads { ReadsAs (λ _. items.new) (spec.one_more L.reader items.old cursor.old) result cursor.new }
    ensures stands { StandsAt result cursor.new }
{
    let item = L::next(cursor, alloc)?;
    items.add(item)?;
    Ok(())
}

/// The items that were read, and all that come next.
fn more_items<L: Listed>(
    cursor: &mut Cursor<'_>,
    alloc: Global,
    mut items: List<L::Item>,
) -> Result<List<L::Item>, TokenStop>
    ensures reads { AnswersAt (spec.items_onto L.starts L.reader items cursor.old) result cursor.new }
    ensures stands { StandsAt result cursor.new }
{
    while L::begins(kind_of(cursor.peek())) {
        one_more::<L>(cursor, alloc, &mut items)?;
    }
    Ok(items)
}

/// Reads all items that come next, maybe none, and goes past them.
pub fn next_items<L: Listed>(
    cursor: &mut Cursor<'_>,
    alloc: Global,
) -> Result<List<L::Item>, TokenStop>
    ensures reads { AnswersAt (spec.items_onto L.starts L.reader [] cursor.old) result cursor.new }
    ensures stands { StandsAt result cursor.new }
{
    more_items::<L>(cursor, alloc, List::new(alloc))
}

/// Reads all items that come next, of a list whose first one was read.
pub fn items_after<L: Listed>(
    cursor: &mut Cursor<'_>,
    alloc: Global,
    first: L::Item,
) -> Result<List<L::Item>, TokenStop>
    ensures reads { AnswersAt (spec.items_onto L.starts L.reader (first ∷ []) cursor.old) result cursor.new }
    ensures stands { StandsAt result cursor.new }
{
    let mut items = List::new(alloc);
    items.add(first)?;
    more_items::<L>(cursor, alloc, items)
}
