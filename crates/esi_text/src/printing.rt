//! A design is printed.
ghost use Rattle.std.specs.Prelude.{◌≡◌, IfOk};
ghost use Rattle.design_expressions.specs.declared.limits.TheConstants.{OPEN_EXPRESSIONS};
ghost use Rattle.design_printer.specs.Canonical.{canonical};
ghost use Rattle.design_roundtrip.specs.RoundTrip.{ReadsBackAs};
ghost use Rattle.design_tree.specs.Tokens.{tokens_of};

use crate::design::Design;
use design_printer::print_tree;
use esi_base::{NoMemory, Octets};
use std::alloc::Global;

/// The canonical text of a design (docs/design-text.md): its tokens in order, numbers in decimal, with
/// LF after `;`, `{` and `}`. It fails only when it runs out of memory.
pub fn print_design(alloc: Global, design: &Design) -> Result<Octets, NoMemory>
    ensures text { IfOk result (λ text. text ≡ canonical (tokens_of design.now.tree)) }

    // It is a text of the grammar, and its design is the same, places aside.
    ensures again { IfOk result (λ text. ∥ ReadsBackAs OPEN_EXPRESSIONS text design.now.tree ∥₁) }
{
    print_tree(alloc, &design.tree)
}
