//! The channels that an operation takes.
ghost use Rattle.std.specs.Prelude.{◌≡◌, ◌∷◌, option_copied};
ghost use Rattle.std.specs.Option.{option_to_list};
ghost use Rattle.check_rules.specs.References.{operation_sources as sources_by};

use design_tree::{Operation, Reference};

/// The first channel that an operation takes, and the second one, if it takes two.
pub fn operation_sources(operation: &Operation) -> (&Reference, Option<&Reference>)
    ensures { sources_by operation.now ≡ result.0.now ∷ option_to_list (option_copied result.1) }
{
    match operation {
        Operation::Stage(source)
        | Operation::Fork(source)
        | Operation::AsFifo(source)
        | Operation::AsVr(source) => (source, None),
        Operation::Buffer { source, .. }
        | Operation::Fifo { source, .. }
        | Operation::Map { source, .. }
        | Operation::Scan { source, .. } => (source, None),
        Operation::Join { left, right } => (left, Some(right)),
    }
}
