//! The body of a module or of the top.
use design_tree::{ModulePort, Name, Statement};
use esi_base::List;

/// The body of a module or of the top. For the top there are no ports, and for a module no `implement`s.
#[derive(Debug, Drop)]
pub struct Body<'a> {
    /// How many modules stand before it.
    pub before: usize,
    /// The ports of the module.
    pub ports: &'a [ModulePort],
    /// Its statements, in the text's order.
    pub statements: List<&'a Statement>,
    /// The services that the top implements.
    pub implements: List<&'a Name>,
}
