//! The top of a design.
use crate::leaves::Name;
use crate::statements::Statement;
use esi_base::List;

/// An item of the top's body.
#[derive(Debug, Drop)]
pub enum TopItem {
    /// A statement, as a module has them.
    Statement(Statement),
    /// `implement`: the name of a service that the host implements.
    Implement(Name),
}

/// The top of a design.
#[derive(Debug, Drop)]
pub struct Top {
    /// The top's name.
    pub name: Name,
    /// The items of its body, in the text's order, maybe none.
    pub body: List<TopItem>,
}
