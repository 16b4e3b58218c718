//! The tree of a whole design: a pipe, or declarations and a top.
use crate::declarations::Declaration;
use crate::leaves::Number;
use crate::top::Top;
use channel_types::EsiType;
use esi_base::List;

/// A pipe of stages for values of one type.
#[derive(Debug, Drop)]
pub struct Pipe {
    /// The type of the values that go through it.
    pub ty: EsiType,
    /// How many stages it has.
    pub stages: Number,
}

/// The tree of a design text, without its version.
#[derive(Debug, Drop)]
pub enum DesignTree {
    /// A pipe alone.
    Pipe(Pipe),
    /// Bundles, services and modules, and the top.
    Modules {
        /// The declarations before the top, in the text's order, maybe none.
        declarations: List<Declaration>,
        /// The top.
        top: Top,
    },
}
