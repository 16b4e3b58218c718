//! The syntax tree of a design text (docs/design-text.md). Its leaves, names, numbers and application ids, stand
//! lowest; expressions stand on them, statements on expressions, and declarations and the top on
//! statements. Its offsets are those of the octets at which later checks report what they refuse.
#![tactic(auto)]

pub mod declarations;
pub mod design;
pub mod expression;
pub mod law;
pub mod leaves;
pub mod operators;
pub mod statements;
pub mod top;

pub use declarations::{
    Bundle, Declaration, Direction, Member, Module, ModulePort, PortDirection, Service, ServicePort,
};
pub use design::{DesignTree, Pipe};
pub use expression::{Expression, Suffix};
pub use law::words_law;
pub use leaves::{ApplicationId, Name, Number, Reference};
pub use operators::Binary;
pub use statements::{Binding, Operation, Statement};
pub use top::{Top, TopItem};
