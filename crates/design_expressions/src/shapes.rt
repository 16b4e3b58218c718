//! The shapes of expressions that operators make.
ghost use Rattle.std.specs.Prelude.{◌≡◌};
ghost use Rattle.design_expressions.specs.ExpressionValues as spec;

use design_grammar::Kind;
use design_tree::Binary;

/// What stands between the parentheses of an operator, and what the operator makes of it.
#[derive(Clone, Copy, Debug, PartialEq, Eq)]
pub enum Shape {
    /// `lit`: a type and a number.
    Literal,
    /// `make`: a type and expressions.
    Make,
    /// `cast`: a type and an expression.
    Cast,
    /// `zext`: a number and an expression.
    Zext,
    /// `slice`: two numbers and an expression.
    Slice,
    /// `not`: an expression.
    Not,
    /// One of the operators of two operands.
    Two(Binary),
    /// `mux`: three expressions.
    Mux,
}

/// The operator of two operands that a kind of words is, `cat` for each other kind.
pub fn binary_of(kind: Kind) -> Binary
    ensures { result ≡ spec.binary_of kind }
{
    match kind {
        Kind::And => Binary::And,
        Kind::Or => Binary::Or,
        Kind::Xor => Binary::Xor,
        Kind::Add => Binary::Add,
        Kind::Sub => Binary::Sub,
        Kind::Eq => Binary::Eq,
        Kind::Lt => Binary::Lt,
        _ => Binary::Cat,
    }
}
