//! The right side of the assign of a net.

use esi_base::Word;

/// The right side of the assign of a net. Its operands are nets, by their numbers; a port or a constant stands alone.
#[derive(Clone, Copy, Debug)]
pub enum Right {
    /// An input port, by its number among the input ports but `clk` and `rst`, in the order of the module line.
    Port(u32),
    /// A constant, `W'hDIGITS`.
    Constant(Word),
    /// `~a`
    Not(u32),
    /// `a & b`
    And(u32, u32),
    /// `a | b`
    Or(u32, u32),
    /// `a ^ b`
    Xor(u32, u32),
    /// `a + b`
    Add(u32, u32),
    /// `a - b`
    Sub(u32, u32),
    /// `a == b`
    Equal(u32, u32),
    /// `a < b`
    Less(u32, u32),
    /// `test ? one : other`
    Choose(u32, u32, u32),
    /// `of[high:low]`
    Slice {
        /// The net that is cut.
        of: u32,
        /// The highest place.
        high: u32,
        /// The lowest place.
        low: u32,
    },
    /// `{high, low}`
    Concat {
        /// The net whose bits stand above.
        high: u32,
        /// The net whose bits stand below.
        low: u32,
    },
}
