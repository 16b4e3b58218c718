//! Which nets a net reads.
ghost use Rattle.std.specs.Prelude.{◌≡◌};
ghost use Rattle.netlist.specs.Nets.{sources, is_input, is_register, is_computed};
ghost use Rattle.netlist.specs.Sources.{listed};

use crate::net::{Net, Sources};

impl Net {
    /// The nets that the net reads within a cycle, in the order of its fields.
    pub fn sources(&self) -> Sources
        ensures { listed result ≡ sources self.now }
    {
        match self {
            Net::Input { width: _ } => Sources::None,
            Net::Register { reset: _ } => Sources::None,
            Net::Const(_) => Sources::None,
            Net::Not(a) => Sources::One(*a),
            Net::And(a, b) => Sources::Two(*a, *b),
            Net::Or(a, b) => Sources::Two(*a, *b),
            Net::Xor(a, b) => Sources::Two(*a, *b),
            Net::Add(a, b) => Sources::Two(*a, *b),
            Net::Sub(a, b) => Sources::Two(*a, *b),
            Net::Equal(a, b) => Sources::Two(*a, *b),
            Net::Less(a, b) => Sources::Two(*a, *b),
            Net::Choose(test, one, other) => Sources::Three(*test, *one, *other),
            Net::Slice {
                of,
                high: _,
                low: _,
            } => Sources::One(*of),
            Net::Concat { high, low } => Sources::Two(*high, *low),
        }
    }

    /// Whether the net is an input.
    pub fn is_input(&self) -> bool
        ensures { result ≡ is_input self.now }
    {
        matches!(self, Net::Input { width: _ })
    }

    /// Whether the net is a register.
    pub fn is_register(&self) -> bool
        ensures { result ≡ is_register self.now }
    {
        matches!(self, Net::Register { reset: _ })
    }

    /// Whether the net's word is worked out from other nets': it is neither an input nor a register.
    pub fn is_computed(&self) -> bool
        ensures { result ≡ is_computed self.now }
    {
        !self.is_input() && !self.is_register()
    }
}
