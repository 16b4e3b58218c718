//! The rule of a design that is simulated, beside those of every design, and its number.
ghost use Rattle.std.specs.Prelude.{◌≡◌};

use esi_base::{Place, Refusal, Stop};

/// Why a design that breaks no rule is not simulated.
#[derive(Clone, Copy, Debug, PartialEq, Eq)]
pub enum SimulationRule {
    /// A design that is simulated is a pipe.
    NoPipe,
}

impl SimulationRule {
    ghost use Rattle.esi_commands.specs.SimulationRules.{rule_number, refusal_by};

    /// The number of the rule in refusals: 219.
    pub fn number(self) -> u16
        ensures { result ≡ rule_number self }
    {
        match self {
            SimulationRule::NoPipe => 219,
        }
    }

    /// A refusal by this rule, at a place of the text.
    pub fn at(self, place: Place) -> Stop
        ensures { result ≡ Stop.Refused (refusal_by self place) }
    {
        Stop::Refused(Refusal {
            number: self.number(),
            place,
        })
    }
}
