//! An end of a channel.
ghost use Rattle.channel_types.specs.Types.{IsGoodType};

use channel_types::EsiType;
use esi_base::Octets;

/// An end of a channel at the edge of a design: its name, and the type of what goes through it, which
/// is good.
#[derive(Debug, Drop)]
pub struct Endpoint {
    /// The name by which clients ask for it.
    pub name: Octets,
    /// What goes through it.
    pub ty: EsiType,

    // A call that asks for a good type takes this fact by the lemma `good_type_recovers` of specs/GoodTypes.antt.
    pub ghost good: { ∥ IsGoodType ty ∥₁ },
}
