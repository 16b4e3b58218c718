//! How many bits a type has.
ghost use Rattle.std.specs.Prelude.{◌≡◌, ◌≤◌, min};
ghost use Rattle.channel_types.specs.Types.{width_of, IsGoodType};

use crate::esi_type::EsiType;
use design_lex::{TOO_WIDE, WIDEST_TYPE};

impl EsiType {
    /// The width in bits. It takes no memory.
    pub fn width(&self) -> u32
        requires { IsGoodType self.now }
        ensures width { result ≡ width_of self.now }
        ensures low { 1 ≤ result }
        ensures high { result ≤ WIDEST_TYPE }
    {
        capped_width(self)
    }
}

/// The width in bits, where `TOO_WIDE` stands for every width above the greatest one. It takes no memory.
/// It serves the check of types that are being read, which need not be good.
pub fn capped_width(ty: &EsiType) -> u32
    ensures { result ≡ min TOO_WIDE (width_of ty.now) }
{
    match ty {
        EsiType::Bits { class: _, width } => capped(*width as u64),
        EsiType::Void => 1,
        EsiType::Struct(fields) => {
            let mut sum = 0;
            for field in fields.as_slice() {
                sum = capped(sum as u64 + capped_width(&field.ty) as u64);
            }
            sum
        }
        EsiType::Array { item, count } => {
            capped(*count as u64 * capped_width(item.get()) as u64)
        }
    }
}

/// A width, with `TOO_WIDE` for every width above the greatest one.
fn capped(width: u64) -> u32
    ensures { result ≡ min TOO_WIDE width }
{
    if width < TOO_WIDE as u64 {
        width as u32
    } else {
        TOO_WIDE
    }
}
