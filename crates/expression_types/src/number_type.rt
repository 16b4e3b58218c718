//! Bits types.
ghost use Rattle.std.specs.Prelude.{◌≡◌};
ghost use Rattle.channel_types.specs.declared.esi_type.EsiType.TheVariants as T;
ghost use Rattle.expression_types.specs.Typing.{is_unsigned, is_signed};

use channel_types::{Class, EsiType};

/// A bits type: a number of so many bits, of a class.
#[derive(Clone, Copy, Debug)]
pub struct NumberType {
    /// Its class.
    pub class: Class,
    /// Its width in bits, 1 to `WIDEST_TYPE`.
    pub width: u32,
}

impl NumberType {
    /// The type as a channel type. It takes no memory.
    pub fn ty(&self) -> EsiType
        ensures { result ≡ T.Bits self.now.class self.now.width }
    {
        EsiType::Bits {
            class: self.class,
            width: self.width,
        }
    }

    /// Whether its numbers are counted from 0, without sign.
    pub(crate) fn is_unsigned(&self) -> bool
        ensures { result ≡ is_unsigned self.now.class }
    {
        match self.class {
            Class::Unsigned => true,
            Class::Signed => false,
            Class::Plain => false,
        }
    }

    /// Whether its numbers have a sign.
    pub(crate) fn is_signed(&self) -> bool
        ensures { result ≡ is_signed self.now.class }
    {
        match self.class {
            Class::Unsigned => false,
            Class::Signed => true,
            Class::Plain => false,
        }
    }
}
