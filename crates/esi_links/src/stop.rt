//! Why a call of the outside stopped.
ghost use Rattle.std.specs.Prelude.{◌≡◌};
ghost use Rattle.esi_links.specs.declared.stop.OutStop.TheVariants.{NoMemory as out_no_memory};
ghost use Rattle.esi_links.specs.declared.stop.LinkStop.TheVariants.{NoMemory as link_no_memory};

use esi_base::NoMemory;
use std::alloc::{AllocError, AllocFailed};

/// Why a call on files or on a sink stopped.
#[derive(Clone, Copy, Debug, PartialEq, Eq)]
pub enum OutStop {
    /// The outside failed, and the count of this kind of fault rose.
    Fault,
    /// Out of memory, which is no fault.
    NoMemory,
}

/// Why a call on links stopped.
#[derive(Clone, Copy, Debug, PartialEq, Eq)]
pub enum LinkStop {
    /// The outside failed, and the count of this kind of fault rose.
    Fault,
    /// Out of memory, which is no fault.
    NoMemory,
}

impl From<AllocError> for OutStop {
    ghost from_gives = { λ _ e. e ≡ out_no_memory };

    fn from(_error: AllocError) -> OutStop {
        OutStop::NoMemory
    }
}

impl From<NoMemory> for OutStop {
    ghost from_gives = { λ _ e. e ≡ out_no_memory };

    fn from(_error: NoMemory) -> OutStop {
        OutStop::NoMemory
    }
}

impl From<NoMemory> for LinkStop {
    ghost from_gives = { λ _ e. e ≡ link_no_memory };

    fn from(_error: NoMemory) -> LinkStop {
        LinkStop::NoMemory
    }
}

impl<T: Drop> From<AllocFailed<T>> for OutStop {
    ghost from_gives = { λ _ e. e ≡ out_no_memory };

    fn from(_failed: AllocFailed<T>) -> OutStop {
        OutStop::NoMemory
    }
}
