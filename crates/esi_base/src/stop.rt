//! Why a call stopped: its input is refused, or it ran out of memory.
ghost use Rattle.std.specs.Prelude.{◌≡◌};
ghost use Rattle.esi_base.specs.declared.stop.Stop.TheVariants.{NoMemory as stop_no_memory};

use crate::place::Refusal;
use std::alloc::{AllocError, AllocFailed};

/// Out of memory.
#[derive(Clone, Copy, Debug, PartialEq, Eq)]
pub struct NoMemory;

/// Why a call on input stopped. `R` tells how the input is refused; for a text it is the rule's number
/// and a place.
#[derive(Clone, Copy, Debug, PartialEq, Eq, Drop)]
pub enum Stop<R = Refusal> {
    /// The input is refused.
    Refused(R),
    /// Out of memory.
    NoMemory,
}

impl From<AllocError> for NoMemory {
    fn from(_error: AllocError) -> NoMemory {
        NoMemory
    }
}

impl<T: Drop> From<AllocFailed<T>> for NoMemory {
    fn from(_failed: AllocFailed<T>) -> NoMemory {
        NoMemory
    }
}

impl<R> From<AllocError> for Stop<R> {
    ghost from_gives = { λ _ e. e ≡ stop_no_memory };

    fn from(_error: AllocError) -> Stop<R> {
        Stop::NoMemory
    }
}

impl<R> From<NoMemory> for Stop<R> {
    ghost from_gives = { λ _ e. e ≡ stop_no_memory };

    fn from(_error: NoMemory) -> Stop<R> {
        Stop::NoMemory
    }
}

impl<R, T: Drop> From<AllocFailed<T>> for Stop<R> {
    ghost from_gives = { λ _ e. e ≡ stop_no_memory };

    fn from(_failed: AllocFailed<T>) -> Stop<R> {
        Stop::NoMemory
    }
}
