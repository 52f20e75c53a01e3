ghost use Rattle.std.specs.Prelude.{◌≡◌};
ghost use Rattle.aria_model.specs.declared.stopped.Stopped.TheVariants.{Refused, Memory};

use crate::refusal::Refusal;
use std::alloc::{AllocError, AllocFailed};

/// Why a statement comes to nothing.
#[derive(Debug, Drop)]
pub enum Stopped {
    Refused(Refusal),
    /// Want of memory, which may come at any statement.
    Memory,
}

impl From<Refusal> for Stopped {
    ghost from_gives = { λ why stopped. stopped ≡ Refused why };

    fn from(why: Refusal) -> Stopped {
        Stopped::Refused(why)
    }
}

impl From<AllocError> for Stopped {
    ghost from_gives = { λ error stopped. stopped ≡ Memory };

    fn from(_error: AllocError) -> Stopped {
        Stopped::Memory
    }
}

impl<T: Drop> From<AllocFailed<T>> for Stopped {
    ghost from_gives = { λ failed stopped. stopped ≡ Memory };

    fn from(_failed: AllocFailed<T>) -> Stopped {
        Stopped::Memory
    }
}
