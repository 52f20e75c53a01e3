//! Why a run ends before its input does.

ghost use Rattle.std.specs.Prelude.{◌≡◌, alloc_error};
ghost use Rattle.aria_host.specs.declared.fault.Fault.TheVariants as faults;
ghost use Rattle.aria_tools.specs.declared.stop.Stop.TheVariants as why;

use aria_host::Fault;
use std::alloc::{AllocError, AllocFailed};

/// Why a run ends before its input does.
#[derive(Clone, Copy, Debug)]
pub enum Stop {
    Fault(Fault),
    /// The input has more bytes than one may have.
    TooLong,
}

impl From<AllocError> for Stop {
    ghost from_gives = { λ _ stop. stop ≡ why.Fault (faults.Memory alloc_error) };

    fn from(_: AllocError) -> Stop {
        Stop::Fault(Fault::Memory(AllocError))
    }
}

impl<T: Drop> From<AllocFailed<T>> for Stop {
    ghost from_gives = { λ _ stop. stop ≡ why.Fault (faults.Memory alloc_error) };

    fn from(_: AllocFailed<T>) -> Stop {
        Stop::Fault(Fault::Memory(AllocError))
    }
}

impl From<Fault> for Stop {
    ghost from_gives = { λ fault stop. stop ≡ why.Fault fault };

    fn from(fault: Fault) -> Stop {
        Stop::Fault(fault)
    }
}
