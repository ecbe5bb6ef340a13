use base::Memory;
use std::alloc::{AllocError, AllocFailed};
use thiserror::Error;

/// Why an assertion has no clause here.
#[derive(Debug, Drop, Error)]
pub enum HornStop {
    #[error("out of memory")]
    Memory,
    /// The subterm that starts there fits no form of a Horn clause where it stands.
    #[error("no Horn clause")]
    NotHorn { offset: u64 },
}

impl From<Memory> for HornStop {
    ghost use Rattle.std.specs.Prelude.{◌≡◌};
    ghost use Rattle.horn_shape.specs.declared.stop.HornStop.TheVariants.{Memory as OutOfMemory};

    ghost from_gives = { λ _ e. e ≡ OutOfMemory };

    fn from(_: Memory) -> HornStop {
        HornStop::Memory
    }
}

impl From<AllocError> for HornStop {
    ghost use Rattle.std.specs.Prelude.{◌≡◌};
    ghost use Rattle.horn_shape.specs.declared.stop.HornStop.TheVariants.{Memory as OutOfMemory};

    ghost from_gives = { λ _ e. e ≡ OutOfMemory };

    fn from(_: AllocError) -> HornStop {
        HornStop::Memory
    }
}

impl<T: Drop> From<AllocFailed<T>> for HornStop {
    ghost use Rattle.std.specs.Prelude.{◌≡◌};
    ghost use Rattle.horn_shape.specs.declared.stop.HornStop.TheVariants.{Memory as OutOfMemory};

    ghost from_gives = { λ _ e. e ≡ OutOfMemory };

    fn from(_: AllocFailed<T>) -> HornStop {
        HornStop::Memory
    }
}
