use base::Memory;
use thiserror::Error;

/// Why there is no form with a result.
#[derive(Debug, Drop, Error)]
pub enum WideStop {
    #[error("out of memory")]
    Memory,
    #[error("a coefficient of 2^63 or a constant of 2^64 or more in magnitude")]
    Wide,
}

impl From<Memory> for WideStop {
    ghost use Rattle.std.specs.Prelude.{◌≡◌};
    ghost use Rattle.lin_atoms.specs.declared.stop.WideStop.TheVariants.{Memory as OutOfMemory};

    ghost from_gives = { λ _ e. e ≡ OutOfMemory };

    fn from(_: Memory) -> WideStop {
        WideStop::Memory
    }
}
