use base::Memory;
use thiserror::Error;

/// Why literals are no cube.
#[derive(Debug, Drop, Error)]
pub enum CubeStop {
    #[error("out of memory")]
    Memory,
    #[error("a number of 2^63 or more in magnitude")]
    Wide,
}

impl From<Memory> for CubeStop {
    ghost use Rattle.std.specs.Prelude.{◌≡◌};
    ghost use Rattle.cube_forms.specs.declared.stop.CubeStop.TheVariants.{Memory as OutOfMemory};

    ghost from_gives = { λ _ e. e ≡ OutOfMemory };

    fn from(_: Memory) -> CubeStop {
        CubeStop::Memory
    }
}
