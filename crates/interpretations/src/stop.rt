use base::Memory;
use std::alloc::{AllocError, AllocFailed};
use thiserror::Error;

/// Why lemmas gave no definitions.
#[derive(Debug, Drop, Error)]
pub enum DefinitionStop {
    #[error("out of memory")]
    Memory,
    /// A definition would have more nodes than there are numbers for.
    #[error("a definition of more than 2^32 nodes")]
    Full,
}

impl From<Memory> for DefinitionStop {
    ghost use Rattle.std.specs.Prelude.{◌≡◌};
    ghost use Rattle.interpretations.specs.declared.stop.DefinitionStop.TheVariants.{Memory as OutOfMemory};

    ghost from_gives = { λ _ e. e ≡ OutOfMemory };

    fn from(_: Memory) -> DefinitionStop {
        DefinitionStop::Memory
    }
}
