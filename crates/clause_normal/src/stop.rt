use base::Memory;
use std::alloc::{AllocError, AllocFailed};
use term_tree::Refusal;
use thiserror::Error;

/// Why a Horn clause has no normal clause here.
#[derive(Debug, Drop, Error)]
pub enum NormalStop {
    #[error("out of memory")]
    Memory,
    /// The linear form of the term that starts there, or the difference of two of its sides, has a
    /// coefficient or constant of 2^63 or more in magnitude.
    #[error("a coefficient or constant of 2^63 or more in magnitude")]
    TooWide { offset: u64 },
    /// The assertion whose command starts there has too many variables or body atoms.
    #[error("too many variables or atoms")]
    Count { offset: u64 },
}

/// Why the clauses of a script are no system.
#[derive(Debug, Drop, Error)]
pub enum ClauseStop {
    #[error("out of memory")]
    Memory,
    /// The first command that isn't legal, or the stop that the script has.
    #[error("a refused command")]
    Refused(Refusal),
}

impl From<Memory> for NormalStop {
    ghost use Rattle.std.specs.Prelude.{◌≡◌};
    ghost use Rattle.clause_normal.specs.declared.stop.NormalStop.TheVariants.{Memory as OutOfMemory};

    ghost from_gives = { λ _ e. e ≡ OutOfMemory };

    fn from(_: Memory) -> NormalStop {
        NormalStop::Memory
    }
}

impl From<Memory> for ClauseStop {
    ghost use Rattle.std.specs.Prelude.{◌≡◌};
    ghost use Rattle.clause_normal.specs.declared.stop.ClauseStop.TheVariants.{Memory as OutOfMemory};

    ghost from_gives = { λ _ e. e ≡ OutOfMemory };

    fn from(_: Memory) -> ClauseStop {
        ClauseStop::Memory
    }
}

impl From<AllocError> for ClauseStop {
    ghost use Rattle.std.specs.Prelude.{◌≡◌};
    ghost use Rattle.clause_normal.specs.declared.stop.ClauseStop.TheVariants.{Memory as OutOfMemory};

    ghost from_gives = { λ _ e. e ≡ OutOfMemory };

    fn from(_: AllocError) -> ClauseStop {
        ClauseStop::Memory
    }
}

impl<T: Drop> From<AllocFailed<T>> for ClauseStop {
    ghost use Rattle.std.specs.Prelude.{◌≡◌};
    ghost use Rattle.clause_normal.specs.declared.stop.ClauseStop.TheVariants.{Memory as OutOfMemory};

    ghost from_gives = { λ _ e. e ≡ OutOfMemory };

    fn from(_: AllocFailed<T>) -> ClauseStop {
        ClauseStop::Memory
    }
}
