use base::Memory;
use thiserror::Error;

/// Why a literal isn't made ready.
#[derive(Debug, Drop, Error)]
pub enum ReadyStop {
    #[error("out of memory")]
    Memory,
    #[error("a bound of 2^64 or more in magnitude")]
    Wide,
}

impl From<Memory> for ReadyStop {
    ghost use Rattle.std.specs.Prelude.{◌≡◌};
    ghost use Rattle.int_rows.specs.declared.stop.ReadyStop.TheVariants.{Memory as OutOfMemory};

    ghost from_gives = { λ _ e. e ≡ OutOfMemory };

    fn from(_: Memory) -> ReadyStop {
        ReadyStop::Memory
    }
}

/// Why there is no tableau.
#[derive(Debug, Drop, Error)]
pub enum RowStop {
    #[error("out of memory")]
    Memory,
    #[error("more than 1,024 forms")]
    TooMany,
}

impl From<Memory> for RowStop {
    ghost use Rattle.std.specs.Prelude.{◌≡◌};
    ghost use Rattle.int_rows.specs.declared.stop.RowStop.TheVariants.{Memory as OutOfMemory};

    ghost from_gives = { λ _ e. e ≡ OutOfMemory };

    fn from(_: Memory) -> RowStop {
        RowStop::Memory
    }
}

/// Why a tableau takes no further form.
#[derive(Debug, Drop, Error)]
pub enum PushStop {
    #[error("out of memory")]
    Memory,
    #[error("1,024 rows already")]
    TooMany,
    /// The last row of the first `row` rows and the form would have the entry.
    #[error("{0}")]
    Wide(RowWide),
}

impl From<Memory> for PushStop {
    ghost use Rattle.std.specs.Prelude.{◌≡◌};
    ghost use Rattle.int_rows.specs.declared.stop.PushStop.TheVariants.{Memory as OutOfMemory};

    ghost from_gives = { λ _ e. e ≡ OutOfMemory };

    fn from(_: Memory) -> PushStop {
        PushStop::Memory
    }
}

/// The primitive row of a basis has an entry of 2^63 or more in magnitude.
#[derive(Clone, Copy, Debug, PartialEq, Eq, Error)]
#[error("row {row} has the entry {entry}")]
pub struct RowWide {
    pub row: usize,
    pub entry: i128,
}
