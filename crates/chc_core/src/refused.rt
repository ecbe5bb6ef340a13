use base::Memory;
use book_rules::{By, End};
use thiserror::Error;

/// Why a step isn't taken. The book is as it was.
#[derive(Debug, Drop, Error)]
pub enum Refused {
    #[error("out of memory")]
    Memory,
    /// The book has ended, by another end than that its units are spent.
    #[error("the book has ended")]
    Ended { end: End },
    /// The units that were given are spent.
    #[error("all {units} units are spent")]
    Spent { units: u32 },
    /// The first rule that the step breaks, and what breaks it in the book now.
    #[error("rule {number} is broken")]
    Rule { number: u8, by: By },
}

impl From<Memory> for Refused {
    ghost use Rattle.std.specs.Prelude.{◌≡◌};
    ghost use Rattle.chc_core.specs.declared.refused.Refused.TheVariants.{Memory as OutOfMemory};

    ghost from_gives = { λ _ e. e ≡ OutOfMemory };

    fn from(_: Memory) -> Refused {
        Refused::Memory
    }
}
