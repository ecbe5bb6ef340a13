use base::Memory;
use chc_core::End;
use thiserror::Error;

/// Why a worker gets no more jobs.
#[derive(Debug, Drop, Error)]
pub enum Over {
    #[error("out of memory")]
    Memory,
    /// The book has ended.
    #[error("the book has ended")]
    Ended(End),
    /// The book has no end, and a worker has noted want of memory.
    #[error("a worker wanted memory")]
    WorkerMemory,
}

impl From<Memory> for Over {
    ghost use Rattle.std.specs.Prelude.{◌≡◌};
    ghost use Rattle.shared_book.specs.declared.over.Over.TheVariants.{Memory as OutOfMemory};

    ghost from_gives = { λ _ e. e ≡ OutOfMemory };

    fn from(_: Memory) -> Over {
        Over::Memory
    }
}
