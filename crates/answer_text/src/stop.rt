ghost use Rattle.std.specs.Prelude.{◌≡◌};
ghost use Rattle.answer_text.specs.declared.stop.AnswerStop.TheVariants.{BadAnswer};

use base::Memory;
use std::alloc::{AllocError, AllocFailed};
use thiserror::Error;

/// Why a text gave no answer.
#[derive(Debug, Drop, Error)]
pub enum AnswerStop {
    #[error("out of memory")]
    Memory,
    /// The text is no answer to the script; its first fault is here.
    #[error("no answer at byte {offset}")]
    BadAnswer { offset: u64 },
}

impl From<Memory> for AnswerStop {
    ghost use Rattle.std.specs.Prelude.{◌≡◌};
    ghost use Rattle.answer_text.specs.declared.stop.AnswerStop.TheVariants.{Memory as OutOfMemory};

    ghost from_gives = { λ _ e. e ≡ OutOfMemory };

    fn from(_: Memory) -> AnswerStop {
        AnswerStop::Memory
    }
}

impl From<AllocError> for AnswerStop {
    ghost use Rattle.std.specs.Prelude.{◌≡◌};
    ghost use Rattle.answer_text.specs.declared.stop.AnswerStop.TheVariants.{Memory as OutOfMemory};

    ghost from_gives = { λ _ e. e ≡ OutOfMemory };

    fn from(_: AllocError) -> AnswerStop {
        AnswerStop::Memory
    }
}

impl<T: Drop> From<AllocFailed<T>> for AnswerStop {
    ghost use Rattle.std.specs.Prelude.{◌≡◌};
    ghost use Rattle.answer_text.specs.declared.stop.AnswerStop.TheVariants.{Memory as OutOfMemory};

    ghost from_gives = { λ _ e. e ≡ OutOfMemory };

    fn from(_: AllocFailed<T>) -> AnswerStop {
        AnswerStop::Memory
    }
}

/// The tree that starts there is wrong.
pub fn bad_at(offset: u32) -> AnswerStop
    ensures { result ≡ BadAnswer offset }
{
    AnswerStop::BadAnswer {
        offset: u64::from(offset),
    }
}
