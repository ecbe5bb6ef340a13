use base::Memory;
use term_tree::TermId;
use thiserror::Error;

/// Why a term has no linear form here.
#[derive(Debug, Drop, Error)]
pub enum FormStop {
    #[error("out of memory")]
    Memory,
    /// The linear form of this subterm has a coefficient or constant of 2^63 or more in magnitude.
    #[error("a coefficient or constant of 2^63 or more in magnitude")]
    Wide { term: TermId },
}

impl From<Memory> for FormStop {
    ghost use Rattle.std.specs.Prelude.{◌≡◌};
    ghost use Rattle.term_forms.specs.declared.stop.FormStop.TheVariants.{Memory as OutOfMemory};

    ghost from_gives = { λ _ e. e ≡ OutOfMemory };

    fn from(_: Memory) -> FormStop {
        FormStop::Memory
    }
}
