ghost use Rattle.std.specs.Prelude.{◌≡◌};
ghost use Rattle.term_tree.specs.declared.refusal.Kind.TheVariants.{CommandForm};
ghost use Rattle.term_check.specs.Rules.{fault};

use crate::part::Fault;
use base::Memory;
use std::alloc::{AllocError, AllocFailed};
use term_tree::Kind;
use thiserror::Error;

/// Why a tree gave no term.
#[derive(Debug, Drop, Error)]
pub enum TermStop {
    #[error("out of memory")]
    Memory,
    /// The first rule that the tree breaks.
    #[error("a rule is broken")]
    Fault(Fault),
}

impl From<Memory> for TermStop {
    ghost use Rattle.std.specs.Prelude.{◌≡◌};
    ghost use Rattle.term_check.specs.declared.stop.TermStop.TheVariants.{Memory as OutOfMemory};

    ghost from_gives = { λ _ e. e ≡ OutOfMemory };

    fn from(_: Memory) -> TermStop {
        TermStop::Memory
    }
}

impl From<AllocError> for TermStop {
    ghost use Rattle.std.specs.Prelude.{◌≡◌};
    ghost use Rattle.term_check.specs.declared.stop.TermStop.TheVariants.{Memory as OutOfMemory};

    ghost from_gives = { λ _ e. e ≡ OutOfMemory };

    fn from(_: AllocError) -> TermStop {
        TermStop::Memory
    }
}

impl<T: Drop> From<AllocFailed<T>> for TermStop {
    ghost use Rattle.std.specs.Prelude.{◌≡◌};
    ghost use Rattle.term_check.specs.declared.stop.TermStop.TheVariants.{Memory as OutOfMemory};

    ghost from_gives = { λ _ e. e ≡ OutOfMemory };

    fn from(_: AllocFailed<T>) -> TermStop {
        TermStop::Memory
    }
}

/// The tree that starts there hasn't the form of a term.
pub fn bad_form(start: u32) -> TermStop
    ensures { result ≡ TermStop.Fault (fault CommandForm start) }
{
    TermStop::Fault(Fault {
        kind: Kind::CommandForm,
        offset: start,
    })
}
