use base::Memory;
use thiserror::Error;

/// Why a tree wasn't taken as a proof. Nodes are numbered in preorder, from 0.
#[derive(Debug, Drop, Error)]
pub enum CheckStop {
    #[error("out of memory")]
    Memory,
    /// The node isn't legal where it stands.
    #[error("node {node} proves nothing")]
    NoProof { node: u32 },
    /// The node derives a literal with a coefficient of 2^63 or a constant of 2^64 or more.
    #[error("node {node} derives a literal that is too wide")]
    SumWide { node: u32 },
}

impl From<Memory> for CheckStop {
    ghost use Rattle.std.specs.Prelude.{◌≡◌};
    ghost use Rattle.farkas_proof.specs.declared.stop.CheckStop.TheVariants.{Memory as OutOfMemory};

    ghost from_gives = { λ _ e. e ≡ OutOfMemory };

    fn from(_: Memory) -> CheckStop {
        CheckStop::Memory
    }
}
