use base::Memory;
use thiserror::Error;

/// Why no token is made.
#[derive(Debug, Drop, Error)]
pub enum TokenStop {
    #[error("out of memory")]
    Memory,
    #[error("the proof or evidence is of another form than the query")]
    OtherForm,
    #[error("the guard doesn't hold at the point")]
    NoInstance,
    #[error("the instance's head satisfies the lemma")]
    NotBroken,
}

impl From<Memory> for TokenStop {
    ghost use Rattle.std.specs.Prelude.{◌≡◌};
    ghost use Rattle.chc_tokens.specs.declared.stop.TokenStop.TheVariants.{Memory as OutOfMemory};

    ghost from_gives = { λ _ e. e ≡ OutOfMemory };

    fn from(_: Memory) -> TokenStop {
        TokenStop::Memory
    }
}
