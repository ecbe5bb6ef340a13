ghost use Rattle.std.specs.Prelude.{◌≡◌};
ghost use Rattle.outside_io.specs.Turns.{given_turn, ends_after};

use thiserror::Error;

/// The object outside has failed, and has counted it.
#[derive(Clone, Copy, Debug, PartialEq, Eq, Error)]
#[error("the object outside has failed")]
pub struct Failed;

/// How the last turn of a source or a sink went. A turn is one call of `take` or `put`.
#[derive(Clone, Copy)]
pub enum Turn {
    /// There was none yet.
    Before,
    /// Bytes were moved, or no byte was asked for.
    Moved,
    /// The source has no more bytes.
    End,
    /// The source has failed.
    Fault,
}

impl Turn {
    /// The turn of a `take` that gave `count` bytes.
    pub(crate) fn of_take(count: usize, into: &[u8]) -> Turn
        ensures { result ≡ given_turn count into.now }
    {
        if count == 0 && !into.is_empty() {
            Turn::End
        } else {
            Turn::Moved
        }
    }

    /// How often a source was at its end, after this turn of it.
    pub(crate) fn counted_in(self, ends: u64) -> u64
        ensures { result ≡ ends_after self ends }
    {
        match self {
            Turn::End => ends.saturating_add(1),
            _ => ends,
        }
    }
}
