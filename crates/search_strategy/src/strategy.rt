//! What is tried in a lemma's place, and what of that differs between workers.

ghost use Rattle.std.specs.Prelude.{◌≡◌};
ghost use Rattle.search_strategy.specs.machinery.Passes.{strategy_of};

/// An old lemma of the predicate is tried first in a new one's place.
pub const TRIES_OLD: bool = true;

/// Cubes that bounds exclude are tried in a lemma's place.
pub const TRIES_BOUNDS: bool = true;

/// Cubes that hulls shut out are tried in a lemma's place.
pub const TRIES_HULLS: bool = true;

/// Sums of two bounds are tried in a lemma's place.
pub const TRIES_SUMS: bool = true;

/// The bounds of a lemma are widened.
pub const WIDENS_BOUNDS: bool = true;

/// A lemma is raised as far as the frames carry it before it is learnt.
pub const RAISES_LEMMAS: bool = true;

/// An older lemma of the same cube is lifted in place of a copy.
pub const LIFTS_OLDER: bool = true;

/// The order in which the work on a lemma tries what it tries. As the constants above, it decides what is
/// tried, and nothing else: each step is made of tokens, whatever they are, and the book judges it.
#[derive(Clone, Copy)]
pub struct Strategy {
    /// The literals that no proof of a lemma uses are left out of its cube at once, before all else.
    pub cores_first: bool,
    /// Where all guesses are tried, the last literals of a cube are left out first.
    pub reversed: bool,
}

/// The strategy of the worker of this number, from 1. The first one uses that which alone solves the most.
/// The others differ from it in the order of what they try, since one book takes the lemmas of all: those
/// of even numbers leave out literals in the other order, and those of odd ones begin with what the proofs
/// use. A worker without hints would learn weak lemmas, which lead the others away.
pub fn strategy_of(worker: u32) -> Strategy
    ensures { result ≡ strategy_of worker }
{
    Strategy {
        cores_first: worker > 1 && worker % 2 == 1,
        reversed: worker % 2 == 1,
    }
}
