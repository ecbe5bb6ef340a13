ghost use Rattle.std.specs.Prelude.{◌≡◌};
ghost use Rattle.obligation_tree.specs.Closing.{is_same_pred, hits};

use crate::obligation::Obligation;
use cube_forms::Lemma;

/// What closes obligations. It borrows what it names.
#[derive(Clone, Copy)]
pub enum Cause<'a> {
    /// A lemma that has now this level.
    Lemma {
        pred: u32,
        level: u32,
        lemma: &'a Lemma,
    },
    /// A fact, of false where there is no predicate.
    Fact {
        pred: Option<u32>,
        tuple: &'a [i64],
    },
    /// One more level is closed, and the root has this level from now on.
    Raise {
        level: u32,
    },
}

/// Whether both are the same predicate, or both are false.
fn is_same_pred(one: Option<u32>, other: Option<u32>) -> bool
    ensures { result ≡ is_same_pred one other }
{
    match (one, other) {
        (None, None) => true,
        (Some(one), Some(other)) => one == other,
        _ => false,
    }
}

impl Cause<'_> {
    /// Whether the cause closes the obligation of this number by itself, and not only because what
    /// it hangs under is closed.
    pub(crate) fn hits(self, number: u32, obligation: &Obligation) -> bool
        ensures { result ≡ hits self.entry number obligation.now }
    {
        match self {
            Cause::Lemma { pred, level, lemma } => {
                is_same_pred(Some(pred), obligation.pred)
                    && obligation.level <= level
                    && lemma.excludes(obligation.point.as_slice())
            }
            Cause::Fact { pred, tuple } => {
                is_same_pred(pred, obligation.pred) && obligation.cube.holds(tuple)
            }
            Cause::Raise { .. } => number > 0,
        }
    }
}
