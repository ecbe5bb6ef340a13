ghost use Rattle.std.specs.Prelude.{◌≡◌};
ghost use Rattle.book_rules.specs.State.{holds_of};

use cube_forms::Tuple;
use obligation_tree::Obligation;

/// Whether the obligation holds the conclusion.
pub(crate) fn holds(obligation: &Obligation, conclusion: &Option<(u32, Tuple)>) -> bool
    ensures { result ≡ holds_of obligation.now.pred obligation.now.cube conclusion.now }
{
    match (obligation.pred, conclusion) {
        (None, None) => true,
        (Some(pred), Some(pair)) => { pred == pair.0 && obligation.cube.holds(pair.1.as_slice()) }
        _ => false,
    }
}
