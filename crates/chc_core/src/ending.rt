ghost use Rattle.std.specs.Prelude.{◌≡◌, Some, None};
ghost use Rattle.book_rules.specs.declared.end.End.TheVariants.{Stalled};
ghost use Rattle.book_rules.specs.Legal.{all_stalled_from, end, sat};
ghost use Rattle.chc_core.specs.Views.{state_of};
ghost use Rattle.step_rules.specs.Views.{obligations_of};
ghost use Rattle.chc_core.specs.machinery.Books.{IsBook};

use crate::parts::Parts;
use book_rules::End;
use step_rules::false_of;

/// Whether every live obligation without live children is stalled.
fn is_stuck(parts: &Parts) -> bool
    requires { IsBook parts.now }
    ensures { result ≡ all_stalled_from (obligations_of parts.now.tree.nodes) 0 (obligations_of parts.now.tree.nodes) }
{
    parts.tree.tree_law();
    for id in parts.tree.live_leaves() {
        if !parts.tree.is_stalled(*id) {
            return false;
        }
    }
    true
}

/// The least level below the book's that no lemma has exactly.
fn bare(parts: &Parts) -> Option<End>
    ensures { result ≡ sat (state_of parts.now) }
{
    for level in 1..parts.level {
        if parts.frames.level_is_bare(level) {
            return Some(End::Sat { level });
        }
    }
    None
}

/// How the book has ended, if it has. It looks at one fact, at the levels, and at the live
/// obligations without live children.
pub(crate) fn end(parts: &Parts) -> Option<End>
    requires { IsBook parts.now }
    ensures { result ≡ end (state_of parts.now) }
{
    if let Some(fact) = false_of(&parts.facts) {
        return Some(End::Unsat { fact });
    }
    let sat = bare(parts);
    if sat.is_some() {
        return sat;
    }
    if parts.spent == parts.given {
        return Some(End::Spent { units: parts.spent });
    }
    if is_stuck(parts) {
        return Some(End::Stalled);
    }
    None
}
