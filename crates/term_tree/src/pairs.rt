ghost use Rattle.std.specs.Prelude.{◌≡◌, ◌==◌, ◌&&◌, ◌++◌, ◌∷◌, ℕ, Bool, [], length, true, IfOk, OnOk, IfSome, IfNone};
ghost use Rattle.std.specs.List.{list_all};
ghost use Rattle.std.specs.BTreeSet.{keys};
ghost use Rattle.term_tree.specs.machinery.Pairs.{is_before};
ghost use Rattle.term_tree.specs.Same.{same_parts};

use crate::node::TermId;
use base::Memory;
use std::collections::BTreeSet;

/// Puts a pair of terms into the set.
pub(crate) fn put_pair(
    pairs: &mut BTreeSet<(u32, u32)>,
    left: TermId,
    right: TermId,
) -> Result<(), Memory>
    ensures { OnOk result ((test : ℕ × ℕ → Bool) → list_all test (keys pairs.new) ≡ (list_all test (keys pairs.old) && test (left.0, right.0))) }
{
    pairs.insert((left.0, right.0))?;
    Ok(())
}

/// Puts each term with its partner of the same place, where there are as many on both sides.
pub(crate) fn put_partners(
    pairs: &mut BTreeSet<(u32, u32)>,
    lefts: &[TermId],
    rights: &[TermId],
) -> Result<bool, Memory>
    ensures as_many { IfOk result (λ as_many. as_many ≡ (length lefts.now == length rights.now)) }
    ensures put { IfOk result (λ as_many. as_many ≡ true → (test : ℕ × ℕ → Bool) → list_all test (keys pairs.new)
        ≡ (list_all test (keys pairs.old) && same_parts (λ i j. test (i, j)) lefts.now rights.now)) }
{
    if lefts.len() != rights.len() {
        return Ok(false);
    }
    let mut at = 0;
    while at < lefts.len() {
        put_pair(pairs, lefts[at], rights[at])?;
        at += 1;
    }
    Ok(true)
}

/// Takes the greatest pair out of the set.
pub(crate) fn take_greatest_pair(pairs: &mut BTreeSet<(u32, u32)>) -> Option<(u32, u32)>
    ensures taken { IfSome result (λ pair. keys pairs.old ≡ keys pairs.new ++ pair ∷ []) }
    ensures before { IfSome result (λ pair. list_all (is_before pair) (keys pairs.new) ≡ true) }
    ensures none { IfNone result (keys pairs.old ≡ []) }
{
    pairs.pop_last()
}
