ghost use Rattle.std.specs.Prelude.{◌≡◌, ◌==◌, ◌||◌, ◌<◌, ℕ, true, false, OnOk, IfSome, IfNone, IsTrue};
ghost use Rattle.std.specs.Ordering.{nat_cmp};
ghost use Rattle.std.specs.BTreeSet.{contains};
ghost use Rattle.term_tree.specs.Subterms.{is_among, is_part};

use crate::node::{Node, TermId};
use base::Memory;
use std::collections::BTreeSet;

/// Puts a number into the set.
fn put(numbers: &mut BTreeSet<u32>, number: u32) -> Result<(), Memory>
    ensures { OnOk result ((q : ℕ) → contains nat_cmp numbers.new q ≡ (contains nat_cmp numbers.old q || (number == q))) }
{
    numbers.insert(number)?;
    Ok(())
}

fn put_all(numbers: &mut BTreeSet<u32>, ids: &[TermId]) -> Result<(), Memory>
    ensures { OnOk result ((q : ℕ) → contains nat_cmp numbers.new q ≡ (contains nat_cmp numbers.old q || is_among q ids.now)) }
{
    for id in ids {
        put(numbers, id.0)?;
    }
    Ok(())
}

/// Puts the numbers of a node's parts into the set.
pub(crate) fn put_parts(numbers: &mut BTreeSet<u32>, node: &Node) -> Result<(), Memory>
    ensures { OnOk result ((q : ℕ) → contains nat_cmp numbers.new q ≡ (contains nat_cmp numbers.old q || is_part q node.now)) }
{
    match node {
        Node::Num(_) | Node::True | Node::False | Node::Var { .. } => Ok(()),
        Node::LetVar { bound } => put(numbers, bound.0),
        Node::Pred { args, .. } => put_all(numbers, args.as_slice()),
        Node::Op { args, .. } => put_all(numbers, args.as_slice()),
        Node::Divisible { arg, .. } => put(numbers, arg.0),
        Node::Let { bound, body } => {
            put_all(numbers, bound.as_slice())?;
            put(numbers, body.0)
        }
        Node::Forall { body, .. } => put(numbers, body.0),
        Node::Exists { body, .. } => put(numbers, body.0),
    }
}

/// Takes the greatest number out of the set.
pub(crate) fn take_greatest(numbers: &mut BTreeSet<u32>) -> Option<u32>
    ensures taken { IfSome result (λ k. (q : ℕ) → contains nat_cmp numbers.old q ≡ (contains nat_cmp numbers.new q || (k == q))) }
    ensures less { IfSome result (λ k. (q : ℕ) → contains nat_cmp numbers.new q ≡ true → q < k) }
    ensures none { IfNone result ((q : ℕ) → contains nat_cmp numbers.old q ≡ false) }
{
    numbers.pop_last()
}
