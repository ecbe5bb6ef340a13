//! Laws of the definitions, as contracts of functions that do nothing.

ghost use Rattle.std.specs.Prelude.{◌≡◌, ◌↔◌, ℕ, List, [], Bool, length, true, false};
ghost use Rattle.std.specs.List.Sorted.{IsStrictlyIncreasing};
ghost use Rattle.obligation_tree.specs.Nodes.{closed_with, is_live_at, leaf_numbers, live_numbers, node_at, root};
ghost use Rattle.obligation_tree.specs.Closing.{after_raise, closing};
ghost use Rattle.obligation_tree.specs.Hanging.{HangsUnder};
ghost use Rattle.obligation_tree.specs.Shape.{IsTree};
ghost use Rattle.obligation_tree.specs.declared.obligation.Obligation.{Obligation};
ghost use Rattle.obligation_tree.specs.declared.node.Node.{Node};

/// A live obligation is closed exactly where the test tells of it, or of one that it hangs under.
pub fn what_is_told_of_falls_with_all_that_hangs_under_it()
    ensures { (test : ℕ → Obligation → Bool) (entry : ℕ) (nodes : List Node) (number : ℕ) → IsTree nodes → is_live_at nodes number ≡ true
        → (is_live_at (closing test entry [] nodes) number ≡ false)
        ↔ ((above : ℕ) × HangsUnder nodes above number × (test above (node_at nodes above).obligation ≡ true)) }
{}

/// What is closed now has the entry's number, what was closed keeps what it had, and the rest stays
/// as it was: closing changes nothing else.
pub fn closing_only_closes()
    ensures long { (test : ℕ → Obligation → Bool) (entry : ℕ) (nodes : List Node) → length (closing test entry [] nodes) ≡ length nodes }
    ensures now { (test : ℕ → Obligation → Bool) (entry : ℕ) (nodes : List Node) (number : ℕ) → is_live_at nodes number ≡ true
        → is_live_at (closing test entry [] nodes) number ≡ false → node_at (closing test entry [] nodes) number
        ≡ closed_with entry (node_at nodes number) }
    ensures before { (test : ℕ → Obligation → Bool) (entry : ℕ) (nodes : List Node) (number : ℕ) → is_live_at nodes number ≡ false
        → node_at (closing test entry [] nodes) number ≡ node_at nodes number }
    ensures live { (test : ℕ → Obligation → Bool) (entry : ℕ) (nodes : List Node) (number : ℕ) → is_live_at (closing test entry [] nodes) number ≡ true
        → node_at (closing test entry [] nodes) number ≡ node_at nodes number }
{}

/// The test doesn't tell of what stays live: so a lemma excludes the point of no live obligation of
/// its predicate and of at most its level, and no live obligation holds a fact.
pub fn what_stays_live_is_not_told_of()
    ensures { (test : ℕ → Obligation → Bool) (entry : ℕ) (nodes : List Node) (number : ℕ) → IsTree nodes → is_live_at (closing test entry [] nodes) number
        ≡ true → test number (node_at nodes number).obligation ≡ false }
{}

/// After a raise the root alone is live, if it was, and asks for false at the new level.
pub fn a_raise_leaves_the_root()
    ensures live { (level entry : ℕ) (nodes : List Node) (number : ℕ) → IsTree nodes → is_live_at (after_raise level entry nodes) number ≡ true → number ≡ 0 }
    ensures asks { (level entry : ℕ) (nodes : List Node) → IsTree nodes → (node_at (after_raise level entry nodes) 0).obligation ≡ root level }
{}

/// The numbers of the live obligations, and of those without live children, ascend.
pub fn numbers_ascend()
    ensures live { (nodes : List Node) → IsStrictlyIncreasing (live_numbers nodes) }
    ensures leaves { (nodes : List Node) → IsStrictlyIncreasing (leaf_numbers nodes) }
{}
