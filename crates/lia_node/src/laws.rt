//! Laws of the definitions, as contracts of functions that do nothing.

ghost use Rattle.std.specs.Prelude.{◌≡◌, ◌<◌, ℕ, List, ◌∷◌, [], ◌++◌, ℤ, ◌+ℤ◌, pos, length, true, ◌||◌};
ghost use Rattle.std.specs.List.{list_all};
ghost use Rattle.lin_atoms.specs.Truth.{lit_is_below, lit_truth};
ghost use Rattle.lin_atoms.specs.declared.lit.Lit.{Lit};
ghost use Rattle.int_rows.specs.Basis.{MeetsBounds, Point};
ghost use Rattle.int_rows.specs.Node.{end_of_quotients, system};
ghost use Rattle.int_rows.specs.Rows.{SolvesAll};
ghost use Rattle.int_rows.specs.Table.{Table, width};
ghost use Rattle.simplex_core.specs.Meaning.{IsConflict, system_of};
ghost use Rattle.refutation_trees.specs.Split.{HasSolution, HasVertexBetween, IsInner, Node, at_least, at_most, with_bound};
ghost use Rattle.lia_node.specs.Known.{are_known, is_legal};
ghost use Rattle.lia_node.specs.Nodes.{node_table};

/// Where multipliers of bounds contradict, the equations have no solution within the bounds.
pub fn conflicts_have_no_solution()
    ensures { (t : Table) (ms : List ℤ) (p : Point) → IsConflict t ms → 0 < p.den → length p.nums ≡ width t → SolvesAll p.nums t.rows → MeetsBounds (system_of t) p → ⊥ }
{}

/// Where multipliers of the bounds of a node's tableau contradict, there is no integer point at which
/// all its literals are true.
pub fn conflicts_have_no_point()
    ensures { (q : ℕ) (lits : List Lit) (ms point : List ℤ) → list_all is_legal lits ≡ true → list_all (lit_is_below q) lits ≡ true → length point ≡ q
        → IsConflict (node_table q lits) ms → list_all (lit_truth point) lits ≡ true → ⊥ }
{}

/// A fraction that a node tells splits it: the node is an inner one, whose sides are those of a
/// branch.
pub fn fractions_split()
    ensures { (q : ℕ) (node : Node) (x : ℕ) (c : ℤ) → HasSolution q node.lits → HasVertexBetween (system q node.lits) x c
        → IsInner q node (with_bound node (at_most x c) ∷ with_bound node (at_least x (c +ℤ pos 1)) ∷ []) }
{}

/// Each point is on one side of a branch, and a node's literals are known with either side's bound.
pub fn sides_cover_and_are_known()
    ensures cover { (point : List ℤ) (x : ℕ) (c : ℤ) → (lit_truth point (at_most x c) || lit_truth point (at_least x (c +ℤ pos 1))) ≡ true }
    ensures at_most { (q x : ℕ) (c : ℤ) (lits : List Lit) → are_known q lits ≡ true → x < end_of_quotients q lits → are_known q (lits ++ at_most x c ∷ []) ≡ true }
    ensures at_least { (q x : ℕ) (c : ℤ) (lits : List Lit) → are_known q lits ≡ true → x < end_of_quotients q lits → are_known q (lits ++ at_least x c ∷ []) ≡ true }
{}
