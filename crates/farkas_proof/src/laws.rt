//! Laws of the definitions, as contracts of functions that do nothing.

ghost use Rattle.std.specs.Prelude.{◌≡◌, true, ℕ, List, [], ◌∷◌, ◌++◌, ◌+◌, ◌*◌, ◌-◌, ◌<◌, ◌≤◌, length, ℤ, pos, Some, slice_get};
ghost use Rattle.lin_atoms.specs.Truth.{truth};
ghost use Rattle.lin_atoms.specs.declared.form.Form.{Form};
ghost use Rattle.refutation_trees.specs.Refutation.{HasNoPoint, is_refutation, form_end};
ghost use Rattle.refutation_trees.specs.declared.tree.Refutation.{Refutation};
ghost use Rattle.std.specs.List.{Contains, list_all};
ghost use Rattle.base.specs.Limits.{most_rows};
ghost use Rattle.lin_atoms.specs.declared.lit.Lit.{Lit};
ghost use Rattle.int_rows.specs.Node.{all_bounds, end_of_quotients, in_rows};
ghost use Rattle.int_rows.specs.Ready.{ready, ready_fits};
ghost use Rattle.refutation_trees.specs.Flatten.{disjunctions, literals};
ghost use Rattle.refutation_trees.specs.GivenUp.{AreOfNode, IsEvidence, IsGivenUp};
ghost use Rattle.farkas_proof.specs.Instances.{both, first_is_one, is_double, is_even, is_multiple_of_second, is_one, is_two, large, large_on_first, large_on_second};
ghost use Rattle.refutation_trees.specs.Split.{HaveTrees, IsInner, IsNode, Node, is_point_of, joined, start};
ghost use Rattle.refutation_trees.specs.declared.evidence.Evidence.{Evidence};
ghost use Rattle.refutation_trees.specs.declared.evidence.Evidence.TheVariants.{Coordinate, Nodes, Row, Rows};

/// A form with a refutation has no integer point.
pub fn refuted_forms_have_no_point()
    ensures { (form : Form) (tree : Refutation) → is_refutation form tree ≡ true → HasNoPoint form }
{}

/// Where literals come last, those before them keep their forms and bounds, and the numbers of
/// their quotients.
pub fn quotients_keep_their_numbers()
    ensures ends { (q : ℕ) (above below : List Lit) → end_of_quotients q (above ++ below) ≡ end_of_quotients (end_of_quotients q above) below }
    ensures bounds { (q : ℕ) (above below : List Lit) → all_bounds q (above ++ below) ≡ all_bounds q above ++ all_bounds (end_of_quotients q above) below }
{}

/// A tree may begin with all literals of the flattened form, in their order.
pub fn all_literals_may_join()
    ensures { (form : Form) → IsNode form (record { lits = literals form; left_out = []; open_cases = disjunctions form }) }
{}

/// Split trees lose no integer point: one of a form is a point of the node where its trees start,
/// one of a node is a point of the node that a literal joins, and one of an inner node is a point of
/// a node below it.
pub fn points_go_on_below()
    ensures first { (form : Form) (point : List ℤ) → truth point form ≡ true → is_point_of point (start form) ≡ true }
    ensures joins { (node : Node) (k : ℕ) (lit : Lit) (point : List ℤ) → slice_get node.left_out k ≡ Some lit → is_point_of point node ≡ true → is_point_of point (joined k lit node) ≡ true }
    ensures inner { (q : ℕ) (node : Node) (below : List Node) (point : List ℤ) → IsInner q node below → is_point_of point node ≡ true → (b : Node) × Contains below b × (is_point_of point b ≡ true) }
{}

/// Trees may end at any node, and those on some nodes don't depend on those on others.
pub fn trees_stand_side_by_side()
    ensures leaves { (q : ℕ) (nodes : List Node) → HaveTrees q nodes 0 }
    ensures together { (q : ℕ) (these those : List Node) (m n : ℕ) → HaveTrees q these m → HaveTrees q those n → HaveTrees q (these ++ those) (m + n) }
    ensures apart { (q : ℕ) (these those : List Node) (n : ℕ) → HaveTrees q (these ++ those) n → (m : ℕ) × (k : ℕ) × HaveTrees q these m × HaveTrees q those k × (m + k ≡ n) }
{}

/// With a = 2^62 + 1 the form `a*x + y = 3 and x + a*y = 5` has a row with the entry `a*a - 1`.
pub fn large_equations_have_a_wide_row()
    ensures { IsEvidence (both large_on_first large_on_second) (Row (large_on_first ∷ large_on_second ∷ []) (0 ∷ 1 ∷ []) (pos (large * large - 1))) }
{}

/// The form `x = 2^62 * y and y = 2` has a vertex where x is 2^63.
pub fn a_large_multiple_has_a_wide_floor()
    ensures { IsEvidence (both is_multiple_of_second is_two) (Coordinate (is_multiple_of_second ∷ is_two ∷ []) (0 ∷ []) (pos 2 ∷ pos 0 ∷ []) 0) }
{}

/// The form `y = 2*x and y = 1` has a vertex where x is a half, so a split tree with an inner node.
pub fn a_half_is_split()
    ensures { IsEvidence (both is_double is_one) (Nodes 1) }
{}

/// The form `2 divides x and x = 1` has a vertex where the quotient of x by 2 is a half, so a split
/// tree with an inner node, whose branch is on the quotient.
pub fn a_quotient_is_split()
    ensures { IsEvidence (both is_even first_is_one) (Nodes 1) }
{}

/// Literals of a node with more than 1,024 forms of two or more variables are evidence.
pub fn many_rows_are_given_up()
    ensures { (form : Form) (lits : List Lit) → AreOfNode form lits → most_rows < length (in_rows (all_bounds (form_end form) lits)) → IsEvidence form (Rows lits) }
{}

/// A form of at most one literal, whose numbers have room once it is made ready, and of no
/// disjunction is never given up by a row.
pub fn one_literal_has_no_wide_row()
    ensures { (form : Form) → length (literals form) ≤ 1 → disjunctions form ≡ [] → list_all
        (λ lit. ready_fits (ready (form_end form) lit)) (literals form) ≡ true → (lits : List Lit) (basis : List ℕ) (wide : ℤ)
        → IsGivenUp form (Row lits basis wide) → ⊥ }
{}

/// A form without literals and disjunctions is never given up.
pub fn nothing_is_not_given_up()
    ensures { (form : Form) → literals form ≡ [] → disjunctions form ≡ [] → (evidence : Evidence) → IsGivenUp form evidence → ⊥ }
{}
