ghost use Rattle.std.specs.Prelude.{◌≡◌, ◌↔◌, ◌<◌, ◌++◌, ◌&&◌, [], ◌∷◌, ℕ, ℤ, pos, List, length, slice_get, Some, IsTrue, true, false};
ghost use Rattle.term_tree.specs.declared.definition.Definition.{Definition};
ghost use Rattle.term_tree.specs.declared.script.Script.{Script};
ghost use Rattle.term_tree.specs.declared.node.OpKind.TheVariants.{Implies, Div, Mod};
ghost use Rattle.term_tree.specs.declared.node.Node.TheVariants.{Op, Pred};
ghost use Rattle.term_tree.specs.declared.node.TermId.{TermId};
ghost use Rattle.term_tree.specs.declared.scalar.Value.TheVariants.{Int, Bool as Truth};
ghost use Rattle.term_tree.specs.declared.node.Node.{Node};
ghost use Rattle.term_tree.specs.declared.scalar.Value.{Value};
ghost use Rattle.term_tree.specs.Arena.{IsArena};
ghost use Rattle.term_tree.specs.Value.{Environment, node_worth, value_of};
ghost use Rattle.term_tree.specs.Truth.{Interpretation, HasValue, node_meaning};
ghost use Rattle.term_tree.specs.Agreement.{AgreeEverywhere, IsTrueBelow, all_true, all_positive};
ghost use Rattle.term_tree.specs.Legal.{NamesInScope, is_scoped, node_is_scoped, next_variable, node_numbers};
ghost use Rattle.term_tree.specs.Same.{is_alike, is_same_tree, parts_of, same_parts};
ghost use Rattle.term_tree.specs.Head.{has_head, node_has_head};
ghost use Rattle.term_tree.specs.Division.{IsDivision};
ghost use Rattle.term_tree.specs.Operators.{result_of};
ghost use Rattle.term_tree.specs.Solution.{AreFormulas, DefinesEach, IsSolution, interpretation_of};
ghost use Rattle.term_tree.specs.Subterms.{IsPlain};
ghost use Rattle.term_tree.specs.declared.script.Pred.{Pred as Declared};
ghost use Rattle.term_tree.specs.Sorts.{node_sort, sort_of};
ghost use Rattle.term_tree.specs.Constants.{constant_of, node_constant};

/// The law of a node: in an arena a term has a value exactly where its node gives that value over
/// what its parts mean. So truth goes by cases on terms, and sharing and order play no part in it.
pub fn meaning_of_nodes()
    ensures { (I : Interpretation) (nodes : List Node) (id : ℕ) (node : Node) (env : Environment) (v : Value) →
        IsArena nodes → slice_get nodes id ≡ Some node →
        (HasValue I nodes id env v ↔ node_meaning I (HasValue I nodes) node env v) }
{}

/// The law of a node for the function: in an arena the value of a term is what its node gives over
/// the values of its parts.
pub fn worth_of_nodes()
    ensures { (nodes : List Node) (id : ℕ) (node : Node) (env : Environment) →
        IsArena nodes → slice_get nodes id ≡ Some node →
        value_of nodes id env ≡ node_worth (value_of nodes) node env }
{}

/// A term has at most one value.
pub fn at_most_one_value()
    ensures { (I : Interpretation) (nodes : List Node) (id : ℕ) (env : Environment) (v w : Value) →
        HasValue I nodes id env v → HasValue I nodes id env w → v ≡ w }
{}

/// Without predicates and quantifiers a term has exactly the value that the function gives, under
/// all definitions.
pub fn value_without_predicates()
    ensures { (I : Interpretation) (nodes : List Node) (id : ℕ) (env : Environment) (v : Value) →
        IsArena nodes → id < length nodes → IsPlain nodes id →
        (HasValue I nodes id env v ↔ (v ≡ value_of nodes id env)) }
{}

/// `div` and `mod` are the one quotient and the one remainder of Euclid's division.
pub fn one_division()
    ensures { (m n q r : ℤ) → (n ≡ pos 0 → ⊥) →
        (IsDivision m n q r ↔ ((result_of Div (Int m ∷ Int n ∷ []) ≡ Int q) × (result_of Mod (Int m ∷ Int n ∷ []) ≡ Int r))) }
{}

/// A universal term is false where its body is false at one value: so it is false, and not true, that
/// every integer is at least 0.
pub fn not_all_are_positive()
    ensures untrue { (I : Interpretation) (env : Environment) → HasValue I all_positive 3 env (Truth true) → ⊥ }
    ensures false_ { (I : Interpretation) (env : Environment) → HasValue I all_positive 3 env (Truth false) }
{}

/// Where every predicate is defined as `true`, an implication that ends in a predicate is true,
/// whatever is known of its other parts.
pub fn heads_are_true_under_true()
    ensures { (nodes : List Node) (id pred : ℕ) (parts args : List TermId) (head : TermId) (env : Environment) →
        IsArena nodes → slice_get nodes id ≡ Some (Op Implies (parts ++ head ∷ [])) → slice_get nodes head.0 ≡ Some (Pred pred args) →
        HasValue all_true nodes id env (Truth true) }
{}

/// A term that ends in a predicate below n is true where each of these is true everywhere.
pub fn headed_terms_are_true()
    ensures { (I : Interpretation) (n : ℕ) (nodes : List Node) (id : ℕ) (env : Environment) →
        IsArena nodes → IsTrueBelow n I → IsTrue (has_head n nodes id) → HasValue I nodes id env (Truth true) }
{}

/// The law of a node for terms that end in a predicate.
pub fn head_of_nodes()
    ensures { (n : ℕ) (nodes : List Node) (id : ℕ) (node : Node) →
        IsArena nodes → slice_get nodes id ≡ Some node →
        has_head n nodes id ≡ node_has_head n nodes (has_head n nodes) node }
{}

/// A solution stays one when each definition is replaced by a formula that has the same value everywhere.
pub fn same_values_same_solution()
    ensures { (script : Script) (old new : List Definition) →
        AgreeEverywhere (interpretation_of old) (interpretation_of new) → DefinesEach 0 script.preds new → AreFormulas script.preds new →
        IsSolution script old → IsSolution script new }
{}

/// The law of a node for sorts.
pub fn sort_of_nodes()
    ensures { (preds : List Declared) (nodes : List Node) (id : ℕ) (node : Node) →
        IsArena nodes → slice_get nodes id ≡ Some node →
        sort_of preds nodes id ≡ node_sort preds (sort_of preds nodes) node }
{}

/// The law of a node for constants.
pub fn constant_of_nodes()
    ensures { (nodes : List Node) (id : ℕ) (node : Node) →
        IsArena nodes → slice_get nodes id ≡ Some node →
        constant_of nodes id ≡ node_constant (constant_of nodes) node }
{}

/// The law of a node for bound names.
pub fn scoped_of_nodes()
    ensures { (nodes : List Node) (id : ℕ) (node : Node) (scope : NamesInScope) →
        IsArena nodes → slice_get nodes id ≡ Some node →
        is_scoped nodes id scope ≡ node_is_scoped (is_scoped nodes) node scope }
{}

/// The law of a node for the numbers of variables.
pub fn numbered_of_nodes()
    ensures { (nodes : List Node) (id : ℕ) (node : Node) (next : ℕ) →
        IsArena nodes → slice_get nodes id ≡ Some node →
        next_variable nodes id next ≡ node_numbers (next_variable nodes) node next }
{}

/// The law of nodes for equality of trees: alike, and with equal parts in order.
pub fn same_tree_of_nodes()
    ensures { (nodes others : List Node) (id other : ℕ) (node partner : Node) →
        IsArena nodes → slice_get nodes id ≡ Some node → slice_get others other ≡ Some partner →
        is_same_tree nodes id others other ≡
        (is_alike node partner && same_parts (λ i j. is_same_tree nodes i others j) (parts_of node) (parts_of partner)) }
{}

/// Terms that are equal as trees have the same value in every environment, and the same values under
/// all definitions.
pub fn same_tree_same_value()
    ensures value { (nodes others : List Node) (id other : ℕ) (env : Environment) →
        IsArena nodes → IsArena others → IsTrue (is_same_tree nodes id others other) →
        value_of nodes id env ≡ value_of others other env }
    ensures meaning { (I : Interpretation) (nodes others : List Node) (id other : ℕ) (env : Environment) (v : Value) →
        IsArena nodes → IsArena others → IsTrue (is_same_tree nodes id others other) →
        (HasValue I nodes id env v ↔ HasValue I others other env v) }
{}
