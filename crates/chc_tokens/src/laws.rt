//! Laws of the definitions, as contracts of functions that do nothing.

ghost use Rattle.std.specs.Prelude.{◌≡◌, ◌∷◌, ◌&&◌, ℕ, ℤ, List, Some, not, true};
ghost use Rattle.std.specs.List.{list_all};
ghost use Rattle.lin_atoms.specs.Truth.{truth};
ghost use Rattle.lin_atoms.specs.declared.form.Form.{Form};
ghost use Rattle.lin_atoms.specs.declared.form.Form.TheViews.{And};
ghost use Rattle.refutation_trees.specs.Refutation.{HasNoPoint};
ghost use Rattle.clause_form.specs.System.{Clauses};
ghost use Rattle.clause_form.specs.declared.clause.Clause.{Clause};
ghost use Rattle.chc_tokens.specs.Instances.{token_head_at};
ghost use Rattle.chc_tokens.specs.Kept.{shown_clause, shown_goal, shown_used};
ghost use Rattle.chc_tokens.specs.Queries.{base_at, forms_at, has_goal, has_used, query, query_at};
ghost use Rattle.chc_tokens.specs.Tokens.{IsShownToken, Shows, is_passed, token_meets};
ghost use Rattle.chc_tokens.specs.declared.goal.Goal.{Goal};
ghost use Rattle.chc_tokens.specs.declared.refuting.Shown.{Shown};
ghost use Rattle.chc_tokens.specs.declared.used.Used.{Used};

/// A query is true at exactly the points of the guard at which each used lemma accepts its atom's
/// tuple and the head's tuple doesn't meet the goal.
pub fn a_query_asks_for_an_instance()
    ensures { (point : List ℤ) (clause : Clause) (goal : Goal) (used : List Used) → has_goal clause goal ≡ true → has_used clause.atoms used ≡ true
        → truth point (query clause goal used) ≡ ((truth point clause.guard && not (token_meets goal (token_head_at point clause)))
        && list_all (is_passed point clause) used) }
{}

/// What a refuted query shows: wherever the guard holds and each used lemma accepts its atom's
/// tuple, the head's tuple satisfies the goal's lemma; for a query there is no such point. This is
/// all that the lemmas of a book rest on.
pub fn a_refuted_query_shows_its_goal()
    ensures form { (sys : Clauses) (n : ℕ) (goal : Goal) (used : List Used) (form : Form) → query_at sys n goal used ≡ Some form → HasNoPoint form → Shows sys n goal used }
    ensures shown { (sys : Clauses) (shown : Shown) → IsShownToken sys shown → Shows sys (shown_clause shown) (shown_goal shown) (shown_used shown) }
{}

/// A query is the conjunction of its base and its used lemmas, so what a solver is given in two parts
/// is the query.
pub fn a_query_joins_its_base_and_lemmas()
    ensures { (sys : Clauses) (n : ℕ) (goal : Goal) (used : List Used) (base : Form) (forms : List Form) → base_at sys n goal ≡ Some base
        → forms_at sys n used ≡ Some forms → query_at sys n goal used ≡ Some (And (base ∷ forms)) }
{}
