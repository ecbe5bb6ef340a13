//! Laws of the definitions, as contracts of functions that do nothing.

ghost use Rattle.std.specs.Prelude.{◌≡◌, ◌<◌, ℕ, ℤ, List, Option, length};
ghost use Rattle.term_tree.specs.declared.node.Node.{Node};
ghost use Rattle.term_tree.specs.Arena.{IsArena};
ghost use Rattle.term_tree.specs.Constants.{constant_of};
ghost use Rattle.term_tree.specs.Subterms.{IsSubterm};
ghost use Rattle.linear_terms.specs.Linear.{Naming, linear_of};
ghost use Rattle.linear_terms.specs.Width.{first_where, is_wide_term};
ghost use Rattle.term_forms.specs.Found.{form_or_wide, unless_wide};

/// Where the values that are kept of constants are theirs throughout a term, as they are in every
/// legal one, what is found of a subterm is its linear form, or the first wide term in it.
pub fn kept_constants_give_linear_forms()
    ensures { (constant : ℕ → Option ℤ) (naming : Naming) (nodes : List Node) (top id : ℕ) → IsArena nodes →
        ((q : ℕ) → IsSubterm nodes top q → q < length nodes → constant q ≡ constant_of nodes q) → IsSubterm nodes top id → id < length nodes →
        form_or_wide constant naming nodes id ≡ unless_wide (first_where (is_wide_term naming nodes) nodes id) (linear_of naming nodes id) }
{}
