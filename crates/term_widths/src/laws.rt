//! Laws of the definitions, as contracts of functions that do nothing.

ghost use Rattle.std.specs.Prelude.{◌≡◌, ◌<◌, ℕ, ℤ, List, Option, length};
ghost use Rattle.term_tree.specs.declared.node.Node.{Node};
ghost use Rattle.term_tree.specs.Arena.{IsArena};
ghost use Rattle.term_tree.specs.Constants.{constant_of};
ghost use Rattle.term_tree.specs.Subterms.{IsSubterm};
ghost use Rattle.linear_terms.specs.Linear.{Naming};
ghost use Rattle.linear_terms.specs.Width.{first_wide};
ghost use Rattle.term_widths.specs.Wide.{first_wide_by};
ghost use Rattle.term_widths.specs.machinery.Apart.{AreAlike};

/// Under names that keep the same things apart the same term is the first without room.
pub fn alike_names_judge_alike()
    ensures { (nodes : List Node) (a b : Naming) (top : ℕ) → IsArena nodes → AreAlike nodes top a b → top < length nodes → first_wide a nodes top ≡ first_wide b nodes top }
{}

/// Where the values that are kept of constants are theirs throughout a term, what is found of it is
/// its first term without room.
pub fn kept_constants_judge()
    ensures { (constant : ℕ → Option ℤ) (naming : Naming) (nodes : List Node) (top : ℕ) → IsArena nodes →
        ((q : ℕ) → IsSubterm nodes top q → q < length nodes → constant q ≡ constant_of nodes q) → top < length nodes →
        first_wide_by constant naming nodes top ≡ first_wide naming nodes top }
{}
