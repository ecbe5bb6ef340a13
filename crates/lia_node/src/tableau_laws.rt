//! Laws of the definitions, as contracts of functions that do nothing.

ghost use Rattle.std.specs.Prelude.{◌≡◌, ℕ, List, ℤ, length, true};
ghost use Rattle.std.specs.List.{list_all};
ghost use Rattle.lin_atoms.specs.Truth.{lit_is_below, lit_truth};
ghost use Rattle.lin_atoms.specs.declared.lit.Lit.{Lit};
ghost use Rattle.int_rows.specs.Basis.{Point};
ghost use Rattle.int_rows.specs.Node.{end_of_quotients};
ghost use Rattle.lia_node.specs.Known.{are_known, is_legal};
ghost use Rattle.lia_node.specs.Whole.{Extends, IsWholeSolution, is_met};

/// Where the variables and quotients have integer values in a solution of a node's tableau within
/// its bounds, each literal with a variable is true at them.
pub fn whole_solutions_are_points()
    ensures { (q : ℕ) (lits : List Lit) (p : Point) (whole : List ℤ) → list_all is_legal lits ≡ true → are_known q lits ≡ true → IsWholeSolution q lits p whole → list_all (is_met whole) lits ≡ true }
{}

/// A point at which all literals are true is such a solution, with values for the quotients.
pub fn points_are_whole_solutions()
    ensures { (q : ℕ) (lits : List Lit) (point : List ℤ) → list_all is_legal lits ≡ true → list_all (lit_is_below q) lits ≡ true →
        length point ≡ q → list_all (lit_truth point) lits ≡ true →
        (whole : List ℤ) × (p : Point) × Extends (end_of_quotients q lits) point whole × IsWholeSolution q lits p whole }
{}
