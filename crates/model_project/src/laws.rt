//! The law of the elimination, as the contract of a function that does nothing.

ghost use Rattle.std.specs.Prelude.{◌≡◌, ℕ, ℤ, List, length, nat_lt, true};
ghost use Rattle.std.specs.List.{list_all};
ghost use Rattle.lin_atoms.specs.Denial.{linear_of};
ghost use Rattle.lin_atoms.specs.Linear.{are_ordered};
ghost use Rattle.lin_atoms.specs.Truth.{lit_is_below};
ghost use Rattle.lin_atoms.specs.declared.lit.Lit.{Lit as Literal};
ghost use Rattle.model_project.specs.Elimination.{divisor};
ghost use Rattle.model_project.specs.Projection.{IsProjection, are_true, projection};

/// Over integers without a bound: the elimination of a conjunction at a model of it is a
/// projection. Divisors are above 0, and forms that are written have rising variables.
pub fn elimination_projects()
    ensures { (lits : List Literal) (model : List ℤ) (keep : List ℕ) → are_true model lits ≡ true → list_all (λ lit. nat_lt 0 (divisor lit)) lits ≡ true
        → list_all (lit_is_below (length model)) lits ≡ true
        → list_all (λ lit. are_ordered 0 (linear_of lit).terms) (projection model keep lits) ≡ true → IsProjection lits model keep (projection model keep lits) }
{}
