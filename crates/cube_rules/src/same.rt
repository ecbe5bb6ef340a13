//! Equality, as the rules' tests have it.

ghost use Rattle.std.specs.Prelude.{◌≡◌};
ghost use Rattle.book_rules.specs.Same.{same_cube, same_form, same_lit, same_tuple};

use base::Same;
use cube_forms::Lemma;
use lin_atoms::{Form, Lit};

/// Whether the literals are equal.
pub fn same_lit(a: &Lit, b: &Lit) -> bool
    ensures { result ≡ same_lit a.now b.now }
{
    a.equals(b)
}

/// Whether the lemmas deny the same cube.
pub fn same_lemma(a: &Lemma, b: &Lemma) -> bool
    ensures { result ≡ same_cube a.now b.now }
{
    a.equals(b)
}

/// Whether the tuples are equal.
pub fn same_tuple(a: &[i64], b: &[i64]) -> bool
    ensures { result ≡ same_tuple a.now b.now }
{
    a == b
}

/// Whether the formulas are equal.
pub fn same_form(a: &Form, b: &Form) -> bool
    ensures { result ≡ same_form a.now b.now }
{
    a.equals(b)
}
