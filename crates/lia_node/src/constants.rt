//! Literals without a variable.

ghost use Rattle.std.specs.Prelude.{◌≡◌, true, false, slice_get, IfSome, IsNone};
ghost use Rattle.std.specs.List.{list_all};
ghost use Rattle.std.specs.Option.{option_map_or};
ghost use Rattle.lin_atoms.specs.Denial.{linear_of};
ghost use Rattle.int_rows.specs.Ready.{has_no_variable};
ghost use Rattle.refutation_trees.specs.Split.{is_no_falsehood};

use lin_atoms::{Lin, Lit};

/// The form of a literal.
fn form_of(lit: &Lit) -> &Lin
    ensures { result.now ≡ linear_of lit.now }
{
    match lit {
        Lit::Le(lin) => lin,
        Lit::Eq(lin) => lin,
        Lit::Div(_, lin) => lin,
        Lit::NDiv(_, lin) => lin,
    }
}

fn has_no_variable(lit: &Lit) -> bool
    ensures { result ≡ has_no_variable lit.now }
{
    form_of(lit).terms().is_empty()
}

/// Whether the literal has a variable or is true.
fn is_no_falsehood(lit: &Lit) -> bool
    ensures { result ≡ is_no_falsehood lit.now }
{
    !has_no_variable(lit) || lit.holds(&[])
}

/// The first literal without a variable that is false.
pub(crate) fn first_falsehood(lits: &[Lit]) -> Option<usize>
    ensures some { IfSome result (λ at. option_map_or is_no_falsehood (slice_get lits.now at) true ≡ false) }
    ensures none { IsNone result → list_all is_no_falsehood lits.now ≡ true }
{
    for (at, lit) in lits.iter().enumerate() {
        if !is_no_falsehood(lit) {
            return Some(at);
        }
    }
    None
}
