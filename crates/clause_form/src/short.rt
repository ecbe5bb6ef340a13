ghost use Rattle.std.specs.Prelude.{◌≡◌};
ghost use Rattle.std.specs.List.{list_all};
ghost use Rattle.lin_atoms.specs.Linear.{is_short};
ghost use Rattle.clause_form.specs.System.{has_short_in_guard, has_short_guard};

use lin_atoms::{Form, Lit};

/// Whether the number is below 2^63 in magnitude.
fn is_short(n: i128) -> bool
    ensures { result ≡ is_short n }
{
    n.unsigned_abs() < 1 << 63
}

fn has_short_constant(lit: &Lit) -> bool
    ensures { result ≡ has_short_in_guard lit.now }
{
    match lit {
        Lit::Le(_) | Lit::Eq(_) => true,
        Lit::Div(_, lin) => is_short(lin.constant()),
        Lit::NDiv(_, lin) => is_short(lin.constant()),
    }
}

/// Whether the constant of each `Div` and `NDiv` is below 2^63 in magnitude.
#[cycle(has_short_multiples)]
pub(crate) fn has_short_multiples(form: &Form) -> bool
    ensures { result ≡ has_short_guard form.now }
{
    match form {
        Form::True => true,
        Form::False => true,
        Form::Lit(lit) => has_short_constant(lit),
        Form::And(parts) => all_have_short_multiples(parts.as_slice()),
        Form::Or(parts) => all_have_short_multiples(parts.as_slice()),
    }
}

#[cycle(has_short_multiples)]
fn all_have_short_multiples(parts: &[Form]) -> bool
    ensures { result ≡ list_all has_short_guard parts.now }
{
    for part in parts {
        if !has_short_multiples(part) {
            return false;
        }
    }
    true
}
