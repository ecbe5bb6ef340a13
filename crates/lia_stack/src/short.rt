//! A test of what a search asks of a formula.

ghost use Rattle.std.specs.Prelude.{◌≡◌};
ghost use Rattle.std.specs.List.{list_all};
ghost use Rattle.lin_atoms.specs.Linear.{is_short};
ghost use Rattle.lia_node.specs.Known.{has_short_constant};
ghost use Rattle.lia_stack.specs.Short.{has_short_multiples};

use lin_atoms::{Form, Lin, Lit};

/// Whether the constant is below 2^63 in magnitude.
fn is_short(lin: &Lin) -> bool
    ensures { result ≡ is_short lin.now.constant }
{
    lin.constant().unsigned_abs() < 1 << 63
}

fn has_short_constant(lit: &Lit) -> bool
    ensures { result ≡ has_short_constant lit.now }
{
    match lit {
        Lit::Le(_) => true,
        Lit::Eq(_) => true,
        Lit::Div(_, lin) => is_short(lin),
        Lit::NDiv(_, lin) => is_short(lin),
    }
}

/// Whether the constant of each divisibility in the formula is below 2^63 in magnitude.
#[cycle(has_short_multiples)]
pub fn has_short_multiples(form: &Form) -> bool
    ensures { result ≡ has_short_multiples form.now }
{
    match form {
        Form::True => true,
        Form::False => true,
        Form::Lit(lit) => has_short_constant(lit),
        Form::And(parts) => all_have_short_multiples(parts.as_slice()),
        Form::Or(parts) => all_have_short_multiples(parts.as_slice()),
    }
}

#[cycle(has_short_multiples)]
fn all_have_short_multiples(parts: &[Form]) -> bool
    ensures { result ≡ list_all has_short_multiples parts.now }
{
    for part in parts {
        if !has_short_multiples(part) {
            return false;
        }
    }
    true
}
