ghost use Rattle.std.specs.Prelude.{◌≡◌};
ghost use Rattle.std.specs.List.{list_all, list_any};
ghost use Rattle.lin_atoms.specs.Truth.{truth};

use crate::form::Form;

/// Whether the formula is true at the point, exactly and without memory. A variable past the
/// point's end stands for 0; `Form::is_below` tells whether there is one.
#[cycle(holds)]
pub fn holds(form: &Form, point: &[i64]) -> bool
    ensures { result ≡ truth point.now form.now }
{
    match form {
        Form::True => true,
        Form::False => false,
        Form::Lit(lit) => lit.holds(point),
        Form::And(parts) => all_hold(parts.as_slice(), point),
        Form::Or(parts) => any_holds(parts.as_slice(), point),
    }
}

#[cycle(holds)]
fn all_hold(parts: &[Form], point: &[i64]) -> bool
    ensures { result ≡ list_all (truth point.now) parts.now }
{
    for part in parts {
        if !holds(part, point) {
            return false;
        }
    }
    true
}

#[cycle(holds)]
fn any_holds(parts: &[Form], point: &[i64]) -> bool
    ensures { result ≡ list_any (truth point.now) parts.now }
{
    for part in parts {
        if holds(part, point) {
            return true;
        }
    }
    false
}
