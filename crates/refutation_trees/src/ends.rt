//! The first number that no variable of a form has.

ghost use Rattle.std.specs.Prelude.{◌≡◌, ◌≤◌, ◌^◌, map};
ghost use Rattle.lin_atoms.specs.Denial.{linear_of};
ghost use Rattle.refutation_trees.specs.Combination.{terms_end};
ghost use Rattle.refutation_trees.specs.Refutation.{form_end, greatest_of};

use lin_atoms::{Form, Lin, Lit};

fn terms_end(terms: &[(u32, i64)]) -> u64
    ensures is { result ≡ terms_end terms.now }
    ensures small { result ≤ 2 ^ 32 }
{
    let mut end = 0;
    for (variable, _) in terms {
        end = end.max(u64::from(*variable) + 1);
    }
    end
}

fn linear_of(lit: &Lit) -> &Lin
    ensures { result.now ≡ linear_of lit.now }
{
    match lit {
        Lit::Le(lin) => lin,
        Lit::Eq(lin) => lin,
        Lit::Div(_, lin) => lin,
        Lit::NDiv(_, lin) => lin,
    }
}

/// One more than the greatest variable of the literal, 0 where it has none.
pub fn lit_end(lit: &Lit) -> u64
    ensures is { result ≡ terms_end (linear_of lit.now).terms }
    ensures small { result ≤ 2 ^ 32 }
{
    let lin = linear_of(lit);
    terms_end(lin.terms())
}

/// One more than the greatest variable of the form, 0 where there is none.
#[cycle(form_end)]
pub fn form_end(form: &Form) -> u64
    ensures is { result ≡ form_end form.now }
    ensures small { result ≤ 2 ^ 32 }
{
    match form {
        Form::True => 0,
        Form::False => 0,
        Form::Lit(lit) => lit_end(lit),
        Form::And(parts) => forms_end(parts.as_slice()),
        Form::Or(parts) => forms_end(parts.as_slice()),
    }
}

#[cycle(form_end)]
fn forms_end(parts: &[Form]) -> u64
    ensures is { result ≡ greatest_of (map form_end parts.now) }
    ensures small { result ≤ 2 ^ 32 }
{
    let mut end = 0;
    for part in parts {
        end = end.max(form_end(part));
    }
    end
}
