//! What the rules ask of forms and literals.

ghost use Rattle.std.specs.Prelude.{◌≡◌, ◌<◌, ◌^◌, nat_abs, IsTrue};
ghost use Rattle.std.specs.List.{list_any};
ghost use Rattle.base.specs.Widths.{short_limit};
ghost use Rattle.lin_atoms.specs.Denial.{linear_of};
ghost use Rattle.model_project.specs.Elimination.{divisor, has_variable, is_bound, on_side};
ghost use Rattle.model_project.specs.Substitution.{coefficient, is_equation, lin_has, occurs};

use lin_atoms::{Lin, Lit};

/// The coefficient of a variable, 0 where it doesn't occur.
pub(crate) fn coefficient(lin: &Lin, variable: usize) -> i64
    ensures is { result ≡ coefficient variable lin.now }
    ensures short { nat_abs result < short_limit }
    ensures named { 0 < nat_abs result → variable < 2 ^ 32 }
{
    for (v, a) in lin.terms() {
        if *v as usize == variable {
            return *a;
        }
        if *v as usize > variable {
            return 0;
        }
    }
    0
}

/// Whether a variable occurs in the form.
pub(crate) fn lin_has(lin: &Lin, variable: usize) -> bool
    ensures is { result ≡ lin_has variable lin.now }
    ensures named { IsTrue result → variable < 2 ^ 32 }
{
    coefficient(lin, variable) != 0
}

/// The literal's form.
pub(crate) fn linear_of(lit: &Lit) -> &Lin
    ensures { result.now ≡ linear_of lit.now }
{
    match lit {
        Lit::Le(lin) => lin,
        Lit::Eq(lin) => lin,
        Lit::Div(_, lin) => lin,
        Lit::NDiv(_, lin) => lin,
    }
}

/// Whether a variable occurs in the literal.
pub(crate) fn occurs(lit: &Lit, variable: usize) -> bool
    ensures is { result ≡ occurs variable lit.now }
    ensures named { IsTrue result → variable < 2 ^ 32 }
{
    lin_has(linear_of(lit), variable)
}

/// Whether a variable occurs in one of the literals: one look at each.
pub(crate) fn occurs_in(lits: &[Lit], variable: usize) -> bool
    ensures is { result ≡ list_any (occurs variable) lits.now }
    ensures named { IsTrue result → variable < 2 ^ 32 }
{
    for lit in lits {
        if occurs(lit, variable) {
            return true;
        }
    }
    false
}

/// Whether the literal is an equation with the variable.
pub(crate) fn is_equation(lit: &Lit, variable: usize) -> bool
    ensures { result ≡ is_equation variable lit.now }
{
    match lit {
        Lit::Le(_) => false,
        Lit::Eq(lin) => lin_has(lin, variable),
        Lit::Div(_, _) => false,
        Lit::NDiv(_, _) => false,
    }
}

/// Whether a coefficient is that of a bound from below, or from above.
fn on_side(below: bool, a: i64) -> bool
    ensures { result ≡ on_side below a }
{
    if below { a < 0 } else { a > 0 }
}

/// Whether the literal bounds the variable from below, or from above.
pub(crate) fn is_bound(lit: &Lit, below: bool, variable: usize) -> bool
    ensures { result ≡ is_bound below variable lit.now }
{
    match lit {
        Lit::Le(lin) => on_side(below, coefficient(lin, variable)),
        Lit::Eq(_) => false,
        Lit::Div(_, _) => false,
        Lit::NDiv(_, _) => false,
    }
}

/// Whether one of the literals bounds the variable on that side.
pub(crate) fn has_bound(lits: &[Lit], below: bool, variable: usize) -> bool
    ensures { result ≡ list_any (is_bound below variable) lits.now }
{
    for lit in lits {
        if is_bound(lit, below, variable) {
            return true;
        }
    }
    false
}

/// The literal's divisor, 1 without one.
pub(crate) fn divisor(lit: &Lit) -> u64
    ensures is { result ≡ divisor lit.now }
    ensures some { 0 < result }
    ensures short { result < short_limit }
{
    match lit {
        Lit::Le(_) => 1,
        Lit::Eq(_) => 1,
        Lit::Div(d, _) => d.get() as u64,
        Lit::NDiv(d, _) => d.get() as u64,
    }
}

/// Whether the literal has a variable.
pub(crate) fn has_variable(lit: &Lit) -> bool
    ensures { result ≡ has_variable lit.now }
{
    !linear_of(lit).terms().is_empty()
}
