//! The equation that removes a variable.

ghost use Rattle.std.specs.Prelude.{◌≡◌, ◌<◌, ◌==◌, ◌∷◌, [], ◌<ℤ◌, nat_abs, pos, Some, None, true, IfOk, IfSome, IsErrOf, IsNone};
ghost use Rattle.std.specs.List.{filter};
ghost use Rattle.lin_atoms.specs.Linear.{are_ordered, are_short};
ghost use Rattle.lin_atoms.specs.declared.lit.Lit.TheVariants.{Div};
ghost use Rattle.model_project.specs.machinery.Steps.{EquationIs};
ghost use Rattle.model_project.specs.Elimination.{has_variable, tidied};
ghost use Rattle.model_project.specs.Substitution.{coefficient, equation_in, left_over, lin_has, upright, without};

use crate::crossing::ground;
use crate::terms::form_of;
use crate::{reading, terms};
use base::{Copied, Memory};
use lin_atoms::{Divisor, Lin, Lit, WideStop};
use std::alloc::Global;

/// The form with its coefficient above 0.
pub(crate) fn upright(alloc: Global, variable: usize, lin: &Lin) -> Result<Lin, Memory>
    ensures made { IfOk result (λ made. made ≡ upright variable lin.now) }
    ensures above { IfOk result (λ made. lin_has variable lin.now ≡ true → pos 0 <ℤ coefficient variable made) }
{
    if reading::coefficient(lin, variable) < 0 {
        let made = lin.negated(alloc)?;
        Ok(made)
    } else {
        let made = lin.copy(alloc)?;
        Ok(made)
    }
}

/// The first equation with the variable, with its coefficient above 0.
pub(crate) fn equation_in(
    alloc: Global,
    lits: &[Lit],
    variable: usize,
) -> Result<Option<Lin>, Memory>
    ensures some { IfOk result (λ o. IfSome o (λ l. EquationIs variable l lits.now)) }
    ensures none { IfOk result (λ o. IsNone o → equation_in variable lits.now ≡ None) }
{
    for lit in lits {
        if reading::is_equation(lit, variable) {
            let made = upright(alloc, variable, reading::linear_of(lit))?;
            return Ok(Some(made));
        }
    }
    Ok(None)
}

/// The literal that a number divides a form.
fn of_division(a: i64, terms: Vec<(u32, i64)>, constant: i64) -> Lit
    requires above { pos 0 <ℤ a }
    requires ordered { are_ordered 0 terms.items ≡ true }
    requires short { are_short terms.items ≡ true }
    ensures { result ≡ Div (nat_abs a) (record { terms = terms.items; constant = constant }) }
{
    let divisor = Divisor::new(a).unwrap();
    Lit::Div(divisor, form_of(terms, i128::from(constant)))
}

/// What the equation leaves of itself: nothing where the coefficient is 1, which is any literal
/// without a variable.
pub(crate) fn left_over(alloc: Global, variable: usize, equation: &Lin) -> Result<Lit, WideStop>
    requires { pos 0 <ℤ coefficient variable equation.now }
    ensures made { IfOk result (λ made. tidied (left_over variable equation.now) ≡ Some (filter has_variable (made ∷ []))) }
    ensures wide { IsErrOf result WideStop.Wide → tidied (left_over variable equation.now) ≡ None }
{
    let a = reading::coefficient(equation, variable);
    if a == 1 {
        return Ok(ground(alloc));
    }
    let rest = terms::without(alloc, equation.terms(), variable)?;
    if rest.is_empty() {
        return Ok(ground(alloc));
    }
    match terms::narrow(equation.constant()) {
        Some(constant) => Ok(of_division(a, rest, constant)),
        None => Err(WideStop::Wide),
    }
}
