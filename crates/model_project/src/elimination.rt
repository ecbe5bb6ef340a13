//! The variables that aren't kept are removed one after another, from the greatest down.

ghost use Rattle.std.specs.Prelude.{◌≡◌, ◌∷◌, [], length, Some, None, true, IfOk, IsErrOf, OnOk};
ghost use Rattle.lin_atoms.specs.Linear.{is_short};
ghost use Rattle.model_project.specs.Elimination.{has_short_numbers, tidied};
ghost use Rattle.model_project.specs.Projection.{are_true, eliminated, is_kept, point};
ghost use Rattle.model_project.specs.machinery.Steps.{are_legal, are_narrow, have_divisors};
ghost use Rattle.std.specs.List.{list_all};

use crate::bounds::variable_at;
use crate::rules::removed;
use crate::{reading, terms};
use base::{Copied, Memory};
use lin_atoms::{Lin, Lit, WideStop};
use std::alloc::Global;

/// Whether each number of the literal is below 2^63 in magnitude. Its constant decides: the others
/// are by their types.
fn has_short_numbers(lit: &Lit) -> bool
    ensures { result ≡ has_short_numbers lit.now }
{
    let _divisor = reading::divisor(lit);
    let lin = reading::linear_of(lit);
    let _terms = lin.terms();
    terms::narrow(lin.constant()).is_some()
}

/// Copies of the literals that have a variable, unless a number is wide.
pub(crate) fn tidied(alloc: Global, lits: &[Lit]) -> Result<Vec<Lit>, WideStop>
    ensures made { IfOk result (λ made. tidied lits.now ≡ Some made.items) }
    ensures wide { IsErrOf result WideStop.Wide → tidied lits.now ≡ None }
{
    let mut made = Vec::with_capacity(alloc, lits.len()).map_err(Memory::from)?;
    for lit in lits {
        if !reading::has_variable(lit) {
            continue;
        }
        if !has_short_numbers(lit) {
            return Err(WideStop::Wide);
        }
        let copied = lit.copy(alloc)?;
        made.push(copied).map_err(Memory::from)?;
    }
    Ok(made)
}

/// Whether the variable is kept.
fn is_kept(keep: &[u32], variable: usize) -> bool
    ensures { result ≡ is_kept keep.now variable }
{
    for kept in keep {
        if *kept as usize == variable {
            return true;
        }
    }
    false
}

/// Removes each variable that isn't kept, unless a number is wide.
pub(crate) fn eliminate(
    alloc: Global,
    lits: &mut Vec<Lit>,
    model: &[i64],
    keep: &[u32],
) -> Result<(), WideStop>
    requires narrow { are_narrow lits.old.items ≡ true }
    requires divisors { have_divisors lits.old.items ≡ true }
    requires holds { are_true model.now lits.old.items ≡ true }
    ensures made { OnOk result (eliminated model.now keep.now (length model.now) (Some lits.old.items) ≡ Some lits.new.items) }
    ensures narrow { OnOk result (are_narrow lits.new.items ≡ true) }
    ensures wide { IsErrOf result WideStop.Wide → eliminated model.now keep.now (length model.now) (Some lits.old.items) ≡ None }
{
    let mut variable = model.len();
    while variable > 0 {
        variable -= 1;
        if is_kept(keep, variable) {
            continue;
        }
        match removed(alloc, lits, model, variable) {
            Ok(()) => {}
            Err(stop) => return Err(stop),
        }
    }
    Ok(())
}

/// The equation that a variable has its value.
fn own_equation(alloc: Global, model: &[i64], variable: u32) -> Result<Lit, Memory>
    ensures { IfOk result (λ made. point model.now (variable ∷ []) ≡ made ∷ []) }
{
    let value = i128::from(variable_at(model, variable as usize));
    let made = terms::one_variable(alloc, variable, -value)?;
    Ok(Lit::Eq(made))
}

/// The model's point: one equation for each kept variable.
pub(crate) fn point(alloc: Global, model: &[i64], keep: &[u32]) -> Result<Vec<Lit>, Memory>
    ensures is { IfOk result (λ made. made.items ≡ point model.now keep.now) }
    ensures narrow { IfOk result (λ made. list_all is_short model.now ≡ true → are_narrow made.items ≡ true) }
{
    let mut made = Vec::with_capacity(alloc, keep.len())?;
    for variable in keep {
        let equation = own_equation(alloc, model, *variable)?;
        made.push(equation)?;
    }
    Ok(made)
}

/// The divisors of literals are above 0.
pub(crate) fn divisors_are_above(lits: &[Lit])
    ensures { have_divisors lits.now ≡ true }
{
    for lit in lits {
        let _divisor = reading::divisor(lit);
    }
}

/// The variables of literals rise.
pub(crate) fn variables_rise(lits: &[Lit])
    ensures { are_legal lits.now ≡ true }
{
    for lit in lits {
        let _terms = reading::linear_of(lit).terms();
    }
}
