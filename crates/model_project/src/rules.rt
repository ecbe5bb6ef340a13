//! One variable is removed by the first rule that fits. Each rule looks at a literal once or
//! twice, and computes where the variable occurs alone.

ghost use Rattle.std.specs.Prelude.{◌≡◌, ◌<◌, ◌%◌, ◌*◌, ◌^◌, ◌++◌, pos, nat_abs, Some, None, true, false, IfOk, IsErrOf, OnOk};
ghost use Rattle.std.specs.Int.{int_rem_euclid};
ghost use Rattle.base.specs.Widths.{short_limit};
ghost use Rattle.lin_atoms.specs.Algebra.{plus};
ghost use Rattle.lin_atoms.specs.Linear.{fits, variable_at};
ghost use Rattle.model_project.specs.Elimination.{by_bounds, by_rest, gap, nearest, period, put_before, removed, rest_equation};
ghost use Rattle.model_project.specs.Substitution.{coefficient, lin_has};
ghost use Rattle.model_project.specs.machinery.Steps.{are_narrow, have_divisors, one};

use crate::bounds::{self, Bound};
use crate::equation::{equation_in, left_over, upright};
use crate::period::{period, short};
use crate::substitution::substitute;
use crate::{reading, terms};
use base::{Copied, Memory};
use lin_atoms::{Lin, Lit, WideStop};
use std::alloc::Global;

/// Puts an equation with the variable before the literals, and removes the variable by it.
fn put_before(
    alloc: Global,
    lits: &mut Vec<Lit>,
    variable: usize,
    equation: Lin,
) -> Result<(), WideStop>
    requires has { lin_has variable equation ≡ true }
    requires narrow { are_narrow lits.old.items ≡ true }
    ensures made { OnOk result (put_before variable equation lits.old.items ≡ Some lits.new.items) }
    ensures wide { IsErrOf result WideStop.Wide → put_before variable equation lits.old.items ≡ None }
{
    let _terms = equation.terms();
    if terms::narrow(equation.constant()).is_none() {
        return Err(WideStop::Wide);
    }
    let upright = upright(alloc, variable, &equation)?;
    substitute(alloc, lits, variable, &upright, true)?;
    let left = left_over(alloc, variable, &upright)?;
    put_first(lits, left)?;
    Ok(())
}

/// Puts a literal before the others, unless it has no variable.
fn put_first(lits: &mut Vec<Lit>, lit: Lit) -> Result<(), Memory>
    ensures { OnOk result (lits.new.items ≡ one lit ++ lits.old.items) }
{
    if reading::has_variable(&lit) {
        lits.insert(0, lit)?;
    }
    Ok(())
}

/// The equation that puts the variable as near to a bound as the period allows.
fn shifted(alloc: Global, variable: usize, bound: Bound<'_>, period: u64) -> Result<Lin, WideStop>
    requires has { 0 < nat_abs (coefficient variable bound.lin.now) }
    requires above { 0 < period }
    requires short { period < short_limit }
    ensures made { IfOk result (λ made. made ≡ plus bound.entry.lin.now (pos (bound.entry.gap % (nat_abs (coefficient variable bound.entry.lin.now) * period)))) }
    ensures narrow { OnOk result (nat_abs (coefficient variable bound.entry.lin.now) * period < short_limit) }
    ensures wide { IsErrOf result WideStop.Wide → (nat_abs (coefficient variable bound.entry.lin.now) * period < short_limit)
        → fits (plus bound.entry.lin.now (pos (bound.entry.gap % (nat_abs (coefficient variable bound.entry.lin.now) * period)))) ≡ false }
{
    let size = bounds::size(bound.lin, variable);
    match short(bounds::product(size, period)) {
        Some(modulus) => {
            let rest = (bound.gap % modulus) as i64;
            let copied = bound.lin.copy(alloc)?;
            match copied.plus(rest) {
                Some(made) => Ok(made),
                None => Err(WideStop::Wide),
            }
        }
        None => Err(WideStop::Wide),
    }
}

/// The equation of the nearest bound on a side, unless a number is wide.
fn bound_equation(
    alloc: Global,
    lits: &[Lit],
    model: &[i64],
    below: bool,
    variable: usize,
) -> Result<Lin, WideStop>
    requires { have_divisors lits.now ≡ true }
    ensures made { IfOk result (λ e. by_bounds model.now below variable lits.now ≡ put_before variable e lits.now) }
    ensures has { IfOk result (λ e. lin_has variable e ≡ true) }
    ensures wide { IsErrOf result WideStop.Wide → by_bounds model.now below variable lits.now ≡ None }
{
    match bounds::nearest(lits, model, below, variable) {
        Ok(Some(bound)) => match period(lits, variable) {
            Some(period) => shifted(alloc, variable, bound, period),
            None => Err(WideStop::Wide),
        },
        Ok(None) => Err(WideStop::Wide),
        Err(_) => Err(WideStop::Wide),
    }
}

/// Rules for bounds: the nearest on a side removes the variable.
fn by_bounds(
    alloc: Global,
    lits: &mut Vec<Lit>,
    model: &[i64],
    below: bool,
    variable: usize,
) -> Result<(), WideStop>
    requires narrow { are_narrow lits.old.items ≡ true }
    requires divisors { have_divisors lits.old.items ≡ true }
    ensures made { OnOk result (by_bounds model.now below variable lits.old.items ≡ Some lits.new.items) }
    ensures wide { IsErrOf result WideStop.Wide → by_bounds model.now below variable lits.old.items ≡ None }
{
    let equation = bound_equation(alloc, lits.as_slice(), model, below, variable)?;
    put_before(alloc, lits, variable, equation)?;
    Ok(())
}

/// The equation that the variable is a number.
fn rest_equation(alloc: Global, variable: usize, rest: i64) -> Result<Lin, Memory>
    requires named { variable < 2 ^ 32 }
    requires short { nat_abs rest < short_limit }
    ensures { IfOk result (λ made. made ≡ rest_equation variable rest) }
{
    terms::one_variable(alloc, variable as u32, i128::from(-rest))
}

/// What a number leaves modulo another.
fn rest_of(a: i64, period: u64) -> i64
    requires above { 0 < period }
    requires short { period < short_limit }
    ensures is { result ≡ int_rem_euclid a (pos period) }
    ensures bound { nat_abs result < short_limit }
{
    a.rem_euclid(period as i64)
}

/// The rule for divisors alone: the variable is its rest modulo their period.
fn by_rest(
    alloc: Global,
    lits: &mut Vec<Lit>,
    model: &[i64],
    variable: usize,
) -> Result<(), WideStop>
    requires narrow { are_narrow lits.old.items ≡ true }
    requires divisors { have_divisors lits.old.items ≡ true }
    requires named { variable < 2 ^ 32 }
    ensures made { OnOk result (by_rest model.now variable lits.old.items ≡ Some lits.new.items) }
    ensures wide { IsErrOf result WideStop.Wide → by_rest model.now variable lits.old.items ≡ None }
{
    match period(lits.as_slice(), variable) {
        Some(period) => {
            let rest = rest_of(bounds::variable_at(model, variable), period);
            let equation = rest_equation(alloc, variable, rest)?;
            put_before(alloc, lits, variable, equation)?;
            Ok(())
        }
        None => Err(WideStop::Wide),
    }
}

/// Removes a variable by the first rule that fits, unless a number is wide.
pub(crate) fn removed(
    alloc: Global,
    lits: &mut Vec<Lit>,
    model: &[i64],
    variable: usize,
) -> Result<(), WideStop>
    requires narrow { are_narrow lits.old.items ≡ true }
    requires divisors { have_divisors lits.old.items ≡ true }
    ensures made { OnOk result (removed model.now variable lits.old.items ≡ Some lits.new.items) }
    ensures wide { IsErrOf result WideStop.Wide → removed model.now variable lits.old.items ≡ None }
{
    if !reading::occurs_in(lits.as_slice(), variable) {
        return Ok(());
    }
    match equation_in(alloc, lits.as_slice(), variable)? {
        Some(equation) => substitute(alloc, lits, variable, &equation, false),
        None => {
            if reading::has_bound(lits.as_slice(), true, variable) {
                return by_bounds(alloc, lits, model, true, variable);
            }
            if reading::has_bound(lits.as_slice(), false, variable) {
                return by_bounds(alloc, lits, model, false, variable);
            }
            by_rest(alloc, lits, model, variable)
        }
    }
}
