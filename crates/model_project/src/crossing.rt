//! A literal crossed with an equation, judged by its width.

ghost use Rattle.std.specs.Prelude.{◌≡◌, ◌<◌, ◌≤◌, ◌*◌, ◌∷◌, [], ◌<ℤ◌, nat_abs, neg_ℤ, pos, Some, None, true, false, IfOk, IfSome, IsErrOf, IsNone};
ghost use Rattle.std.specs.List.{filter};
ghost use Rattle.base.specs.Widths.{short_limit};
ghost use Rattle.lin_atoms.specs.Linear.{of_constant};
ghost use Rattle.lin_atoms.specs.declared.lit.Lit.TheVariants.{Eq};
ghost use Rattle.model_project.specs.Elimination.{has_variable, has_short_numbers, tidied};
ghost use Rattle.model_project.specs.Substitution.{coefficient, crossed, crossed_lit, lin_has, occurs};

use crate::bounds::product;
use crate::period::short;
use crate::terms::form_of;
use crate::{reading, terms};
use base::{Copied, Memory};
use lin_atoms::{Divisor, Lin, Lit, WideStop, narrowed};
use std::alloc::Global;

/// A number with the other sign.
fn minus(a: i64) -> i64
    requires { nat_abs a < short_limit }
    ensures { result ≡ neg_ℤ a }
{
    -a
}

/// The form crossed with an equation, unless no variable is left.
fn crossed(
    alloc: Global,
    variable: usize,
    equation: &Lin,
    lin: &Lin,
) -> Result<Option<Lin>, WideStop>
    requires there { lin_has variable equation.now ≡ true }
    requires here { lin_has variable lin.now ≡ true }
    ensures made { IfOk result (λ o. IfSome o (λ made. made ≡ crossed variable equation.now lin.now)) }
    ensures some { IfOk result (λ o. IfSome o (λ made. has_variable (Eq (crossed variable equation.now lin.now)) ≡ true)) }
    ensures narrow { IfOk result (λ o. IfSome o (λ made. has_short_numbers (Eq (crossed variable equation.now lin.now)) ≡ true)) }
    ensures none { IfOk result (λ o. IsNone o → has_variable (Eq (crossed variable equation.now lin.now)) ≡ false) }
    ensures wide { IsErrOf result WideStop.Wide → has_variable (Eq (crossed variable equation.now lin.now)) ≡ true }
    ensures wide_number { IsErrOf result WideStop.Wide → has_short_numbers (Eq (crossed variable equation.now lin.now)) ≡ false }
{
    let k = reading::coefficient(equation, variable);
    let m = minus(reading::coefficient(lin, variable));
    let terms = terms::combined(alloc, k, lin.terms(), m, equation.terms())?;
    if terms.is_empty() {
        return Ok(None);
    }
    match narrowed(alloc, terms.as_slice()) {
        Ok(narrow) => match terms::constant(k, lin.constant(), m, equation.constant()) {
            Some(constant) => {
                let made = form_of(narrow, i128::from(constant));
                Ok(Some(made))
            }
            None => Err(WideStop::Wide),
        },
        Err(WideStop::Wide) => Err(WideStop::Wide),
        Err(WideStop::Memory) => Err(WideStop::Memory),
    }
}

/// The divisor times a number.
fn multiple(d: Divisor, a: i64) -> u128
    requires { pos 0 <ℤ a }
    ensures value { result ≡ nat_abs a * d }
    ensures some { 0 < result }
{
    product(a.unsigned_abs(), d.get() as u64)
}

/// The divisor times a number, unless it is wide.
fn times(d: Divisor, a: i64) -> Option<Divisor>
    requires { pos 0 <ℤ a }
    ensures some { IfSome result (λ n. n ≡ nat_abs a * d) }
    ensures narrow { IfSome result (λ n. nat_abs a * d < short_limit) }
    ensures none { IsNone result → short_limit ≤ nat_abs a * d }
{
    match short(multiple(d, a)) {
        Some(n) => Divisor::new(n as i64),
        None => None,
    }
}

/// A literal without a variable, which is left out.
pub(crate) fn ground(alloc: Global) -> Lit
    ensures { has_variable result ≡ false }
{
    Lit::Eq(Lin::of_constant(alloc, 0))
}

/// The literal crossed with an equation. One without a variable is any such one.
pub(crate) fn crossed_lit(
    alloc: Global,
    variable: usize,
    equation: &Lin,
    lit: &Lit,
) -> Result<Lit, WideStop>
    requires there { pos 0 <ℤ coefficient variable equation.now }
    requires here { occurs variable lit.now ≡ true }
    ensures made { IfOk result (λ made. tidied (crossed_lit variable equation.now lit.now ∷ []) ≡ Some (filter has_variable (made ∷ []))) }
    ensures wide { IsErrOf result WideStop.Wide → tidied (crossed_lit variable equation.now lit.now ∷ []) ≡ None }
{
    let a = reading::coefficient(equation, variable);
    match lit {
        Lit::Le(lin) => match crossed(alloc, variable, equation, lin) {
            Ok(Some(made)) => Ok(Lit::Le(made)),
            Ok(None) => Ok(ground(alloc)),
            Err(stop) => Err(stop),
        },
        Lit::Eq(lin) => match crossed(alloc, variable, equation, lin) {
            Ok(Some(made)) => Ok(Lit::Eq(made)),
            Ok(None) => Ok(ground(alloc)),
            Err(stop) => Err(stop),
        },
        Lit::Div(d, lin) => match crossed(alloc, variable, equation, lin) {
            Ok(Some(made)) => match times(*d, a) {
                Some(n) => Ok(Lit::Div(n, made)),
                None => Err(WideStop::Wide),
            },
            Ok(None) => Ok(ground(alloc)),
            Err(stop) => Err(stop),
        },
        Lit::NDiv(d, lin) => match crossed(alloc, variable, equation, lin) {
            Ok(Some(made)) => match times(*d, a) {
                Some(n) => Ok(Lit::NDiv(n, made)),
                None => Err(WideStop::Wide),
            },
            Ok(None) => Ok(ground(alloc)),
            Err(stop) => Err(stop),
        },
    }
}
