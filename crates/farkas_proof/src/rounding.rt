ghost use Rattle.std.specs.Prelude.{◌≡◌, ◌<ℤ◌, ◌<◌, map, neg_ℤ, true, false, IfOk, IfSome, IsNone, IsSome, pos};
ghost use Rattle.std.specs.Int.{int_div_euclid};
ghost use Rattle.lin_atoms.specs.Linear.{are_ordered, are_short, fits, is_long, is_short};
ghost use Rattle.refutation_trees.specs.Combination.{is_divided_by};
ghost use Rattle.int_rows.specs.Ready.{rounded};
ghost use Rattle.farkas_proof.specs.machinery.Sum.{seen, standing};

use crate::division::quotient;
use crate::sum::Sum;
use base::Memory;
use lin_atoms::{Accumulator, Lin, LinStop};
use std::alloc::Global;

/// The number with 64 bits, unless it has no room in a form.
fn narrow(n: i128) -> Option<i64>
    ensures some { IfSome result (λ m. m ≡ n) }
    ensures short { IsSome result → is_short n ≡ true }
    ensures none { IsNone result → is_short n ≡ false }
{
    if n.unsigned_abs() < 1 << 63 {
        Some(n as i64)
    } else {
        None
    }
}

/// The number with the other sign, unless it has no room in a form.
fn minus(n: i128) -> Option<i128>
    ensures some { IfSome result (λ m. m ≡ neg_ℤ n) }
    ensures none { IsNone result → is_long (neg_ℤ n) ≡ false }
{
    if n == i128::MIN { None } else { Some(-n) }
}

/// The quotient of a coefficient, unless it has no room in a form.
fn quotient_of(total: &Accumulator, divisor: i64) -> Option<i64>
    requires { pos 0 <ℤ divisor }
    ensures some { IfSome result (λ n. n ≡ int_div_euclid total.now.value divisor) }
    ensures short { IsSome result → is_short (int_div_euclid total.now.value divisor) ≡ true }
    ensures none { IsNone result → is_short (int_div_euclid total.now.value divisor) ≡ false }
{
    match quotient(total, divisor) {
        Some(n) => narrow(n),
        None => None,
    }
}

/// The quotients of the coefficients, unless one has no room in a form.
fn quotients(
    alloc: Global,
    terms: &[(u32, Accumulator)],
    divisor: i64,
) -> Result<Option<Vec<(u32, i64)>>, Memory>
    requires { pos 0 <ℤ divisor }
    ensures some { IfOk result (λ made. IfSome made (λ made. made.items ≡ map (λ t. (t.0, int_div_euclid t.1 divisor)) (seen terms.now))) }
    ensures none { IfOk result (λ made. IsNone made → are_short (map (λ t. (t.0, int_div_euclid t.1 divisor)) (seen terms.now)) ≡ false) }
{
    let mut made = Vec::with_capacity(alloc, terms.len())?;
    for term in terms {
        match quotient_of(&term.1, divisor) {
            Some(quotient) => made.push((term.0, quotient))?,
            None => return Ok(None),
        }
    }
    Ok(Some(made))
}

/// The constant divided and rounded up, given with the other sign, unless it has no room in a form.
fn rounded_constant(negated: &Accumulator, divisor: i64) -> Option<i128>
    requires { pos 0 <ℤ divisor }
    ensures some { IfSome result (λ n. n ≡ neg_ℤ (int_div_euclid negated.now.value divisor)) }
    ensures none { IsNone result → is_long (neg_ℤ (int_div_euclid negated.now.value divisor)) ≡ false }
{
    match quotient(negated, divisor) {
        Some(n) => minus(n),
        None => None,
    }
}

/// The sum divided by a divisor of its coefficients, with the constant rounded up, unless a number
/// has no room in a form.
pub(crate) fn rounded(alloc: Global, sum: &Sum, divisor: i64) -> Result<Option<Lin>, Memory>
    requires positive { pos 0 <ℤ divisor }
    requires divided { is_divided_by divisor (standing sum.now.terms.items sum.now.negated) ≡ true }
    requires ordered { are_ordered 0 (seen sum.now.terms.items) ≡ true }
    ensures some { IfOk result (λ made. IfSome made (λ lin. lin ≡ rounded divisor (standing sum.now.terms.items sum.now.negated))) }
    ensures within { IfOk result (λ made. IsSome made → fits (rounded divisor (standing sum.now.terms.items sum.now.negated)) ≡ true) }
    ensures none { IfOk result (λ made. IsNone made → fits (rounded divisor (standing sum.now.terms.items sum.now.negated)) ≡ false) }
{
    match quotients(alloc, sum.terms.as_slice(), divisor)? {
        Some(terms) => Ok(rounded_from(terms, sum, divisor)),
        None => Ok(None),
    }
}

/// The sum divided by a divisor of its coefficients, whose quotients are given, with the constant
/// rounded up, unless a number has no room in a form.
fn rounded_from(terms: Vec<(u32, i64)>, sum: &Sum, divisor: i64) -> Option<Lin>
    requires positive { pos 0 <ℤ divisor }
    requires quotients { terms.items ≡ map (λ t. (t.0, int_div_euclid t.1 divisor)) (seen sum.now.terms.items) }
    requires divided { is_divided_by divisor (standing sum.now.terms.items sum.now.negated) ≡ true }
    requires ordered { are_ordered 0 (seen sum.now.terms.items) ≡ true }
    ensures some { IfSome result (λ lin. lin ≡ rounded divisor (standing sum.now.terms.items sum.now.negated)) }
    ensures within { IsSome result → fits (rounded divisor (standing sum.now.terms.items sum.now.negated)) ≡ true }
    ensures none { IsNone result → fits (rounded divisor (standing sum.now.terms.items sum.now.negated)) ≡ false }
{
    match rounded_constant(&sum.negated, divisor) {
        Some(constant) => form_of(terms, constant),
        None => None,
    }
}

/// The form of terms that are in order, unless a number has no room.
pub(crate) fn form_of(terms: Vec<(u32, i64)>, constant: i128) -> Option<Lin>
    requires { are_ordered 0 terms.items ≡ true }
    ensures some { IfSome result (λ lin. lin ≡ record { terms = terms.items; constant = constant }) }
    ensures within { IsSome result → fits (record { terms = terms.items; constant = constant }) ≡ true }
    ensures none { IsNone result → fits (record { terms = terms.items; constant = constant }) ≡ false }
{
    match Lin::new(terms, constant) {
        Ok(lin) => {
            let _constant = lin.constant();
            Some(lin)
        }
        Err(LinStop::Order) => None,
        Err(LinStop::Wide) => None,
    }
}
