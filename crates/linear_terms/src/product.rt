//! Products of which at most one factor isn't constant.

ghost use Rattle.std.specs.Prelude.{◌≡◌, ◌<◌, ◌*ℤ◌, ℤ, length, slice_get, IfOk, IfSome, IfNone, OnOk, IsErrOf, true, false, None, drop};
ghost use Rattle.term_tree.specs.Operators.{product_of};
ghost use Rattle.term_tree.specs.Constants.{constants_among};
ghost use Rattle.lin_atoms.specs.Algebra.{scaled};
ghost use Rattle.lin_atoms.specs.Linear.{are_ordered};
ghost use Rattle.linear_terms.specs.Linear.{is_narrow, product_form, varying_form};
ghost use Rattle.linear_terms.specs.Short.{has_zero, short_or_none, is_nothing, is_zero_constant, is_zero_form, times};

use crate::judge::{judged, narrow};
use lin_atoms::{Lin, WideStop};
use std::alloc::Global;

fn is_no_factor(constant: Option<i64>) -> bool
    ensures { result ≡ is_zero_constant constant }
{
    match constant {
        Some(n) => n == 0,
        None => false,
    }
}

/// Whether one of the constants is 0.
fn has_zero(constants: &[Option<i64>]) -> bool
    ensures { result ≡ has_zero constants.now }
{
    constants.iter().any(|constant| is_no_factor(*constant))
}

fn exact_product(a: i64, b: i64) -> i128
    ensures { result ≡ a *ℤ b }
{
    i128::from(a) * i128::from(b)
}

/// The product, where it is short; nothing is no factor.
fn times(product: i64, constant: Option<i64>) -> Option<i64>
    ensures { result ≡ short_or_none (times product constant) }
{
    match constant {
        None => narrow(i128::from(product)),
        Some(factor) => narrow(exact_product(product, factor)),
    }
}

/// The product of those that are constant, where it is short.
fn product(constants: &[Option<i64>]) -> Option<i64>
    ensures { result ≡ short_or_none (product_of (constants_among constants.now)) }
{
    if has_zero(constants) {
        return Some(0);
    }
    let mut product = 1;
    for constant in constants {
        match times(product, *constant) {
            Some(more) => product = more,
            None => return None,
        }
    }
    Some(product)
}

/// The variables of a form rise, for a proof that needs it.
fn rises(form: &Lin)
    ensures { are_ordered 0 form.now.terms ≡ true }
{
    let _ = form.terms();
}

/// Whether the form is 0.
fn is_zero(form: &Lin) -> bool
    ensures { result ≡ is_zero_form form.now }
{
    form.terms().is_empty() && form.constant() == 0
}

/// The form times a number that is given where it is short.
fn multiple(alloc: Global, factor: Option<i64>, form: &Lin) -> Result<Lin, WideStop>
    ensures made { (k : ℤ) → factor ≡ short_or_none k → IfOk result (λ made. made ≡ scaled k form.now) }
    ensures narrow { (k : ℤ) → factor ≡ short_or_none k → OnOk result (is_narrow (scaled k form.now) ≡ true) }
    ensures wide { (k : ℤ) → factor ≡ short_or_none k → IsErrOf result WideStop.Wide → is_narrow (scaled k form.now) ≡ false }
{
    match factor {
        Some(k) => judged(form.scaled(alloc, k)?),
        None => {
            rises(form);
            if is_zero(form) {
                Ok(Lin::of_constant(alloc, 0))
            } else {
                Err(WideStop::Wide)
            }
        }
    }
}

fn varies(constant: Option<i64>) -> bool
    ensures { result ≡ is_nothing constant }
{
    match constant {
        None => true,
        Some(_) => false,
    }
}

/// Which factor is the first that isn't constant.
fn varying(constants: &[Option<i64>], forms: &[Lin]) -> Option<usize>
    ensures there { IfSome result (λ i. i < length forms.now) }
    ensures some { IfSome result (λ i. varying_form constants.now forms.now ≡ slice_get forms.now i) }
    ensures none { IfNone result (varying_form constants.now forms.now ≡ None) }
{
    for i in 0..constants.len() {
        if i >= forms.len() {
            return None;
        }
        if varies(constants[i]) {
            return Some(i);
        }
    }
    None
}

fn after_first(constants: &[Option<i64>]) -> &[Option<i64>]
    ensures { result.now ≡ drop 1 constants.now }
{
    match constants {
        [] => constants,
        [_, others @ ..] => others,
    }
}

/// The product of factors with these forms, of which those have constants that are constant: the
/// form of the first that isn't, or of the first, times the others, where it is narrow.
pub fn product_form(
    alloc: Global,
    constants: &[Option<i64>],
    forms: &[Lin],
) -> Result<Lin, WideStop>
    ensures made { IfOk result (λ made. made ≡ product_form constants.now forms.now) }
    ensures narrow { OnOk result (is_narrow (product_form constants.now forms.now) ≡ true) }
    ensures wide { IsErrOf result WideStop.Wide → is_narrow (product_form constants.now forms.now) ≡ false }
{
    match varying(constants, forms) {
        Some(i) => multiple(alloc, product(constants), &forms[i]),
        None => match forms {
            [] => Ok(Lin::of_constant(alloc, 0)),
            [first, ..] => multiple(alloc, product(after_first(constants)), first),
        },
    }
}
