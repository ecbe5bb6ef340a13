//! Sums and differences.

ghost use Rattle.std.specs.Prelude.{◌≡◌, ◌∷◌, ◌+ℤ◌, neg_ℤ, map, IfOk, OnOk, IsErrOf, true, false};
ghost use Rattle.lin_atoms.specs.Algebra.{negated};
ghost use Rattle.linear_terms.specs.Linear.{all_constants, all_terms, difference_form, is_narrow, less, sum_form};

use crate::judge::{form_of, is_short, judged, summed};
use crate::minus::difference;
use base::{Copied, Memory};
use lin_atoms::{Lin, WideStop};
use std::alloc::Global;

/// The terms of all forms, one after the other.
fn all_terms(alloc: Global, forms: &[Lin]) -> Result<Vec<(u32, i64)>, Memory>
    ensures { IfOk result (λ terms. terms.items ≡ all_terms forms.now) }
{
    let mut terms = Vec::new(alloc);
    for form in forms {
        terms.extend_from_slice(form.terms())?;
    }
    Ok(terms)
}

fn all_constants(forms: &[Lin]) -> i128
    ensures { result ≡ all_constants forms.now }
{
    let mut sum = 0;
    for form in forms {
        sum += form.constant();
    }
    sum
}

/// The sum of the forms, where it is narrow.
pub fn sum_form(alloc: Global, forms: &[Lin]) -> Result<Lin, WideStop>
    ensures made { IfOk result (λ made. made ≡ sum_form forms.now) }
    ensures narrow { OnOk result (is_narrow (sum_form forms.now) ≡ true) }
    ensures wide { IsErrOf result WideStop.Wide → is_narrow (sum_form forms.now) ≡ false }
{
    let terms = all_terms(alloc, forms)?;
    let made = summed(alloc, terms.as_slice(), all_constants(forms))?;
    Ok(made)
}

/// The difference of the constants of two forms.
fn constants(a: &Lin, b: &Lin) -> i128
    ensures { result ≡ a.now.constant +ℤ neg_ℤ b.now.constant }
{
    a.constant() - b.constant()
}

/// The difference of the two forms, the first less the second, where it is narrow.
pub fn less(alloc: Global, a: &Lin, b: &Lin) -> Result<Lin, WideStop>
    ensures made { IfOk result (λ made. made ≡ less a.now b.now) }
    ensures narrow { OnOk result (is_narrow (less a.now b.now) ≡ true) }
    ensures wide { IsErrOf result WideStop.Wide → is_narrow (less a.now b.now) ≡ false }
{
    let terms = difference(alloc, a.terms(), b.terms())?;
    let constant = constants(a, b);
    if !is_short(constant) {
        return Err(WideStop::Wide);
    }
    Ok(form_of(terms, constant))
}

/// The first form as it is, and each of the others with the other sign.
fn with_signs(alloc: Global, first: &Lin, others: &[Lin]) -> Result<Vec<Lin>, Memory>
    ensures { IfOk result (λ forms. forms.items ≡ first.now ∷ map negated others.now) }
{
    let mut forms = Vec::with_capacity(alloc, others.len() + 1)?;
    forms.push(first.copy(alloc)?)?;
    for other in others {
        forms.push(other.negated(alloc)?)?;
    }
    Ok(forms)
}

/// The negation of one form, and the first of more less the others, where it is narrow.
pub fn difference_form(alloc: Global, forms: &[Lin]) -> Result<Lin, WideStop>
    ensures made { IfOk result (λ made. made ≡ difference_form forms.now) }
    ensures narrow { OnOk result (is_narrow (difference_form forms.now) ≡ true) }
    ensures wide { IsErrOf result WideStop.Wide → is_narrow (difference_form forms.now) ≡ false }
{
    match forms {
        [] => Ok(Lin::of_constant(alloc, 0)),
        [form] => judged(form.negated(alloc)?),
        [first, others @ ..] => {
            let signed = with_signs(alloc, first, others)?;
            sum_form(alloc, signed.as_slice())
        }
    }
}
