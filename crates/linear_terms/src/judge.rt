//! Which forms are narrow: their coefficients and constant are short, below 2^63 in magnitude.

ghost use Rattle.std.specs.Prelude.{◌≡◌, ◌&&◌, IsTrue, IfOk, OnOk, IfSome, IsNone, IsErrOf, ◌↔◌, true, false};
ghost use Rattle.lin_atoms.specs.Linear.{are_ordered, are_short, is_short};
ghost use Rattle.lin_atoms.specs.Algebra.{collected};
ghost use Rattle.linear_terms.specs.Linear.{is_narrow};
ghost use Rattle.linear_terms.specs.Short.{short_or_none};

use lin_atoms::{Lin, WideStop, collected, narrowed};
use std::alloc::Global;

/// Whether the number is below 2^63 in magnitude.
pub(crate) fn is_short(n: i128) -> bool
    ensures { result ≡ is_short n }
{
    n.unsigned_abs() < 1 << 63
}

/// The number with 64 bits, where it is short.
pub(crate) fn narrow(n: i128) -> Option<i64>
    ensures is { result ≡ short_or_none n }
    ensures some { IfSome result (λ m. m ≡ n) }
    ensures none { IsNone result ↔ (is_short n ≡ false) }
{
    if n.unsigned_abs() < 1 << 63 {
        Some(n as i64)
    } else {
        None
    }
}

/// The form of terms that are in order, with short numbers.
pub(crate) fn form_of(terms: Vec<(u32, i64)>, constant: i128) -> Lin
    requires ordered { IsTrue (are_ordered 0 terms.items) }
    requires short { IsTrue (are_short terms.items) }
    requires constant { IsTrue (is_short constant) }
    ensures { result ≡ record { terms = terms.items; constant = constant } }
{
    match Lin::new(terms, constant) {
        Ok(form) => form,
        Err(_) => unreachable!(),
    }
}

/// The sum of these terms and this constant, where it is narrow.
pub(crate) fn summed(alloc: Global, terms: &[(u32, i64)], constant: i128) -> Result<Lin, WideStop>
    ensures made { IfOk result (λ made. made ≡ record { terms = collected terms.now; constant = constant }) }
    ensures narrow { OnOk result (is_narrow (record { terms = collected terms.now; constant = constant }) ≡ true) }
    ensures wide { IsErrOf result WideStop.Wide → is_narrow (record { terms = collected terms.now; constant = constant }) ≡ false }
{
    let sum = collected(alloc, terms)?;
    let terms = narrowed(alloc, sum.as_slice())?;
    if !is_short(constant) {
        return Err(WideStop::Wide);
    }
    Ok(form_of(terms, constant))
}

fn are_short(terms: &[(u32, i64)]) -> bool
    ensures { result ≡ are_short terms.now }
{
    terms.iter().all(|term| term.1 != i64::MIN)
}

/// Whether the form is narrow: all its numbers are short.
pub fn is_narrow(form: &Lin) -> bool
    ensures { result ≡ is_narrow form.now }
{
    are_short(form.terms()) && is_short(form.constant())
}

/// The form, where it is narrow.
pub fn judged(form: Lin) -> Result<Lin, WideStop>
    ensures made { IfOk result (λ made. made ≡ form) }
    ensures narrow { OnOk result (is_narrow form ≡ true) }
    ensures wide { IsErrOf result WideStop.Wide → is_narrow form ≡ false }
{
    if is_narrow(&form) {
        Ok(form)
    } else {
        Err(WideStop::Wide)
    }
}
