//! Forms that join a tableau, which may have been pivoted.

use crate::columns::times;
use crate::said::Said;
use base::Memory;
use int_rows::{PushStop, Tableau};
use lin_atoms::{Lin, Lit, gcd};
use std::alloc::Global;

/// The greatest number that divides all coefficients.
fn content(lin: &Lin) -> u128 {
    let mut divisor = 0;
    for (_, coefficient) in lin.terms() {
        divisor = gcd(divisor, u128::from(coefficient.unsigned_abs()));
    }
    divisor
}

fn put_term(
    terms: &mut Vec<(u32, i64)>,
    variable: u32,
    coefficient: i64,
    divisor: i64,
) -> Result<(), Memory> {
    if let Some(own) = coefficient.checked_div(divisor) {
        terms.push((variable, own))?;
    }
    Ok(())
}

/// The form without its constant, and divided by what divides all of it.
fn primitive(alloc: Global, lin: &Lin) -> Result<Option<Lin>, Memory> {
    let Ok(divisor) = i64::try_from(content(lin)) else {
        return Ok(None);
    };
    let mut terms = Vec::new(alloc);
    for (variable, coefficient) in lin.terms() {
        put_term(&mut terms, *variable, *coefficient, divisor)?;
    }
    Ok(Lin::new(terms, 0).ok())
}

/// The terms with room for sums of them.
fn wide_terms(alloc: Global, lin: &Lin) -> Result<Vec<(u32, i128)>, Memory> {
    let mut terms = Vec::new(alloc);
    for (variable, coefficient) in lin.terms() {
        terms.push((*variable, i128::from(*coefficient)))?;
    }
    Ok(terms)
}

/// Whether one of the forms is the same, or divides it.
fn has_form(forms: &[Vec<(u32, i128)>], lin: &Lin) -> bool {
    for form in forms {
        if times(lin.terms(), form.as_slice()).is_some() {
            return true;
        }
    }
    false
}

/// The form joins the tableau and its forms, where it has two or more variables and isn't there yet.
/// Whether there is room.
fn join(
    alloc: Global,
    tableau: &mut Tableau,
    forms: &mut Vec<Vec<(u32, i128)>>,
    lin: &Lin,
) -> Result<bool, Memory> {
    if lin.terms().len() < 2 || has_form(forms.as_slice(), lin) {
        return Ok(true);
    }
    match primitive(alloc, lin)? {
        Some(own) => push(alloc, tableau, forms, &own),
        None => Ok(false),
    }
}

/// The form joins the tableau and its forms. Whether there is room.
fn push(
    alloc: Global,
    tableau: &mut Tableau,
    forms: &mut Vec<Vec<(u32, i128)>>,
    own: &Lin,
) -> Result<bool, Memory> {
    if !own.is_below(tableau.columns()) {
        return Ok(false);
    }
    match tableau.push(alloc, own) {
        Ok(()) => {
            forms.push(wide_terms(alloc, own)?)?;
            Ok(true)
        }
        Err(PushStop::Memory) => Err(Memory),
        Err(PushStop::TooMany) => Ok(false),
        Err(PushStop::Wide(_)) => Ok(false),
    }
}

/// The forms of the literals that are at most 0 join. Whether there is room for them all.
pub(crate) fn join_all(
    alloc: Global,
    tableau: &mut Tableau,
    forms: &mut Vec<Vec<(u32, i128)>>,
    said: &[Said],
) -> Result<bool, Memory> {
    for one in said {
        if let Lit::Le(lin) = &one.lit {
            if !join(alloc, tableau, forms, lin)? {
                return Ok(false);
            }
        }
    }
    Ok(true)
}
