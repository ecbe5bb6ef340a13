//! Values of forms, their parts, and lists of what is different.

use crate::tightening::tightened;
use base::{Copied, Memory, Same};
use lin_atoms::{Lin, Lit};
use std::alloc::Global;

/// What a variable stands for at a point: 0 past the end.
pub fn variable_at(point: &[i64], variable: u32) -> i64 {
    match point.get(variable as usize) {
        Some(value) => *value,
        None => 0,
    }
}

/// The product of two numbers, which has room.
fn times(a: i64, b: i64) -> i128 {
    i128::from(a) * i128::from(b)
}

/// The sum and a product, where it has room.
fn with_product(sum: i128, coefficient: i64, value: i64) -> Option<i128> {
    sum.checked_add(times(coefficient, value))
}

/// The value of the form at the point, where it has 64 bits and each sum on the way, from the constant on, has
/// 128. A variable past the point's end is 0.
pub fn value_at(lin: &Lin, point: &[i64]) -> Option<i64> {
    let mut total = lin.constant();
    for (variable, coefficient) in lin.terms() {
        total = match with_product(total, *coefficient, variable_at(point, *variable)) {
            Some(more) => more,
            None => return None,
        };
    }
    match i64::try_from(total) {
        Ok(value) => Some(value),
        Err(_) => None,
    }
}

/// The form of these terms without a constant, if they are in order.
pub(crate) fn form_of(alloc: Global, terms: &[(u32, i64)]) -> Result<Option<Lin>, Memory> {
    let kept = Vec::from_slice(alloc, terms)?;
    match Lin::new(kept, 0) {
        Ok(lin) => Ok(Some(lin)),
        Err(_) => Ok(None),
    }
}

/// The terms alone, without a common factor; none where there are none.
pub(crate) fn part_of(alloc: Global, lin: &Lin) -> Result<Option<Lin>, Memory> {
    if lin.terms().len() == 0 {
        return Ok(None);
    }
    let short = tightened(alloc, lin)?;
    form_of(alloc, short.terms())
}

/// The form of a literal.
pub(crate) fn lin_of(lit: &Lit) -> &Lin {
    match lit {
        Lit::Le(lin) => lin,
        Lit::Eq(lin) => lin,
        Lit::Div(_, lin) => lin,
        Lit::NDiv(_, lin) => lin,
    }
}

/// The form of a bound without a common factor.
fn tight_bound(alloc: Global, lit: &Lit) -> Result<Option<Lin>, Memory> {
    match lit {
        Lit::Le(lin) => Ok(Some(tightened(alloc, lin)?)),
        _ => Ok(None),
    }
}

/// A copy of the literal, a bound without a common factor.
pub(crate) fn tidied(alloc: Global, lit: &Lit) -> Result<Lit, Memory> {
    match tight_bound(alloc, lit)? {
        Some(lin) => Ok(Lit::Le(lin)),
        None => lit.copy(alloc),
    }
}

/// Whether the literal is one of these.
pub fn has_lit(lits: &[Lit], lit: &Lit) -> bool {
    for one in lits {
        if one.equals(lit) {
            return true;
        }
    }
    false
}

/// Adds the literal, unless it is there.
pub fn push_new(lits: &mut Vec<Lit>, lit: Lit) -> Result<(), Memory> {
    if has_lit(lits.as_slice(), &lit) {
        return Ok(());
    }
    lits.push(lit)?;
    Ok(())
}

/// Whether the form is one of these.
pub(crate) fn has_lin(lins: &[Lin], lin: &Lin) -> bool {
    for one in lins {
        if one.equals(lin) {
            return true;
        }
    }
    false
}

/// Adds copies of the literals.
pub(crate) fn push_copies(alloc: Global, made: &mut Vec<Lit>, lits: &[Lit]) -> Result<(), Memory> {
    for lit in lits {
        made.push(lit.copy(alloc)?)?;
    }
    Ok(())
}

/// Copies of the literals.
pub(crate) fn copied(alloc: Global, lits: &[Lit]) -> Result<Vec<Lit>, Memory> {
    let mut made = Vec::new(alloc);
    push_copies(alloc, &mut made, lits)?;
    Ok(made)
}
