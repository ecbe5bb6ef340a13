//! Splits of what a column may be.

use crate::chain::numbered;
use crate::rows::both;
use crate::sides::{Bound, Sides};
use base::Memory;
use lin_atoms::Lin;
use std::alloc::Global;

/// A part of a node that isn't closed: the bounds of the columns, and how many literals are known.
#[derive(Drop)]
pub(crate) struct Part {
    pub(crate) sides: Vec<Sides>,
    pub(crate) known: usize,
}

/// Where a column is split: it is at most the number, or greater.
#[derive(Clone, Copy)]
pub(crate) struct Place {
    pub(crate) column: usize,
    pub(crate) most: i128,
}

/// The widest box that is split.
const WIDEST: i128 = 64;

/// How far apart the bounds are, where both are there and a split leaves less on each side.
fn width(sides: &[Sides], column: usize) -> Option<(i128, i128)> {
    let (lower, upper) = both(sides, column)?;
    let width = upper.value.checked_sub(lower.value)?;
    if width < 1 || width > WIDEST {
        return None;
    }
    Some((width, lower.value.checked_add(width / 2)?))
}

/// The middle of the column whose bounds are closest together, but not equal.
pub(crate) fn narrowest(sides: &[Sides]) -> Option<Place> {
    let mut found = None;
    let mut least = i128::MAX;
    for column in 0..sides.len() {
        if let Some((width, most)) = width(sides, column) {
            if width < least {
                least = width;
                found = Some(Place { column, most });
            }
        }
    }
    found
}

/// A form with terms of 64 bits, less a number.
fn lin_of(alloc: Global, terms: &[(u32, i128)], most: i128) -> Result<Option<Lin>, Memory> {
    let mut made = Vec::new(alloc);
    for (variable, coefficient) in terms {
        match i64::try_from(*coefficient) {
            Ok(coefficient) => made.push((*variable, coefficient))?,
            Err(_) => return Ok(None),
        }
    }
    let Some(constant) = most.checked_neg() else {
        return Ok(None);
    };
    Ok(Lin::new(made, constant).ok())
}

/// The form that is at most 0 where the column is at most the number.
pub(crate) fn form_of(
    alloc: Global,
    forms: &[Vec<(u32, i128)>],
    variables: usize,
    place: Place,
) -> Result<Option<Lin>, Memory> {
    if place.column < variables {
        let own = vec![in alloc; (numbered(place.column)?, 1)]?;
        return lin_of(alloc, own.as_slice(), place.most);
    }
    match forms.get(place.column - variables) {
        Some(terms) => lin_of(alloc, terms.as_slice(), place.most),
        None => Ok(None),
    }
}

/// A bound that the literal of this number gives as it stands.
fn given(value: i128, number: u32) -> Bound {
    Bound {
        value,
        number,
        sign: 1,
        divisor: 1,
    }
}

/// A part is split: above the number and, to be met first, at most the number. Each has one literal more,
/// which gives the column a bound.
pub(crate) fn put_parts(
    alloc: Global,
    stack: &mut Vec<Part>,
    part: Part,
    place: Place,
) -> Result<(), Memory> {
    let mut below = part;
    let number = numbered(below.known)?;
    let known = below.known.saturating_add(1);
    let mut sides = Vec::new(alloc);
    sides.extend_from_slice(below.sides.as_slice())?;
    if let Some(own) = sides.as_mut_slice().get_mut(place.column) {
        own.lower = Some(given(place.most.saturating_add(1), number));
    }
    stack.push(Part { sides, known })?;
    if let Some(own) = below.sides.as_mut_slice().get_mut(place.column) {
        own.upper = Some(given(place.most, number));
    }
    below.known = known;
    stack.push(below)?;
    Ok(())
}
