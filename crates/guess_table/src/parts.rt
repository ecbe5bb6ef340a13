//! Linear parts over the places of a predicate, of which bounds are looked for.

use crate::forms::{form_of, has_lin, lin_of, part_of};
use crate::increments::Increment;
use crate::places::Guarded;
use base::Memory;
use lin_atoms::{Lin, Lit};
use std::alloc::Global;

/// How many parts the literals of guards give.
const MOST_OF_GUARDS: usize = 80;

/// How many parts increments give beyond.
const MOST_OF_INCREMENTS: usize = 130;

/// How many parts there are.
const MOST_PARTS: usize = 250;

/// Of how many places all pairs are parts.
const MOST_IN_PAIRS: usize = 8;

/// How many forms that are handed in give parts.
const MOST_SHARED: usize = 12;

/// How many places that no clause moves stand in parts of three places.
const MOST_FIXED: usize = 3;

/// How many parts have one.
const MOST_WITH_FIXED: usize = 60;

/// How often such a place stands in a part.
const MOST_TIMES: u32 = 3;

/// The greatest coefficient of a part.
const GREATEST: i64 = 1_000_000_000;

fn push_new(parts: &mut Vec<Lin>, part: Lin, most: usize) -> Result<(), Memory> {
    if parts.len() >= most || has_lin(parts.as_slice(), &part) {
        return Ok(());
    }
    parts.push(part)?;
    Ok(())
}

/// Adds the form's part, and its negative.
fn push_both(alloc: Global, parts: &mut Vec<Lin>, lin: &Lin, most: usize) -> Result<(), Memory> {
    if let Some(part) = part_of(alloc, lin)? {
        let other = part.negated(alloc)?;
        push_new(parts, part, most)?;
        push_new(parts, other, most)?;
    }
    Ok(())
}

/// Adds the part of these terms, of which none is 0, and its negative.
fn push_terms(
    alloc: Global,
    parts: &mut Vec<Lin>,
    terms: &[(u32, i64)],
    most: usize,
) -> Result<(), Memory> {
    match form_of(alloc, terms)? {
        Some(lin) => push_both(alloc, parts, &lin, most),
        None => Ok(()),
    }
}

/// Adds the part of two terms, neither of which is 0, and its negative, as long as there are fewer than
/// `most` parts.
fn push_two(
    alloc: Global,
    parts: &mut Vec<Lin>,
    first: (u32, i64),
    second: (u32, i64),
    most: usize,
) -> Result<(), Memory> {
    push_terms(alloc, parts, &[first, second], most)
}

/// Adds the part of three terms, none of which is 0, and its negative, as long as there are fewer than
/// `most` parts.
fn push_three(
    alloc: Global,
    parts: &mut Vec<Lin>,
    first: (u32, i64),
    second: (u32, i64),
    third: (u32, i64),
    most: usize,
) -> Result<(), Memory> {
    push_terms(alloc, parts, &[first, second, third], most)
}

fn push_units(alloc: Global, parts: &mut Vec<Lin>, places: u32) -> Result<(), Memory> {
    for place in 0..places {
        push_terms(alloc, parts, &[(place, 1)], MOST_PARTS)?;
    }
    Ok(())
}

fn push_lits(alloc: Global, parts: &mut Vec<Lin>, lits: &[Lit]) -> Result<(), Memory> {
    for lit in lits {
        match lit {
            Lit::Le(_) => push_both(alloc, parts, lin_of(lit), MOST_OF_GUARDS)?,
            Lit::Eq(_) => push_both(alloc, parts, lin_of(lit), MOST_OF_GUARDS)?,
            _ => {}
        }
    }
    Ok(())
}

fn push_guards(alloc: Global, parts: &mut Vec<Lin>, guarded: &[Guarded]) -> Result<(), Memory> {
    for of in guarded {
        push_lits(alloc, parts, of.lits.as_slice())?;
    }
    Ok(())
}

fn is_step(step: i64) -> bool {
    step != 0 && step <= GREATEST && step >= -GREATEST
}

/// Adds the part of two places that an increment leaves as it is.
fn push_kept(
    alloc: Global,
    parts: &mut Vec<Lin>,
    first: (u32, i64),
    second: (u32, i64),
) -> Result<(), Memory> {
    if !is_step(first.1) || !is_step(second.1) {
        return Ok(());
    }
    let own = second.1.saturating_neg();
    push_two(
        alloc,
        parts,
        (first.0, own),
        (second.0, first.1),
        MOST_OF_INCREMENTS,
    )
}

/// Adds the parts of this place and of later ones.
fn push_with(
    alloc: Global,
    parts: &mut Vec<Lin>,
    steps: &[Option<i64>],
    first: (u32, i64),
) -> Result<(), Memory> {
    for (place, step) in steps.iter().enumerate() {
        match (u32::try_from(place), step) {
            (Ok(place), Some(step)) => {
                if first.0 < place {
                    push_kept(alloc, parts, first, (place, *step))?;
                }
            }
            _ => {}
        }
    }
    Ok(())
}

fn push_increment(
    alloc: Global,
    parts: &mut Vec<Lin>,
    steps: &[Option<i64>],
) -> Result<(), Memory> {
    for (place, step) in steps.iter().enumerate() {
        match (u32::try_from(place), step) {
            (Ok(place), Some(step)) => push_with(alloc, parts, steps, (place, *step))?,
            _ => {}
        }
    }
    Ok(())
}

fn push_increments(
    alloc: Global,
    parts: &mut Vec<Lin>,
    increments: &[Increment],
) -> Result<(), Memory> {
    for increment in increments {
        push_increment(alloc, parts, increment.steps.as_slice())?;
    }
    Ok(())
}

fn push_pairs(alloc: Global, parts: &mut Vec<Lin>, places: u32, first: u32) -> Result<(), Memory> {
    for second in 0..places {
        if first < second {
            push_two(alloc, parts, (first, 1), (second, -1), MOST_PARTS)?;
            push_two(alloc, parts, (first, 1), (second, 1), MOST_PARTS)?;
        }
    }
    Ok(())
}

fn push_all_pairs(alloc: Global, parts: &mut Vec<Lin>, places: u32) -> Result<(), Memory> {
    for first in 0..places {
        push_pairs(alloc, parts, places, first)?;
    }
    Ok(())
}

/// Adds parts of forms that are handed in.
fn push_shared(
    alloc: Global,
    parts: &mut Vec<Lin>,
    shared: Option<&Vec<Lin>>,
) -> Result<(), Memory> {
    let shared = match shared {
        Some(shared) => shared,
        None => return Ok(()),
    };
    for (at, lin) in shared.iter().enumerate() {
        if at < MOST_SHARED {
            push_both(alloc, parts, lin, MOST_PARTS)?;
        }
    }
    Ok(())
}

/// Whether no increment moves the place.
fn is_fixed(increments: &[Increment], place: u32) -> bool {
    for increment in increments {
        match increment.steps.as_slice().get(place as usize) {
            Some(Some(0)) => {}
            _ => return false,
        }
    }
    increments.len() > 0
}

/// The first few places that no increment moves.
fn fixed(alloc: Global, increments: &[Increment], places: u32) -> Result<Vec<u32>, Memory> {
    let mut made = Vec::new(alloc);
    for place in 0..places {
        if made.len() < MOST_FIXED && is_fixed(increments, place) {
            made.push(place)?;
        }
    }
    Ok(made)
}

/// Adds the part of two places that an increment leaves as it is, with one more place some times.
fn push_beside(
    alloc: Global,
    parts: &mut Vec<Lin>,
    first: (u32, i64),
    second: (u32, i64),
    place: u32,
    most: usize,
) -> Result<(), Memory> {
    if !is_step(first.1) || !is_step(second.1) {
        return Ok(());
    }
    let left = (first.0, second.1.saturating_neg());
    let right = (second.0, first.1);
    for times in 0..MOST_TIMES {
        let more = i64::from(times).saturating_add(1);
        let less = more.saturating_neg();
        push_three(alloc, parts, left, right, (place, more), most)?;
        push_three(alloc, parts, left, right, (place, less), most)?;
    }
    Ok(())
}

/// Adds for this place and each later one the part of the two that an increment leaves as it is, with a
/// place that no increment moves some times.
fn push_later(
    alloc: Global,
    parts: &mut Vec<Lin>,
    steps: &[Option<i64>],
    first: (u32, i64),
    fixed: u32,
    most: usize,
) -> Result<(), Memory> {
    for (place, step) in steps.iter().enumerate() {
        match (u32::try_from(place), step) {
            (Ok(place), Some(step)) => {
                if first.0 < place {
                    push_beside(alloc, parts, first, (place, *step), fixed, most)?;
                }
            }
            _ => {}
        }
    }
    Ok(())
}

/// Adds parts of the increment with a place that no increment moves.
fn push_with_fixed(
    alloc: Global,
    parts: &mut Vec<Lin>,
    steps: &[Option<i64>],
    fixed: u32,
    most: usize,
) -> Result<(), Memory> {
    for (place, step) in steps.iter().enumerate() {
        match (u32::try_from(place), step) {
            (Ok(place), Some(step)) => {
                push_later(alloc, parts, steps, (place, *step), fixed, most)?;
            }
            _ => {}
        }
    }
    Ok(())
}

/// Adds parts of each increment with each of these places.
fn push_each_with_fixed(
    alloc: Global,
    parts: &mut Vec<Lin>,
    increments: &[Increment],
    places: &[u32],
    most: usize,
) -> Result<(), Memory> {
    for place in places {
        for increment in increments {
            push_with_fixed(alloc, parts, increment.steps.as_slice(), *place, most)?;
        }
    }
    Ok(())
}

/// Adds parts of increments with places that none of them moves.
fn push_all_with_fixed(
    alloc: Global,
    parts: &mut Vec<Lin>,
    increments: &[Increment],
    places: u32,
) -> Result<(), Memory> {
    let most = parts.len().saturating_add(MOST_WITH_FIXED).min(MOST_PARTS);
    let fixed = fixed(alloc, increments, places)?;
    push_each_with_fixed(alloc, parts, increments, fixed.as_slice(), most)
}

/// Adds the parts of a predicate with so many places.
fn push_parts(
    alloc: Global,
    parts: &mut Vec<Lin>,
    guarded: &[Guarded],
    increments: &[Increment],
    shared: Option<&Vec<Lin>>,
    places: usize,
    is_whole: bool,
) -> Result<(), Memory> {
    let count = match u32::try_from(places) {
        Ok(count) => count,
        Err(_) => 0,
    };
    push_units(alloc, parts, count)?;
    push_shared(alloc, parts, shared)?;
    push_guards(alloc, parts, guarded)?;
    push_increments(alloc, parts, increments)?;
    if places <= MOST_IN_PAIRS {
        push_all_pairs(alloc, parts, count)?;
    }
    if is_whole {
        push_all_with_fixed(alloc, parts, increments, count)?;
    }
    Ok(())
}

/// The parts of a predicate of arity `places`: of three places only where they are asked for, or handed
/// in.
pub(crate) fn parts_of(
    alloc: Global,
    guarded: &[Guarded],
    increments: &[Increment],
    shared: Option<&Vec<Lin>>,
    places: usize,
    is_whole: bool,
) -> Result<Vec<Lin>, Memory> {
    let mut parts = Vec::new(alloc);
    push_parts(
        alloc, &mut parts, guarded, increments, shared, places, is_whole,
    )?;
    Ok(parts)
}
