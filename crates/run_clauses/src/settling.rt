//! Formulas that have to hold make the ranges of variables smaller, until nothing changes.

use crate::ranges::Ranges;
use crate::tightening::{Truth, tighten, truth_of_lit};
use base::Memory;
use lin_atoms::{Form, Lit};
use std::alloc::Global;

/// How often all formulas are gone through at most.
const MOST_PASSES: u32 = 12;

/// What is known of the formula by the ranges.
#[cycle(truth_of)]
fn truth_of(form: &Form, ranges: &Ranges, work: &mut u64) -> Truth {
    match form {
        Form::True => Truth::Holds,
        Form::False => Truth::Fails,
        Form::Lit(lit) => {
            *work = work.saturating_add(1);
            truth_of_lit(lit, ranges)
        }
        Form::And(parts) => truth_of_all(parts.as_slice(), ranges, work),
        Form::Or(parts) => truth_of_any(parts.as_slice(), ranges, work),
    }
}

#[cycle(truth_of)]
fn truth_of_all(parts: &[Form], ranges: &Ranges, work: &mut u64) -> Truth {
    let mut truth = Truth::Holds;
    for part in parts {
        match truth_of(part, ranges, work) {
            Truth::Holds => {}
            Truth::Fails => return Truth::Fails,
            Truth::Open => truth = Truth::Open,
        }
    }
    truth
}

#[cycle(truth_of)]
fn truth_of_any(parts: &[Form], ranges: &Ranges, work: &mut u64) -> Truth {
    let mut truth = Truth::Fails;
    for part in parts {
        match truth_of(part, ranges, work) {
            Truth::Holds => return Truth::Holds,
            Truth::Fails => {}
            Truth::Open => truth = Truth::Open,
        }
    }
    truth
}

/// How many parts may hold; none where one does.
pub(crate) fn open_parts(parts: &[Form], ranges: &Ranges, work: &mut u64) -> Option<usize> {
    let mut count: usize = 0;
    for part in parts {
        match truth_of(part, ranges, work) {
            Truth::Holds => return None,
            Truth::Fails => {}
            Truth::Open => count = count.saturating_add(1),
        }
    }
    Some(count)
}

/// Whether the formula may hold, but needn't.
pub(crate) fn is_open(form: &Form, ranges: &Ranges, work: &mut u64) -> bool {
    match truth_of(form, ranges, work) {
        Truth::Holds => false,
        Truth::Fails => false,
        Truth::Open => true,
    }
}

/// The literal, which the formula is, has to hold. It is kept where that isn't known.
fn meet_lit<'a>(
    form: &'a Form,
    lit: &Lit,
    ranges: &mut Ranges,
    kept: &mut Vec<&'a Form>,
) -> Result<(), Memory> {
    match tighten(lit, ranges) {
        Truth::Holds => {}
        Truth::Fails => ranges.fail(),
        Truth::Open => kept.push(form)?,
    }
    Ok(())
}

/// The formula has to hold. What of it isn't known is kept.
#[cycle(meet)]
fn meet<'a>(
    form: &'a Form,
    ranges: &mut Ranges,
    kept: &mut Vec<&'a Form>,
    work: &mut u64,
) -> Result<(), Memory> {
    if ranges.has_failed() {
        return Ok(());
    }
    match form {
        Form::True => Ok(()),
        Form::False => {
            ranges.fail();
            Ok(())
        }
        Form::Lit(lit) => {
            *work = work.saturating_add(1);
            meet_lit(form, lit, ranges, kept)
        }
        Form::And(parts) => meet_all(parts.as_slice(), ranges, kept, work),
        Form::Or(parts) => match open_parts(parts.as_slice(), ranges, work) {
            None => Ok(()),
            Some(0) => {
                ranges.fail();
                Ok(())
            }
            Some(1) => meet_open(parts.as_slice(), ranges, kept, work),
            Some(_) => {
                kept.push(form)?;
                Ok(())
            }
        },
    }
}

#[cycle(meet)]
fn meet_all<'a>(
    parts: &'a [Form],
    ranges: &mut Ranges,
    kept: &mut Vec<&'a Form>,
    work: &mut u64,
) -> Result<(), Memory> {
    for part in parts {
        meet(part, ranges, kept, work)?;
    }
    Ok(())
}

/// Of these parts those that may hold have to.
#[cycle(meet)]
fn meet_open<'a>(
    parts: &'a [Form],
    ranges: &mut Ranges,
    kept: &mut Vec<&'a Form>,
    work: &mut u64,
) -> Result<(), Memory> {
    for part in parts {
        if is_open(part, ranges, work) {
            return meet(part, ranges, kept, work);
        }
    }
    Ok(())
}

/// Goes through the formulas once; whether a range has become smaller.
fn pass<'a>(
    alloc: Global,
    forms: &mut Vec<&'a Form>,
    ranges: &mut Ranges,
    work: &mut u64,
) -> Result<bool, Memory> {
    let mut kept = Vec::new(alloc);
    for form in forms.as_slice() {
        meet(*form, ranges, &mut kept, work)?;
    }
    *forms = kept;
    Ok(ranges.take_changed())
}

/// Makes the ranges smaller by the formulas until nothing changes. Those that aren't known to hold stay.
pub(crate) fn settle<'a>(
    alloc: Global,
    forms: &mut Vec<&'a Form>,
    ranges: &mut Ranges,
    work: &mut u64,
) -> Result<(), Memory> {
    for _ in 0..MOST_PASSES {
        let changed = pass(alloc, forms, ranges, work)?;
        if !changed || ranges.has_failed() || forms.len() == 0 {
            return Ok(());
        }
    }
    Ok(())
}
