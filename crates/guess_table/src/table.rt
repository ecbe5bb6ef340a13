//! The bounds that are looked for.

use crate::arms::{Arm, Way, arms_of};
use crate::bound::{Bound, push_bound};
use crate::conditions::conditions;
use crate::forms::{copied, part_of};
use crate::increments::increments;
use crate::parts::parts_of;
use crate::places::{Guarded, guards_of};
use base::{Copied, Memory, Same};
use clause_form::System;
use clause_index::IndexedSystem;
use lin_atoms::{Lin, Lit};
use std::alloc::Global;

/// How many places a predicate has at most, for bounds.
const MOST_PLACES: usize = 30;

/// How many bounds there are in all.
const MOST_BOUNDS: usize = 4_000;

/// From how many places on a predicate has no conditions.
const MANY_PLACES: usize = 9;

/// How much is looked for.
#[derive(Clone, Copy)]
pub struct Size {
    /// How many conditions a predicate has.
    pub conditions: usize,
    /// How many bounds.
    pub bounds: usize,
    /// Whether predicates with many places have conditions, too, and parts have a third place.
    pub is_whole: bool,
}

/// The literals on one predicate.
#[derive(Drop)]
pub(crate) struct About {
    pub(crate) guarded: Vec<Guarded>,
}

/// All bounds of a system, and what they are made of.
#[derive(Drop)]
pub struct Table {
    pub arms: Vec<Arm>,
    pub bounds: Vec<Bound>,
    /// What guards say of each predicate.
    pub(crate) about: Vec<About>,
    /// Whether a tuple of each predicate was met.
    pub reached: Vec<bool>,
}

/// Adds the bound of each part, without a condition.
fn push_plain(
    alloc: Global,
    bounds: &mut Vec<Bound>,
    pred: u32,
    parts: &[Lin],
) -> Result<(), Memory> {
    for part in parts {
        let own = part.copy(alloc)?;
        push_bound(alloc, bounds, pred, Vec::new(alloc), own, None)?;
    }
    Ok(())
}

/// Whether the condition is a bound of this part.
fn is_about(alloc: Global, condition: &[Lit], part: &Lin) -> Result<bool, Memory> {
    let lin = match condition {
        [Lit::Le(lin)] => lin,
        _ => return Ok(false),
    };
    match part_of(alloc, lin)? {
        Some(own) => Ok(own.equals(part)),
        None => Ok(false),
    }
}

/// Adds the bound of a part under the condition.
fn push_one(
    alloc: Global,
    bounds: &mut Vec<Bound>,
    pred: u32,
    condition: &[Lit],
    part: &Lin,
    plain: usize,
) -> Result<(), Memory> {
    let part = part.copy(alloc)?;
    let own = copied(alloc, condition)?;
    push_bound(alloc, bounds, pred, own, part, Some(plain))
}

/// Adds the bound of each part under the condition.
fn push_under(
    alloc: Global,
    bounds: &mut Vec<Bound>,
    pred: u32,
    condition: &[Lit],
    parts: &[Lin],
    first: usize,
    most: usize,
) -> Result<(), Memory> {
    for (at, part) in parts.iter().enumerate() {
        if bounds.len() < most && !is_about(alloc, condition, part)? {
            push_one(
                alloc,
                bounds,
                pred,
                condition,
                part,
                first.saturating_add(at),
            )?;
        }
    }
    Ok(())
}

/// Adds the bound that no tuple meets the condition.
fn push_none(
    alloc: Global,
    bounds: &mut Vec<Bound>,
    pred: u32,
    condition: &[Lit],
) -> Result<(), Memory> {
    let own = copied(alloc, condition)?;
    let none = Lin::of_constant(alloc, 0);
    push_bound(alloc, bounds, pred, own, none, None)
}

/// Adds the bounds under each condition.
fn push_conditional(
    alloc: Global,
    bounds: &mut Vec<Bound>,
    pred: u32,
    conditions: &[Way],
    parts: &[Lin],
    first: usize,
    most: usize,
) -> Result<(), Memory> {
    for way in conditions {
        let condition = way.lits.as_slice();
        if bounds.len() < most {
            push_none(alloc, bounds, pred, condition)?;
            push_under(alloc, bounds, pred, condition, parts, first, most)?;
        }
    }
    Ok(())
}

/// The parts of a predicate.
fn parts_for(
    alloc: Global,
    table: &Table,
    sys: &System,
    pred: u32,
    places: usize,
    guarded: &[Guarded],
    shared: Option<&Vec<Lin>>,
    is_whole: bool,
) -> Result<Vec<Lin>, Memory> {
    let steps = increments(alloc, sys, table.arms.as_slice(), pred)?;
    parts_of(alloc, guarded, steps.as_slice(), shared, places, is_whole)
}

/// Adds the bounds of these parts, without a condition and under each of so many.
fn push_bounds(
    alloc: Global,
    bounds: &mut Vec<Bound>,
    pred: u32,
    guarded: &[Guarded],
    parts: &[Lin],
    count: usize,
    most: usize,
) -> Result<(), Memory> {
    let first = bounds.len();
    push_plain(alloc, bounds, pred, parts)?;
    let under = conditions(alloc, guarded, count)?;
    let most = first.saturating_add(most);
    push_conditional(alloc, bounds, pred, under.as_slice(), parts, first, most)
}

/// Adds the bounds of a predicate of which guards say this.
fn push_guarded(
    alloc: Global,
    table: &mut Table,
    sys: &System,
    pred: u32,
    places: usize,
    guarded: &[Guarded],
    shared: Option<&Vec<Lin>>,
    size: Size,
) -> Result<(), Memory> {
    if places == 0 || places > MOST_PLACES || table.bounds.len() >= MOST_BOUNDS {
        return Ok(());
    }
    let parts = parts_for(
        alloc,
        table,
        sys,
        pred,
        places,
        guarded,
        shared,
        size.is_whole,
    )?;
    let count = if places < MANY_PLACES || size.is_whole {
        size.conditions
    } else {
        0
    };
    push_bounds(
        alloc,
        &mut table.bounds,
        pred,
        guarded,
        parts.as_slice(),
        count,
        size.bounds,
    )
}

/// Adds the bounds of a predicate, and what guards say of it.
fn push_pred(
    alloc: Global,
    table: &mut Table,
    sys: &System,
    pred: u32,
    places: usize,
    shared: Option<&Vec<Lin>>,
    size: Size,
) -> Result<(), Memory> {
    let own = guards_of(alloc, sys, table.arms.as_slice(), pred)?;
    push_guarded(
        alloc,
        table,
        sys,
        pred,
        places,
        own.as_slice(),
        shared,
        size,
    )?;
    table.about.push(About { guarded: own })?;
    table.reached.push(false)?;
    Ok(())
}

/// Adds the bounds of each predicate.
fn push_preds(
    alloc: Global,
    table: &mut Table,
    sys: &System,
    shared: &[Vec<Lin>],
    size: Size,
) -> Result<(), Memory> {
    for (pred, sorts) in sys.preds().iter().enumerate() {
        if let Ok(pred) = u32::try_from(pred) {
            let forms = shared.get(pred as usize);
            push_pred(alloc, table, sys, pred, sorts.len(), forms, size)?;
        }
    }
    Ok(())
}

/// The bounds that are looked for in a system, none of which was asked for yet; none where it has too many
/// ways through its clauses. For each predicate forms are handed in that may be worth a bound.
pub fn table_of(
    alloc: Global,
    indexed: &IndexedSystem,
    shared: &[Vec<Lin>],
    size: Size,
) -> Result<Option<Table>, Memory> {
    let arms = match arms_of(alloc, indexed)? {
        Some(arms) => arms,
        None => return Ok(None),
    };
    let mut table = Table {
        arms,
        bounds: Vec::new(alloc),
        about: Vec::new(alloc),
        reached: Vec::new(alloc),
    };
    push_preds(alloc, &mut table, indexed.plain(), shared, size)?;
    Ok(Some(table))
}
