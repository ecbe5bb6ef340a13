//! What arms refuted bounds with.

use crate::bound::{Bound, Memo, Use, stands};
use crate::table::Table;
use base::Memory;
use std::alloc::Global;

/// Whether the bound is as it was.
fn is_unchanged(bounds: &[Bound], one: &Use) -> bool {
    match bounds.get(one.bound) {
        Some(bound) => bound.version == one.version,
        None => false,
    }
}

/// Whether the bounds are as they were.
fn are_unchanged(bounds: &[Bound], uses: &[Use]) -> bool {
    for one in uses {
        if !is_unchanged(bounds, one) {
            return false;
        }
    }
    true
}

/// What the arm refuted the bound with last.
fn memo_of(bound: &Bound, arm: usize) -> Option<&Memo> {
    for memo in bound.memos.as_slice() {
        if memo.arm == arm {
            return Some(memo);
        }
    }
    None
}

/// Whether the arm refuted the bound as it is, with bounds that haven't changed.
pub fn is_kept(bounds: &[Bound], bound: &Bound, arm: usize) -> bool {
    match memo_of(bound, arm) {
        Some(memo) => {
            memo.version == bound.version && are_unchanged(bounds, memo.uses.as_slice())
        }
        None => false,
    }
}

/// What the arm used then.
fn uses_of(bound: &Bound, arm: usize) -> &[Use] {
    match memo_of(bound, arm) {
        Some(memo) => memo.uses.as_slice(),
        None => &[],
    }
}

/// The use of the bound as it is now, if it stands.
fn as_now(bounds: &[Bound], one: &Use) -> Option<Use> {
    let used = bounds.get(one.bound)?;
    if !stands(bounds, used) {
        return None;
    }
    Some(Use {
        bound: one.bound,
        atom: one.atom,
        version: used.version,
    })
}

fn push_if(made: &mut Vec<Use>, one: Option<Use>) -> Result<(), Memory> {
    if let Some(one) = one {
        made.push(one)?;
    }
    Ok(())
}

/// Adds the bounds that the arm refuted the bound with last, as they are now: those that stand.
pub fn push_first(
    made: &mut Vec<Use>,
    bounds: &[Bound],
    bound: &Bound,
    arm: usize,
) -> Result<(), Memory> {
    for one in uses_of(bound, arm) {
        push_if(made, as_now(bounds, one))?;
    }
    Ok(())
}

/// The place of what the arm refuted the bound with last.
fn place_of(memos: &[Memo], arm: usize) -> Option<usize> {
    for (at, memo) in memos.iter().enumerate() {
        if memo.arm == arm {
            return Some(at);
        }
    }
    None
}

/// Forgets what the arm refuted the bound with last.
fn forget(memos: &mut Vec<Memo>, arm: usize) {
    if let Some(at) = place_of(memos.as_slice(), arm) {
        if at < memos.len() {
            let _old = memos.remove(at);
        }
    }
}

/// Remembers what the arm refuted the bound with, in place of what it did so with last. Without memory that is
/// forgotten alone.
pub fn remember(bound: &mut Bound, arm: usize, uses: Vec<Use>) -> Result<(), Memory> {
    forget(&mut bound.memos, arm);
    let version = bound.version;
    bound.memos.push(Memo { arm, version, uses })?;
    Ok(())
}

/// What is remembered of a bound, taken out; nothing else of the table changes.
pub fn forgotten(alloc: Global, table: &mut Table, at: usize) -> Vec<Memo> {
    if at >= table.bounds.len() {
        return Vec::new(alloc);
    }
    std::mem::replace(&mut table.bounds[at].memos, Vec::new(alloc))
}
