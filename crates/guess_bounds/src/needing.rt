//! Which bounds refute the queries, and what they rest on.

use crate::asking::{Answer, core_of, visit};
use base::Memory;
use clause_form::{Clause, System};
use guess_table::{
    Arm, Memo, Needs, Table, are_reached, denied_by, forgotten, is_marked, mark, mark_memos,
    mark_uses, ranks_of,
};
use std::alloc::Global;

/// How often needed bounds are gone through.
const MOST_PASSES: u32 = 100;

/// Leaves out of what an arm refuted the bound with what isn't needed for that; whether the bound still has
/// a lemma.
fn shorten_memo(
    alloc: Global,
    table: &Table,
    sys: &System,
    at: usize,
    memo: &mut Memo,
    left: &mut u32,
) -> Result<bool, Memory> {
    let bounds = table.bounds.as_slice();
    let arm = match table.arms.as_slice().get(memo.arm) {
        Some(arm) => arm,
        None => return Ok(false),
    };
    let clause = match sys.clauses().get(arm.clause) {
        Some(clause) => clause,
        None => return Ok(false),
    };
    match denied_by(alloc, bounds, at, clause)? {
        Some(goal) => {
            let uses = &mut memo.uses;
            core_of(alloc, clause, arm, bounds, goal.as_slice(), uses, left)?;
            Ok(true)
        }
        None => Ok(false),
    }
}

/// What arms refuted the bound with, each without what isn't needed for that; without those arms for
/// which the bound has no lemma any more.
fn shortened(
    alloc: Global,
    table: &Table,
    sys: &System,
    at: usize,
    memos: Vec<Memo>,
    left: &mut u32,
) -> Result<Vec<Memo>, Memory> {
    let mut made = Vec::new(alloc);
    for memo in memos {
        let mut memo = memo;
        if shorten_memo(alloc, table, sys, at, &mut memo, left)? {
            made.push(memo)?;
        }
    }
    Ok(made)
}

/// Leaves out of what is remembered of a bound what isn't needed, and marks the rest.
fn shorten(
    alloc: Global,
    table: &mut Table,
    sys: &System,
    needed: &mut Vec<bool>,
    at: usize,
    left: &mut u32,
) -> Result<(), Memory> {
    let memos = forgotten(alloc, table, at);
    let memos = shortened(alloc, table, sys, at, memos, left)?;
    mark_memos(needed, memos.as_slice());
    if let Some(bound) = table.bounds.as_mut_slice().get_mut(at) {
        bound.memos = memos;
    }
    Ok(())
}

/// Does so for needed bounds for which it wasn't done yet; whether there are any.
fn shorten_needed(
    alloc: Global,
    table: &mut Table,
    sys: &System,
    needed: &mut Vec<bool>,
    done: &mut Vec<bool>,
    left: &mut u32,
) -> Result<bool, Memory> {
    let mut changed = false;
    for at in 0..table.bounds.len() {
        if is_marked(needed.as_slice(), at) && mark(done, at) {
            shorten(alloc, table, sys, needed, at, left)?;
            changed = true;
        }
    }
    Ok(changed)
}

/// Marks what needed bounds rest on, of which some are done.
fn mark_from(
    alloc: Global,
    table: &mut Table,
    sys: &System,
    needed: &mut Vec<bool>,
    done: &mut Vec<bool>,
    left: &mut u32,
) -> Result<(), Memory> {
    for _ in 0..MOST_PASSES {
        if !shorten_needed(alloc, table, sys, needed, done, left)? {
            return Ok(());
        }
    }
    Ok(())
}

/// Marks what needed bounds rest on.
fn mark_below(
    alloc: Global,
    table: &mut Table,
    sys: &System,
    needed: &mut Vec<bool>,
    left: &mut u32,
) -> Result<(), Memory> {
    let mut done = vec![in alloc; false; table.bounds.len()]?;
    mark_from(alloc, table, sys, needed, &mut done, left)
}

/// Asks an arm of a query; whether the bounds refute it.
fn ask_query(
    alloc: Global,
    table: &Table,
    clause: &Clause,
    arm: &Arm,
    needed: &mut Vec<bool>,
    left: &mut u32,
) -> Result<bool, Memory> {
    if !are_reached(table.reached.as_slice(), clause.atoms.as_slice()) {
        return Ok(true);
    }
    let bounds = table.bounds.as_slice();
    let mut uses = Vec::new(alloc);
    match visit(alloc, clause, arm, bounds, &[], &mut uses, left)? {
        Answer::Refuted => {
            core_of(alloc, clause, arm, bounds, &[], &mut uses, left)?;
            mark_uses(needed, uses.as_slice());
            Ok(true)
        }
        Answer::Met(_point) => Ok(false),
        Answer::GivenUp => Ok(false),
    }
}

/// Asks all queries; whether the bounds refute each.
fn ask_queries(
    alloc: Global,
    table: &Table,
    sys: &System,
    needed: &mut Vec<bool>,
    left: &mut u32,
) -> Result<bool, Memory> {
    let mut is_safe = true;
    for arm in table.arms.as_slice() {
        if let Some(clause) = sys.clauses().get(arm.clause) {
            if clause.head.is_none() && !ask_query(alloc, table, clause, arm, needed, left)? {
                is_safe = false;
            }
        }
    }
    Ok(is_safe)
}

/// Marks the bounds that are needed to refute the queries; whether the bounds refute each.
fn mark_needed(
    alloc: Global,
    table: &mut Table,
    sys: &System,
    needed: &mut Vec<bool>,
    left: &mut u32,
) -> Result<bool, Memory> {
    let is_safe = ask_queries(alloc, table, sys, needed, left)?;
    if is_safe {
        mark_below(alloc, table, sys, needed, left)?;
    }
    Ok(is_safe)
}

/// Whether the bounds refute the queries, and which of them are needed for that.
pub(crate) fn needs_of(
    alloc: Global,
    table: &mut Table,
    sys: &System,
    left: &mut u32,
) -> Result<Needs, Memory> {
    let mut needed = vec![in alloc; false; table.bounds.len()]?;
    let is_safe = mark_needed(alloc, table, sys, &mut needed, left)?;
    let ranks = ranks_of(alloc, table.bounds.as_slice())?;
    Ok(Needs {
        is_safe,
        needed,
        ranks,
    })
}
