//! Tuples that are met by running clauses forward, before bounds are asked for: each is a tuple of its
//! predicate, so bounds rise by it as far as they have to, and most needn't be asked for to rise.

use crate::following::follow;
use base::Memory;
use clause_form::System;
use clause_index::IndexedSystem;
use guess_table::{Arm, MOST_MET, Met, Walk, arms_of};
use std::alloc::Global;

/// How much work is spent on tuples with several successors.
const MOST_WORK: u32 = 640;

/// How many are met where each has one successor at most, so that a long way is soon gone.
const MOST_IN_CHAIN: usize = 400;

/// How much work is spent on that.
const CHAIN_WORK: u32 = 1_600;

/// How many tuples wait at most where each has one successor at most: the start, and one that is far.
const WAITING: usize = 2;

/// The first tuple from which nothing was followed yet, or the last.
fn next(met: &[Met], is_last: bool) -> Option<usize> {
    let mut found = None;
    for (at, one) in met.iter().enumerate() {
        if !one.is_followed && (is_last || found.is_none()) {
            found = Some(at);
        }
    }
    found
}

/// Whether few tuples wait for their successors.
fn is_chain(met: &[Met]) -> bool {
    let mut waiting: usize = 0;
    for one in met {
        if !one.is_followed {
            waiting = waiting.saturating_add(1);
        }
    }
    waiting <= WAITING
}

/// Whether tuples enough were met, or work enough was spent.
fn is_enough(met: &[Met], left: u32) -> bool {
    if is_chain(met) {
        left == 0 || met.len() >= MOST_IN_CHAIN
    } else {
        left <= CHAIN_WORK.saturating_sub(MOST_WORK) || met.len() >= MOST_MET
    }
}

fn mark(met: &mut Vec<Met>, at: usize) {
    if let Some(one) = met.as_mut_slice().get_mut(at) {
        one.is_followed = true;
    }
}

/// Runs clauses with at most one body atom forward, from the last tuple and from the first in turns;
/// whether false follows from one of the tuples that are met.
fn run(
    alloc: Global,
    arms: &[Arm],
    sys: &System,
    met: &mut Vec<Met>,
    left: &mut u32,
) -> Result<bool, Memory> {
    follow(alloc, arms, sys, met, None, left)?;
    for turn in 0..MOST_IN_CHAIN {
        if is_enough(met.as_slice(), *left) {
            return Ok(false);
        }
        match next(met.as_slice(), turn % 4 != 3) {
            Some(at) => {
                mark(met, at);
                if follow(alloc, arms, sys, met, Some(at), left)? {
                    return Ok(true);
                }
            }
            None => return Ok(false),
        }
    }
    Ok(false)
}

/// Runs the system's clauses forward, unless there are too many ways through them; whether false follows
/// from one of the tuples that are met.
fn run_all(alloc: Global, indexed: &IndexedSystem, met: &mut Vec<Met>) -> Result<bool, Memory> {
    let mut left = CHAIN_WORK;
    match arms_of(alloc, indexed)? {
        Some(arms) => run(alloc, arms.as_slice(), indexed.plain(), met, &mut left),
        None => Ok(false),
    }
}

/// The tuples that are met by running clauses with at most one body atom forward; none where the system has
/// too many ways through its clauses.
pub fn walked(alloc: Global, indexed: &IndexedSystem) -> Result<Walk, Memory> {
    let mut met = Vec::new(alloc);
    let is_broken = run_all(alloc, indexed, &mut met)?;
    Ok(Walk { met, is_broken })
}
