//! Which bounds are needed, and on how many others each one rests.

use crate::bound::{Bound, Memo, Use};
use base::Memory;
use std::alloc::Global;

/// The rank of what rests on itself.
pub(crate) const MOST_RANK: u32 = 20;

/// What is needed.
#[derive(Drop)]
pub struct Needs {
    /// Whether the bounds refute each query.
    pub is_safe: bool,
    /// Whether each bound is needed for that.
    pub needed: Vec<bool>,
    /// How many bounds each one rests on, one on another.
    pub ranks: Vec<u32>,
}

/// Marks the bound at a place; whether it is there and wasn't marked.
pub fn mark(needed: &mut Vec<bool>, at: usize) -> bool {
    if at >= needed.len() {
        return false;
    }
    let is_new = !needed[at];
    needed[at] = true;
    is_new
}

/// Marks the bounds in use; whether one is new.
pub fn mark_uses(needed: &mut Vec<bool>, uses: &[Use]) -> bool {
    let mut changed = false;
    for one in uses {
        changed |= mark(needed, one.bound);
    }
    changed
}

/// Marks what the bound rests on; whether something is new.
pub fn mark_memos(needed: &mut Vec<bool>, memos: &[Memo]) -> bool {
    let mut changed = false;
    for memo in memos {
        changed |= mark_uses(needed, memo.uses.as_slice());
    }
    changed
}

/// Whether the bound at a place is there and marked.
pub fn is_marked(needed: &[bool], at: usize) -> bool {
    match needed.get(at) {
        Some(true) => true,
        _ => false,
    }
}

fn rank_at(ranks: &[u32], at: usize) -> u32 {
    match ranks.get(at) {
        Some(rank) => *rank,
        None => 0,
    }
}

/// One more than the greatest rank of the other bounds in use.
fn rank_above(ranks: &[u32], own: usize, uses: &[Use]) -> u32 {
    let mut rank = 0;
    for one in uses {
        if one.bound != own {
            rank = rank_at(ranks, one.bound).saturating_add(1).max(rank);
        }
    }
    rank.min(MOST_RANK)
}

fn rank_of(ranks: &[u32], own: usize, memos: &[Memo]) -> u32 {
    let mut rank = 0;
    for memo in memos {
        rank = rank_above(ranks, own, memo.uses.as_slice()).max(rank);
    }
    rank
}

/// The ranks, of those before.
fn next_ranks(alloc: Global, ranks: &[u32], bounds: &[Bound]) -> Result<Vec<u32>, Memory> {
    let mut made = Vec::new(alloc);
    for (at, bound) in bounds.iter().enumerate() {
        made.push(rank_of(ranks, at, bound.memos.as_slice()))?;
    }
    Ok(made)
}

/// The rank of each bound.
pub fn ranks_of(alloc: Global, bounds: &[Bound]) -> Result<Vec<u32>, Memory> {
    let mut ranks = Vec::new(alloc);
    for _ in 0..MOST_RANK {
        ranks = next_ranks(alloc, ranks.as_slice(), bounds)?;
    }
    Ok(ranks)
}
