//! A refutation of a formula and lemmas, with the numbers that its literals and disjunctions have where the
//! lemmas that it doesn't use are left out.

use crate::uses::Uses;
use base::{Boxed, Copied, Items, Memory};
use refutation_trees::Refutation;
use std::alloc::Global;

/// How many literals and disjunctions go.
#[derive(Drop)]
struct Gone {
    /// For each literal of the flattened formula, and for what comes behind, how many before it go.
    lits: Vec<u32>,
    /// For each disjunction of the flattened formula, and for what comes behind, how many before it go.
    cases: Vec<u32>,
    /// How many nodes with cases were met.
    met: usize,
}

/// For each number, and for what comes behind all, how many before it have an owner that isn't used.
fn gone_before(alloc: Global, owners: &[usize], used: &[bool]) -> Result<Vec<u32>, Memory> {
    let mut gone: u32 = 0;
    let mut before = Vec::new(alloc);
    for owner in owners {
        before.push(gone)?;
        gone = gone.saturating_add(counted(*owner, used));
    }
    before.push(gone)?;
    Ok(before)
}

/// 1 for an owner that isn't used.
fn counted(owner: usize, used: &[bool]) -> u32 {
    match used.get(owner) {
        Some(false) => 1,
        _ => 0,
    }
}

/// The number less those that go before it, or before what comes at `place`.
fn moved(number: u32, place: usize, gone: &[u32]) -> u32 {
    let last = gone.len().saturating_sub(1);
    match gone.get(place.min(last)) {
        Some(before) => number.saturating_sub(*before),
        None => number,
    }
}

/// Multipliers with the new numbers of their literals.
fn combination(
    alloc: Global,
    gone: &Gone,
    multipliers: &[(u32, i64)],
) -> Result<Items<(u32, i64)>, Memory> {
    let mut made = Vec::with_capacity(alloc, multipliers.len())?;
    for (number, multiplier) in multipliers {
        let number = moved(*number, *number as usize, gone.lits.as_slice());
        made.push((number, *multiplier))?;
    }
    Ok(Items::from_vec(made))
}

/// The new number of the disjunction that the next node with cases splits. Those that go are never split, so
/// as many of them are before it as at first.
fn next_split(gone: &mut Gone, uses: &Uses, which: u32) -> u32 {
    match uses.splits.get(gone.met) {
        Some(number) => {
            gone.met = gone.met.saturating_add(1);
            moved(which, *number, gone.cases.as_slice())
        }
        None => which,
    }
}

#[cycle(tree)]
fn tree_of(
    alloc: Global,
    gone: &mut Gone,
    uses: &Uses,
    tree: &Refutation,
) -> Result<Refutation, Memory> {
    match tree {
        Refutation::Leaf { multipliers } => {
            let multipliers = combination(alloc, gone, multipliers.as_slice())?;
            Ok(Refutation::Leaf { multipliers })
        }
        Refutation::Round {
            multipliers,
            divisor,
            sub,
        } => {
            let multipliers = combination(alloc, gone, multipliers.as_slice())?;
            let sub = Boxed::new(alloc, tree_of(alloc, gone, uses, sub.get())?)?;
            Ok(Refutation::Round {
                multipliers,
                divisor: *divisor,
                sub,
            })
        }
        Refutation::Split { lin, below, above } => {
            let lin = lin.copy(alloc)?;
            let below = Boxed::new(alloc, tree_of(alloc, gone, uses, below.get())?)?;
            let above = Boxed::new(alloc, tree_of(alloc, gone, uses, above.get())?)?;
            Ok(Refutation::Split { lin, below, above })
        }
        Refutation::Cases { which, subs } => {
            let which = next_split(gone, uses, *which);
            let subs = trees_of(alloc, gone, uses, subs.as_slice())?;
            Ok(Refutation::Cases { which, subs })
        }
        Refutation::Quotient { lit, sub } => {
            let lit = moved(*lit, *lit as usize, gone.lits.as_slice());
            let sub = Boxed::new(alloc, tree_of(alloc, gone, uses, sub.get())?)?;
            Ok(Refutation::Quotient { lit, sub })
        }
    }
}

#[cycle(tree)]
fn trees_of(
    alloc: Global,
    gone: &mut Gone,
    uses: &Uses,
    subs: &[Refutation],
) -> Result<Items<Refutation>, Memory> {
    let mut made = Items::new(alloc);
    for sub in subs {
        made.push(tree_of(alloc, gone, uses, sub)?)?;
    }
    Ok(made)
}

/// The tree with the new numbers. The variables of quotients keep theirs: where the greatest variable of the
/// formula goes too, a tree that splits on a quotient isn't one of what is left.
pub(crate) fn renumbered(
    alloc: Global,
    uses: &Uses,
    tree: &Refutation,
) -> Result<Refutation, Memory> {
    let owners = uses.owners.as_slice();
    let mut gone = Gone {
        lits: gone_before(alloc, uses.lits.as_slice(), owners)?,
        cases: gone_before(alloc, uses.cases.as_slice(), owners)?,
        met: 0,
    };
    tree_of(alloc, &mut gone, uses, tree)
}
