//! For `bench/refutation.sh`: the checker of refutations, and a walk that only counts their nodes.

use base::{Boxed, Items, Memory};
use farkas_proof::check;
use lin_atoms::{Form, Lin, Lit};
use refutation_trees::Refutation;
use std::alloc::Global;

/// How many literals the form has.
const LITERALS: u32 = 200;

/// How many splits lie over one another.
const DEPTH: u32 = 11;

/// The difference of two neighbours and a constant are at most 0.
fn at_most(alloc: Global, variable: u32, sign: i64, constant: i128) -> Result<Form, Memory> {
    let mut terms = Vec::with_capacity(alloc, 2)?;
    terms.push((variable, sign))?;
    terms.push((variable.wrapping_add(1), sign.wrapping_neg()))?;
    match Lin::new(terms, constant) {
        Ok(lin) => Ok(Form::Lit(Lit::Le(lin))),
        Err(_) => Ok(Form::False),
    }
}

/// The first two literals have no common point.
fn form(alloc: Global) -> Result<Form, Memory> {
    let mut parts = Items::new(alloc);
    parts.push(at_most(alloc, 0, 1, 1)?)?;
    parts.push(at_most(alloc, 0, -1, 0)?)?;
    for literal in 2..LITERALS {
        parts.push(at_most(alloc, literal, 2, 1)?)?;
    }
    Ok(Form::And(parts))
}

fn leaf(alloc: Global) -> Result<Refutation, Memory> {
    Ok(Refutation::Leaf {
        multipliers: Items::from_slice(alloc, &[(0, 1), (1, 1)])?,
    })
}

fn round(alloc: Global, literal: u32, sub: Refutation) -> Result<Refutation, Memory> {
    Ok(Refutation::Round {
        multipliers: Items::from_slice(alloc, &[(0, 2), (literal, 1)])?,
        divisor: 2,
        sub: Boxed::new(alloc, sub)?,
    })
}

/// Four roundings over a leaf.
fn end(alloc: Global, seed: u32) -> Result<Refutation, Memory> {
    let mut tree = leaf(alloc)?;
    for step in 0..4u32 {
        let literal = seed.wrapping_mul(7).wrapping_add(step.wrapping_mul(31)) % 198;
        tree = round(alloc, literal + 2, tree)?;
    }
    Ok(tree)
}

/// Splits so deep, with an end under each.
fn tree(alloc: Global, depth: u32, seed: u32) -> Result<Refutation, Memory> {
    if depth == 0 {
        return end(alloc, seed);
    }
    let below = tree(alloc, depth - 1, seed.wrapping_mul(2))?;
    let above = tree(alloc, depth - 1, seed.wrapping_mul(2).wrapping_add(1))?;
    Ok(Refutation::Split {
        lin: Lin::of_constant(alloc, 0),
        below: Boxed::new(alloc, below)?,
        above: Boxed::new(alloc, above)?,
    })
}

/// The number of nodes, added to a number: so no two counts of a tree are the same work.
#[cycle(count)]
fn count(tree: &Refutation, before: u64) -> u64 {
    let total = before.wrapping_add(1);
    match tree {
        Refutation::Leaf { .. } => total,
        Refutation::Round { sub, .. } => count(sub.get(), total),
        Refutation::Split { below, above, .. } => count(above.get(), count(below.get(), total)),
        Refutation::Cases { subs, .. } => count_all(subs.as_slice(), total),
        Refutation::Quotient { sub, .. } => count(sub.get(), total),
    }
}

#[cycle(count)]
fn count_all(subs: &[Refutation], before: u64) -> u64 {
    let mut total = before;
    for sub in subs {
        total = count(sub, total);
    }
    total
}

fn counted(alloc: Global, times: u32) -> Result<u64, Memory> {
    let tree = tree(alloc, DEPTH, 1)?;
    let mut total: u64 = 0;
    for _time in 0..times {
        total = count(&tree, total);
    }
    Ok(total)
}

fn checked(alloc: Global, times: u32) -> Result<u64, Memory> {
    let form = form(alloc)?;
    let tree = tree(alloc, DEPTH, 1)?;
    let mut total: u64 = 0;
    for _time in 0..times {
        if check(alloc, &form, &tree).is_ok() {
            total = total.wrapping_add(1);
        }
    }
    Ok(total)
}

/// The nodes of a tree, added up `times` times; 0 for want of memory.
#[unsafe(no_mangle)]
pub extern "C" fn farkas_proof_counted(alloc: Global, times: u32) -> u64 {
    match counted(alloc, times) {
        Ok(total) => total,
        Err(_) => 0,
    }
}

/// How often a tree was taken as a proof, out of `times` times; 0 for want of memory.
#[unsafe(no_mangle)]
pub extern "C" fn farkas_proof_checked(alloc: Global, times: u32) -> u64 {
    match checked(alloc, times) {
        Ok(total) => total,
        Err(_) => 0,
    }
}
