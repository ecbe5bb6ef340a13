//! Tuples that were met.

use base::Memory;
use clause_form::Atom;
use cube_forms::Tuple;
use std::alloc::Global;

/// How many tuples are met.
pub const MOST_MET: usize = 160;

/// A tuple of a predicate.
pub struct Met {
    pub pred: u32,
    pub tuple: Vec<i64>,
    /// By how many steps it was met, at most; 1 where a clause without body atoms gave it.
    pub depth: i64,
    /// Whether clauses were asked for what follows from it.
    pub is_followed: bool,
}

impl Drop for Met {
    fn drop(self) {
        let Met {
            pred: _,
            tuple: _,
            depth: _,
            is_followed: _,
        } = self;
    }
}

/// What was met by running clauses forward.
#[derive(Drop)]
pub struct Walk {
    pub met: Vec<Met>,
    /// Whether false follows from one of these tuples.
    pub is_broken: bool,
}

impl Walk {
    /// The first ones that were met.
    pub fn first(&self) -> &[Met] {
        let all = self.met.as_slice();
        if all.len() <= MOST_MET {
            return all;
        }
        &all[..MOST_MET]
    }
}

fn has(met: &[Met], pred: u32, tuple: &[i64]) -> bool {
    for one in met {
        if one.pred == pred && one.tuple.as_slice() == tuple {
            return true;
        }
    }
    false
}

/// The number of steps by which what follows from a tuple is met.
fn depth_from(met: &[Met], from: Option<usize>) -> i64 {
    match from {
        Some(at) => match met.get(at) {
            Some(one) => one.depth.saturating_add(1),
            None => 1,
        },
        None => 1,
    }
}

/// Adds the tuple, unless it was met.
fn take(
    alloc: Global,
    met: &mut Vec<Met>,
    pred: u32,
    tuple: &[i64],
    from: Option<usize>,
) -> Result<(), Memory> {
    if has(met.as_slice(), pred, tuple) {
        return Ok(());
    }
    let depth = depth_from(met.as_slice(), from);
    let tuple = Vec::from_slice(alloc, tuple)?;
    met.push(Met {
        pred,
        tuple,
        depth,
        is_followed: false,
    })?;
    Ok(())
}

/// Takes the head's tuple at the point in, which follows from one that was met.
pub fn meet(
    alloc: Global,
    met: &mut Vec<Met>,
    head: &Atom,
    point: &[i64],
    from: Option<usize>,
) -> Result<(), Memory> {
    let tuple = Tuple::at(alloc, point, head.args.as_slice())?;
    take(alloc, met, head.pred, tuple.as_slice(), from)
}
