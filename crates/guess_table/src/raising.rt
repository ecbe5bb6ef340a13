//! Bounds rise by tuples that break them.

use crate::bound::{Bound, Limit, first_of};
use crate::conditions::thresholds;
use crate::met::Met;
use crate::needs::is_marked;
use crate::table::{About, Table};
use base::Memory;
use clause_form::Atom;
use cube_forms::Tuple;
use std::alloc::Global;

/// From which rise on a bound goes to a threshold.
const TO_THRESHOLDS: u32 = 4;

/// The rise at which a bound is given up.
pub const MOST_RISES: u32 = 30;

/// Whether a tuple of each atom's predicate was met.
pub fn are_reached(reached: &[bool], atoms: &[Atom]) -> bool {
    for atom in atoms {
        if !is_marked(reached, atom.pred as usize) {
            return false;
        }
    }
    true
}

/// The least of the thresholds that isn't below the value.
fn least_from(thresholds: &[i64], value: i64) -> Option<i64> {
    let mut least = None;
    for threshold in thresholds {
        if *threshold >= value {
            least = match least {
                Some(other) => {
                    if *threshold < other {
                        Some(*threshold)
                    } else {
                        Some(other)
                    }
                }
                None => Some(*threshold),
            };
        }
    }
    least
}

/// The limit of a bound that was asked for, after one more rise.
fn risen(
    alloc: Global,
    about: &[About],
    bound: &Bound,
    wanted: Limit,
    rises: u32,
) -> Result<Limit, Memory> {
    let value = match wanted {
        Limit::At(value) => value,
        other => return Ok(other),
    };
    if rises < TO_THRESHOLDS {
        return Ok(wanted);
    }
    if rises >= MOST_RISES {
        return Ok(Limit::Top);
    }
    match about.get(bound.pred as usize) {
        Some(about) => {
            let near = thresholds(alloc, about.guarded.as_slice(), &bound.part)?;
            match least_from(near.as_slice(), value) {
                Some(limit) => Ok(Limit::At(limit)),
                None => Ok(Limit::Top),
            }
        }
        None => Ok(Limit::Top),
    }
}

/// Raises one bound, if the tuple breaks it.
fn raise_one(
    alloc: Global,
    about: &[About],
    bound: &mut Bound,
    tuple: &[i64],
    is_asked: bool,
) -> Result<(), Memory> {
    let wanted = match bound.wanted(tuple) {
        Some(wanted) => wanted,
        None => return Ok(()),
    };
    if !is_asked {
        return bound.put(alloc, wanted);
    }
    let rises = bound.rises.saturating_add(1);
    bound.rises = rises;
    let limit = risen(alloc, about, bound, wanted, rises)?;
    bound.put(alloc, limit)
}

/// Raises all bounds of the predicate that the tuple breaks.
fn raise(
    alloc: Global,
    table: &mut Table,
    pred: u32,
    tuple: &[i64],
    asked: Option<usize>,
) -> Result<(), Memory> {
    if let Some(place) = table.reached.as_mut_slice().get_mut(pred as usize) {
        *place = true;
    }
    let about = table.about.as_slice();
    let first = first_of(table.bounds.as_slice(), pred);
    for at in first..table.bounds.len() {
        match table.bounds.as_mut_slice().get_mut(at) {
            Some(bound) => {
                if bound.pred != pred {
                    return Ok(());
                }
                raise_one(alloc, about, bound, tuple, asked == Some(at))?;
            }
            None => return Ok(()),
        }
    }
    Ok(())
}

/// Raises the bounds of the head's predicate that its tuple at the point breaks.
pub fn raise_at(
    alloc: Global,
    table: &mut Table,
    head: &Atom,
    point: &[i64],
    asked: Option<usize>,
) -> Result<(), Memory> {
    let tuple = Tuple::at(alloc, point, head.args.as_slice())?;
    raise(alloc, table, head.pred, tuple.as_slice(), asked)
}

/// Raises the bounds by the tuples that were met.
pub fn raise_by(alloc: Global, table: &mut Table, met: &[Met]) -> Result<(), Memory> {
    for one in met {
        raise(alloc, table, one.pred, one.tuple.as_slice(), None)?;
    }
    Ok(())
}
