//! What follows from a tuple by a clause with at most one body atom.

use crate::asking::point_of;
use base::Memory;
use clause_form::{Atom, Clause, System};
use guess_table::{Arm, Met, meet, push_least, successor_goal};
use lin_atoms::Lit;
use std::alloc::Global;

/// Of how many places a far tuple is asked for.
const MOST_FAR: usize = 10;

/// How great the first place of a far tuple is at least.
const FAR: usize = 9;

/// Meets a tuple at which the variable is great, too, as far as the goal lets it be.
fn meet_at_least(
    alloc: Global,
    clause: &Clause,
    arm: &Arm,
    head: &Atom,
    goal: &mut Vec<Lit>,
    term: (u32, usize),
    met: &mut Vec<Met>,
    left: &mut u32,
) -> Result<(), Memory> {
    let count = goal.len();
    push_least(alloc, goal, term.0, term.1)?;
    match point_of(alloc, clause, arm, goal.as_slice(), left)? {
        Some(point) => meet(alloc, met, head, point.as_slice(), None),
        None => {
            goal.truncate(count);
            Ok(())
        }
    }
}

/// Meets a tuple of a clause without body atoms whose places are great, each by itself, as far as they can
/// be together: from one whose limits are 0 nothing much follows.
fn meet_far(
    alloc: Global,
    clause: &Clause,
    arm: &Arm,
    head: &Atom,
    met: &mut Vec<Met>,
    left: &mut u32,
) -> Result<(), Memory> {
    if head.args.len() > MOST_FAR {
        return Ok(());
    }
    let mut goal = Vec::new(alloc);
    for (place, variable) in head.args.as_slice().iter().enumerate() {
        let least = place.saturating_mul(2).saturating_add(FAR);
        let term = (*variable, least);
        meet_at_least(alloc, clause, arm, head, &mut goal, term, met, left)?;
    }
    Ok(())
}

/// A point of the arm that follows, if one is found.
fn follow_by(
    alloc: Global,
    clause: &Clause,
    arm: &Arm,
    from: Option<&Met>,
    left: &mut u32,
) -> Result<Option<Vec<i64>>, Memory> {
    match successor_goal(alloc, clause, arm, from)? {
        Some(goal) => point_of(alloc, clause, arm, goal.as_slice(), left),
        None => Ok(None),
    }
}

/// Meets the head's tuple at the point, and far ones, where it follows from none.
fn meet_more(
    alloc: Global,
    clause: &Clause,
    arm: &Arm,
    head: &Atom,
    met: &mut Vec<Met>,
    point: &[i64],
    from: Option<usize>,
    left: &mut u32,
) -> Result<(), Memory> {
    meet(alloc, met, head, point, from)?;
    if from.is_none() {
        meet_far(alloc, clause, arm, head, met, left)?;
    }
    Ok(())
}

/// Asks one arm for a tuple that follows; whether false does.
fn follow_arm(
    alloc: Global,
    arm: &Arm,
    sys: &System,
    met: &mut Vec<Met>,
    from: Option<usize>,
    left: &mut u32,
) -> Result<bool, Memory> {
    let clause = match sys.clauses().get(arm.clause) {
        Some(clause) => clause,
        None => return Ok(false),
    };
    let one = match from {
        Some(at) => met.as_slice().get(at),
        None => None,
    };
    match &clause.head {
        Some(head) => {
            if let Some(point) = follow_by(alloc, clause, arm, one, left)? {
                meet_more(alloc, clause, arm, head, met, point.as_slice(), from, left)?;
            }
            Ok(false)
        }
        None => {
            // What rules may ask isn't spent on queries.
            let mut own = *left;
            let found = follow_by(alloc, clause, arm, one, &mut own)?;
            Ok(found.is_some())
        }
    }
}

/// Asks each arm for a tuple that follows; whether false does.
pub(crate) fn follow(
    alloc: Global,
    arms: &[Arm],
    sys: &System,
    met: &mut Vec<Met>,
    from: Option<usize>,
    left: &mut u32,
) -> Result<bool, Memory> {
    for arm in arms {
        if *left > 0 && follow_arm(alloc, arm, sys, met, from, left)? {
            return Ok(true);
        }
    }
    Ok(false)
}
