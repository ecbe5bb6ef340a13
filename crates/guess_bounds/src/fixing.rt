//! Bounds are raised until each clause keeps all of them.

use crate::asking::{Answer, visit};
use base::{Items, Memory};
use clause_form::{Atom, Clause, System};
use guess_table::{
    Arm, Bound, Limit, MOST_RISES, Table, Use, are_reached, denied_at, first_of, is_kept,
    push_first, raise_at, remember, stands, unmoved,
};
use lin_atoms::Lit;
use std::alloc::Global;

/// How often all clauses are gone through.
const MOST_PASSES: u32 = 200;

/// Asks the arm for a point of the goal, which is what the bound's lemma denies. What refutes it is added.
fn ask_goal(
    alloc: Global,
    bounds: &[Bound],
    clause: &Clause,
    arm: (usize, &Arm),
    bound: (usize, &Bound),
    goal: &Items<Lit>,
    uses: &mut Vec<Use>,
    left: &mut u32,
) -> Result<Answer, Memory> {
    if let Some(one) = unmoved(alloc, clause, bound.0, bound.1, goal)? {
        uses.push(one)?;
        return Ok(Answer::Refuted);
    }
    push_first(uses, bounds, bound.1, arm.0)?;
    visit(alloc, clause, arm.1, bounds, goal.as_slice(), uses, left)
}

/// Asks the arm whether it keeps the bound. What refutes the question is added.
fn ask_of(
    alloc: Global,
    bounds: &[Bound],
    clause: &Clause,
    arm: (usize, &Arm),
    head: &Atom,
    bound: (usize, &Bound),
    uses: &mut Vec<Use>,
    left: &mut u32,
) -> Result<Answer, Memory> {
    let lemma = match &bound.1.lemma {
        Some(lemma) => lemma,
        None => return Ok(Answer::GivenUp),
    };
    match denied_at(alloc, lemma, head.args.as_slice())? {
        Some(goal) => ask_goal(alloc, bounds, clause, arm, bound, &goal, uses, left),
        None => Ok(Answer::GivenUp),
    }
}

/// Asks the arm at a place whether it keeps a bound, if it has to be asked.
fn ask_about(
    alloc: Global,
    table: &Table,
    clause: &Clause,
    number: usize,
    head: &Atom,
    at: usize,
    uses: &mut Vec<Use>,
    left: &mut u32,
) -> Result<Option<Answer>, Memory> {
    let bounds = table.bounds.as_slice();
    match (bounds.get(at), table.arms.as_slice().get(number)) {
        (Some(bound), Some(arm)) => {
            if bound.pred != head.pred || !stands(bounds, bound) || is_kept(bounds, bound, number) {
                return Ok(None);
            }
            let own = (at, bound);
            let answer = ask_of(alloc, bounds, clause, (number, arm), head, own, uses, left)?;
            Ok(Some(answer))
        }
        _ => Ok(None),
    }
}

/// What becomes of a bound that was asked for; whether something changed. What refuted the question is
/// taken.
fn taken(
    alloc: Global,
    table: &mut Table,
    number: usize,
    head: &Atom,
    at: usize,
    answer: &Answer,
    uses: &mut Vec<Use>,
) -> Result<bool, Memory> {
    match answer {
        Answer::Met(point) => {
            raise_at(alloc, table, head, point.as_slice(), Some(at))?;
            Ok(true)
        }
        Answer::Refuted => {
            if let Some(bound) = table.bounds.as_mut_slice().get_mut(at) {
                let own = std::mem::replace(uses, Vec::new(alloc));
                remember(bound, number, own)?;
            }
            Ok(false)
        }
        Answer::GivenUp => {
            if let Some(bound) = table.bounds.as_mut_slice().get_mut(at) {
                bound.put(alloc, Limit::Top)?;
            }
            Ok(true)
        }
    }
}

/// Asks the arm once about a bound; whether something changed.
fn ask_once(
    alloc: Global,
    table: &mut Table,
    clause: &Clause,
    number: usize,
    head: &Atom,
    at: usize,
    left: &mut u32,
) -> Result<bool, Memory> {
    let mut uses = Vec::new(alloc);
    match ask_about(alloc, table, clause, number, head, at, &mut uses, left)? {
        Some(answer) => taken(alloc, table, number, head, at, &answer, &mut uses),
        None => Ok(false),
    }
}

/// Asks the arm about a bound until it keeps it; whether something changed.
fn settle_one(
    alloc: Global,
    table: &mut Table,
    clause: &Clause,
    number: usize,
    head: &Atom,
    at: usize,
    left: &mut u32,
) -> Result<bool, Memory> {
    for turn in 0..MOST_RISES {
        if *left == 0 || !ask_once(alloc, table, clause, number, head, at, left)? {
            return Ok(turn > 0);
        }
    }
    Ok(true)
}

/// Asks the arm about each bound of its head; whether something changed.
fn settle_all(
    alloc: Global,
    table: &mut Table,
    clause: &Clause,
    number: usize,
    head: &Atom,
    left: &mut u32,
) -> Result<bool, Memory> {
    let mut changed = false;
    for at in first_of(table.bounds.as_slice(), head.pred)..table.bounds.len() {
        match table.bounds.as_slice().get(at) {
            Some(bound) => {
                if bound.pred != head.pred {
                    return Ok(changed);
                }
            }
            None => return Ok(changed),
        }
        if settle_one(alloc, table, clause, number, head, at, left)? {
            changed = true;
        }
    }
    Ok(changed)
}

/// Asks the arm at a place for any point.
fn ask_any(
    alloc: Global,
    table: &Table,
    clause: &Clause,
    number: usize,
    left: &mut u32,
) -> Result<Answer, Memory> {
    let bounds = table.bounds.as_slice();
    match table.arms.as_slice().get(number) {
        Some(arm) => {
            let mut uses = Vec::new(alloc);
            visit(alloc, clause, arm, bounds, &[], &mut uses, left)
        }
        None => Ok(Answer::GivenUp),
    }
}

/// Asks the arm for any tuple of its head; whether there is one.
fn reach(
    alloc: Global,
    table: &mut Table,
    clause: &Clause,
    number: usize,
    head: &Atom,
    left: &mut u32,
) -> Result<bool, Memory> {
    let answer = ask_any(alloc, table, clause, number, left)?;
    match &answer {
        Answer::Met(point) => {
            raise_at(alloc, table, head, point.as_slice(), None)?;
            Ok(true)
        }
        _ => Ok(false),
    }
}

/// Lets one arm raise the bounds of its head; whether something changed.
fn settle(
    alloc: Global,
    table: &mut Table,
    clause: &Clause,
    number: usize,
    head: &Atom,
    left: &mut u32,
) -> Result<bool, Memory> {
    if !are_reached(table.reached.as_slice(), clause.atoms.as_slice()) {
        return Ok(false);
    }
    let mut changed = false;
    if let Some(false) = table.reached.as_slice().get(head.pred as usize) {
        if !reach(alloc, table, clause, number, head, left)? {
            return Ok(false);
        }
        changed = true;
    }
    let more = settle_all(alloc, table, clause, number, head, left)?;
    Ok(changed || more)
}

fn pass_one(
    alloc: Global,
    table: &mut Table,
    sys: &System,
    number: usize,
    left: &mut u32,
) -> Result<bool, Memory> {
    let at = match table.arms.as_slice().get(number) {
        Some(arm) => arm.clause,
        None => return Ok(false),
    };
    match sys.clauses().get(at) {
        Some(clause) => match &clause.head {
            Some(head) => settle(alloc, table, clause, number, head, left),
            None => Ok(false),
        },
        None => Ok(false),
    }
}

/// Goes through all arms once; whether something changed.
fn pass(alloc: Global, table: &mut Table, sys: &System, left: &mut u32) -> Result<bool, Memory> {
    let mut changed = false;
    for number in 0..table.arms.len() {
        if pass_one(alloc, table, sys, number, left)? {
            changed = true;
        }
    }
    Ok(changed)
}

/// Raises bounds until each clause keeps all of them; whether it came to that.
pub(crate) fn fix(
    alloc: Global,
    table: &mut Table,
    sys: &System,
    left: &mut u32,
) -> Result<bool, Memory> {
    for _ in 0..MOST_PASSES {
        let changed = pass(alloc, table, sys, left)?;
        if *left == 0 {
            return Ok(false);
        }
        if !changed {
            return Ok(true);
        }
    }
    Ok(false)
}
