//! What the arm of a clause with at most one body atom is asked for: what follows from a tuple.

use crate::arms::Arm;
use crate::forms::lin_of;
use crate::met::Met;
use base::Memory;
use clause_form::{Atom, Clause};
use lin_atoms::{Lin, Lit};
use std::alloc::Global;

/// A form of one variable, where its numbers have room.
fn form_of(
    alloc: Global,
    variable: u32,
    coefficient: i64,
    constant: i128,
) -> Result<Option<Lin>, Memory> {
    let mut terms = Vec::new(alloc);
    terms.push((variable, coefficient))?;
    match Lin::new(terms, constant) {
        Ok(lin) => Ok(Some(lin)),
        Err(_) => Ok(None),
    }
}

/// Adds to the goal that the variable is at least so much; nothing where the form has no room.
pub fn push_least(
    alloc: Global,
    goal: &mut Vec<Lit>,
    variable: u32,
    least: usize,
) -> Result<(), Memory> {
    match form_of(alloc, variable, -1, least as i128)? {
        Some(lin) => {
            goal.push(Lit::Le(lin))?;
            Ok(())
        }
        None => Ok(()),
    }
}

/// Adds that the variable has this value; nothing where the form has no room.
fn push_value(alloc: Global, lits: &mut Vec<Lit>, variable: u32, value: i64) -> Result<(), Memory> {
    let less = i128::from(value).saturating_neg();
    if let Some(lin) = form_of(alloc, variable, 1, less)? {
        lits.push(Lit::Eq(lin))?;
    }
    Ok(())
}

/// The equations of the atom's arguments and the values of the tuple, as far as each has room.
fn equations(alloc: Global, atom: &Atom, tuple: &[i64]) -> Result<Vec<Lit>, Memory> {
    let mut lits = Vec::new(alloc);
    for (place, variable) in atom.args.as_slice().iter().enumerate() {
        if let Some(value) = tuple.get(place) {
            push_value(alloc, &mut lits, *variable, *value)?;
        }
    }
    Ok(lits)
}

/// The body atom of a clause that has one alone, if it is of the predicate.
fn only_atom(clause: &Clause, pred: u32) -> Option<&Atom> {
    match clause.atoms.as_slice() {
        [atom] => { if atom.pred == pred { Some(atom) } else { None } }
        _ => None,
    }
}

/// What variables stand for, as far as a body atom's tuple says so.
#[derive(Drop)]
struct Seen {
    values: Vec<i64>,
    are_known: Vec<bool>,
}

/// Nothing is known of so many variables.
fn unseen(alloc: Global, count: usize) -> Result<Seen, Memory> {
    let values = vec![in alloc; 0; count]?;
    let are_known = vec![in alloc; false; count]?;
    Ok(Seen { values, are_known })
}

/// Takes in that the variable has this value.
fn see(seen: &mut Seen, variable: u32, value: i64) {
    let at = variable as usize;
    if let Some(own) = seen.values.as_mut_slice().get_mut(at) {
        *own = value;
    }
    if let Some(known) = seen.are_known.as_mut_slice().get_mut(at) {
        *known = true;
    }
}

/// What the atom's arguments stand for where this is its tuple.
fn seen_at(alloc: Global, clause: &Clause, atom: &Atom, tuple: &[i64]) -> Result<Seen, Memory> {
    let mut seen = unseen(alloc, clause.sorts.len())?;
    for (place, variable) in atom.args.as_slice().iter().enumerate() {
        if let Some(value) = tuple.get(place) {
            see(&mut seen, *variable, *value);
        }
    }
    Ok(seen)
}

/// Whether the literal is false by what is known of variables.
fn is_false(seen: &Seen, lit: &Lit) -> bool {
    for (variable, _) in lin_of(lit).terms() {
        match seen.are_known.as_slice().get(*variable as usize) {
            Some(true) => {}
            _ => return false,
        }
    }
    !lit.holds(seen.values.as_slice())
}

/// Whether one of the literals is false by what is known of variables.
fn has_false(seen: &Seen, lits: &[Lit]) -> bool {
    for lit in lits {
        if is_false(seen, lit) {
            return true;
        }
    }
    false
}

/// Whether a literal of the arm is false where the atom's tuple is this, so that the arm needn't be asked.
fn is_closed(
    alloc: Global,
    clause: &Clause,
    arm: &Arm,
    atom: &Atom,
    tuple: &[i64],
) -> Result<bool, Memory> {
    let seen = seen_at(alloc, clause, atom, tuple)?;
    Ok(has_false(&seen, arm.lits.as_slice()))
}

/// The equations by which the atom has this tuple; none where a literal of the arm is false then.
fn goal_at(
    alloc: Global,
    clause: &Clause,
    arm: &Arm,
    atom: &Atom,
    tuple: &[i64],
) -> Result<Option<Vec<Lit>>, Memory> {
    if is_closed(alloc, clause, arm, atom, tuple)? {
        return Ok(None);
    }
    Ok(Some(equations(alloc, atom, tuple)?))
}

/// What the arm is asked for: any tuple of a clause without body atoms, or one that follows from this.
pub fn successor_goal(
    alloc: Global,
    clause: &Clause,
    arm: &Arm,
    from: Option<&Met>,
) -> Result<Option<Vec<Lit>>, Memory> {
    match from {
        Some(one) => match only_atom(clause, one.pred) {
            Some(atom) => goal_at(alloc, clause, arm, atom, one.tuple.as_slice()),
            None => Ok(None),
        },
        None => {
            if clause.atoms.len() > 0 {
                return Ok(None);
            }
            Ok(Some(Vec::new(alloc)))
        }
    }
}
