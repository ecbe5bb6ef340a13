//! The ways through a clause's guard: lists of literals.

use crate::forms::copied;
use base::{Copied, Memory};
use clause_index::{FlatGuard, IndexedSystem};
use lin_atoms::{Form, Lit};
use std::alloc::Global;

/// How many ways through a disjunction are told apart; of one with more nothing is known.
const MOST_WAYS: usize = 16;

/// How many ways there are in all; systems with more have no bounds.
const MOST_ARMS: usize = 400;

/// How many literals a way has.
const MOST_LITS: usize = 200;

/// Literals that hold together.
#[derive(Drop)]
pub(crate) struct Way {
    pub(crate) lits: Vec<Lit>,
}

/// One way through a clause.
#[derive(Drop)]
pub struct Arm {
    /// The clause's place.
    pub clause: usize,
    pub lits: Vec<Lit>,
}

/// Adds the way of these literals.
pub(crate) fn push_way(alloc: Global, ways: &mut Vec<Way>, lits: &[Lit]) -> Result<(), Memory> {
    let lits = copied(alloc, lits)?;
    ways.push(Way { lits })?;
    Ok(())
}

fn copies(alloc: Global, ways: &[Way]) -> Result<Vec<Way>, Memory> {
    let mut made = Vec::new(alloc);
    for way in ways {
        push_way(alloc, &mut made, way.lits.as_slice())?;
    }
    Ok(made)
}

/// Adds the literal to each way.
fn add_lit(alloc: Global, ways: &mut Vec<Way>, lit: &Lit) -> Result<(), Memory> {
    for way in ways.iter_mut() {
        way.lits.push(lit.copy(alloc)?)?;
    }
    Ok(())
}

/// How many ways so many ways through the formula as well are.
#[cycle(counted)]
fn counted(form: &Form, ways: usize) -> usize {
    match form {
        Form::True => ways,
        Form::False => 0,
        Form::Lit(_) => ways,
        Form::And(parts) => all_counted(parts.as_slice(), ways),
        Form::Or(parts) => any_counted(parts.as_slice(), ways).unwrap_or(ways),
    }
}

#[cycle(counted)]
fn all_counted(parts: &[Form], ways: usize) -> usize {
    let mut ways = ways;
    for part in parts {
        ways = counted(part, ways);
    }
    ways
}

/// Nothing where they are too many to be told apart.
#[cycle(counted)]
fn any_counted(parts: &[Form], ways: usize) -> Option<usize> {
    let mut count: usize = 0;
    for part in parts {
        count = count.saturating_add(counted(part, ways));
        if count > MOST_WAYS {
            return None;
        }
    }
    Some(count)
}

/// Makes the ways so far those through the formula as well.
#[cycle(expand)]
fn expand(alloc: Global, form: &Form, ways: &mut Vec<Way>) -> Result<(), Memory> {
    match form {
        Form::True => Ok(()),
        Form::False => {
            *ways = Vec::new(alloc);
            Ok(())
        }
        Form::Lit(lit) => add_lit(alloc, ways, lit),
        Form::And(parts) => expand_all(alloc, parts.as_slice(), ways),
        Form::Or(parts) => expand_any(alloc, parts.as_slice(), ways),
    }
}

#[cycle(expand)]
fn expand_all(alloc: Global, parts: &[Form], ways: &mut Vec<Way>) -> Result<(), Memory> {
    for part in parts {
        expand(alloc, part, ways)?;
    }
    Ok(())
}

#[cycle(expand)]
fn expand_any(alloc: Global, parts: &[Form], ways: &mut Vec<Way>) -> Result<(), Memory> {
    if any_counted(parts, ways.len()).is_none() {
        return Ok(());
    }
    let mut made = Vec::new(alloc);
    push_each(alloc, parts, ways.as_slice(), &mut made)?;
    *ways = made;
    Ok(())
}

/// Adds the ways through each of the parts.
#[cycle(expand)]
fn push_each(
    alloc: Global,
    parts: &[Form],
    ways: &[Way],
    made: &mut Vec<Way>,
) -> Result<(), Memory> {
    for part in parts {
        let mut own = copies(alloc, ways)?;
        expand(alloc, part, &mut own)?;
        made.append(&mut own)?;
    }
    Ok(())
}

/// The guard's literals.
fn literals(alloc: Global, guard: &FlatGuard) -> Result<Vec<Lit>, Memory> {
    let mut lits = Vec::with_capacity(alloc, guard.lits_len())?;
    for number in 0..guard.lits_len() {
        lits.push(guard.lit(number).copy(alloc)?)?;
    }
    Ok(lits)
}

/// Makes the ways so far those through one part of each of the guard's disjunctions as well.
fn expand_cases(alloc: Global, guard: &FlatGuard, made: &mut Vec<Way>) -> Result<(), Memory> {
    for number in 0..guard.cases_len() {
        expand_any(alloc, guard.case(number), made)?;
    }
    Ok(())
}

/// The ways through a guard: its literals, and one part of each disjunction.
fn ways(alloc: Global, guard: &FlatGuard) -> Result<Vec<Way>, Memory> {
    let lits = literals(alloc, guard)?;
    let mut made = Vec::new(alloc);
    made.push(Way { lits })?;
    expand_cases(alloc, guard, &mut made)?;
    Ok(made)
}

/// How many there are.
fn count_of(guard: &FlatGuard) -> usize {
    let mut count: usize = 1;
    for number in 0..guard.cases_len() {
        count = any_counted(guard.case(number), count).unwrap_or(count);
    }
    count
}

/// Whether none of the ways is too long.
fn are_short(ways: &[Way]) -> bool {
    for way in ways {
        if way.lits.len() > MOST_LITS {
            return false;
        }
    }
    true
}

/// Adds the ways of a clause; whether none is too long.
fn push_arms(
    alloc: Global,
    arms: &mut Vec<Arm>,
    number: usize,
    guard: &FlatGuard,
) -> Result<bool, Memory> {
    let ways = ways(alloc, guard)?;
    if !are_short(ways.as_slice()) {
        return Ok(false);
    }
    for way in ways {
        arms.push(Arm {
            clause: number,
            lits: way.lits,
        })?;
    }
    Ok(true)
}

/// Adds the ways of all clauses; whether none is too long.
fn push_all(alloc: Global, arms: &mut Vec<Arm>, sys: &IndexedSystem) -> Result<bool, Memory> {
    for number in 0..sys.clauses().len() {
        if !push_arms(alloc, arms, number, &sys.guard(number))? {
            return Ok(false);
        }
    }
    Ok(true)
}

/// Whether there aren't too many ways through all clauses.
fn are_few(sys: &IndexedSystem) -> bool {
    let mut count: usize = 0;
    for number in 0..sys.clauses().len() {
        if count > MOST_ARMS {
            return false;
        }
        count = count.saturating_add(count_of(&sys.guard(number)));
    }
    true
}

/// The ways through all clauses, if there aren't too many.
pub fn arms_of(alloc: Global, sys: &IndexedSystem) -> Result<Option<Vec<Arm>>, Memory> {
    if !are_few(sys) {
        return Ok(None);
    }
    let mut arms = Vec::new(alloc);
    if push_all(alloc, &mut arms, sys)? {
        Ok(Some(arms))
    } else {
        Ok(None)
    }
}
