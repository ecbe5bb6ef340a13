//! Instances of a clause with body tuples that are there: a tree of choices, cut off by limits.

use crate::choosing::{Tries, next_disjunction, next_variable, push_choices, push_parts};
use crate::instances::{Found, numbers};
use crate::matching::{give, next_atom, push_matches};
use crate::ranges::{FURTHEST, Ranges};
use crate::settling::settle;
use crate::states::State;
use crate::tuples::Tuples;
use base::Memory;
use clause_form::Clause;
use lin_atoms::{Form, holds};
use std::alloc::Global;

/// How far a clause is run at most.
#[derive(Clone, Copy)]
pub struct Limits {
    /// How many states are looked at.
    pub states: u32,
    /// How many instances are found.
    pub instances: usize,
    /// How much work is done.
    pub work: u64,
    /// How far from the first value of a variable others are tried, where little is known of it.
    pub reach: u32,
}

/// What a clause is run with.
#[derive(Clone, Copy)]
struct Run<'a, 'b> {
    clause: &'a Clause,
    tuples: &'b Tuples,
    tries: Tries<'b>,
}

/// The start: nothing is known but that the guard has to hold.
fn begun<'a>(alloc: Global, clause: &'a Clause) -> Result<State<'a>, Memory> {
    let ranges = Ranges::new(alloc, clause.sorts.len())?;
    let mut forms: Vec<&'a Form> = Vec::new(alloc);
    forms.push(&clause.guard)?;
    let premises = vec![in alloc; None; clause.atoms.len()]?;
    Ok(State {
        ranges,
        forms,
        premises,
    })
}

/// The start, where a body atom has the tuple of that number if one is handed in.
fn first_state<'a>(
    alloc: Global,
    clause: &'a Clause,
    tuples: &Tuples,
    from: Option<(usize, u32)>,
) -> Result<State<'a>, Memory> {
    let mut state = begun(alloc, clause)?;
    if let Some((at, number)) = from {
        if let (Some(atom), Some(one)) = (clause.atoms.as_slice().get(at), tuples.get(number)) {
            give(&mut state, at, atom, number, one.tuple.as_slice());
        }
    }
    Ok(state)
}

/// Whether no number of the point is too far from 0.
fn is_near(point: &[i64]) -> bool {
    for value in point {
        if *value >= FURTHEST || *value <= -FURTHEST {
            return false;
        }
    }
    true
}

/// Adds the instance in which each variable has a value of its range, if it is one.
fn push_instance(
    alloc: Global,
    clause: &Clause,
    state: &State,
    found: &mut Vec<Found>,
) -> Result<(), Memory> {
    let point = state.ranges.point(alloc)?;
    if !is_near(point.as_slice()) || !holds(&clause.guard, point.as_slice()) {
        return Ok(());
    }
    if let Some(premises) = numbers(alloc, state.premises.as_slice())? {
        found.push(Found { point, premises })?;
    }
    Ok(())
}

/// Goes on from a state in which nothing more follows: to states of which each knows more, or to an
/// instance.
fn split<'a>(
    alloc: Global,
    run: Run<'a, '_>,
    state: &State<'a>,
    stack: &mut Vec<State<'a>>,
    found: &mut Vec<Found>,
    work: &mut u64,
) -> Result<(), Memory> {
    let atoms = run.clause.atoms.as_slice();
    if let Some(at) = next_atom(state, atoms) {
        return push_matches(alloc, run.tuples, state, at, atoms, stack, work);
    }
    if let Some(parts) = next_disjunction(state, work) {
        return push_parts(alloc, state, parts, stack, work);
    }
    match next_variable(state, run.clause) {
        Some(variable) => push_choices(alloc, state, variable, run.tries, stack),
        None => push_instance(alloc, run.clause, state, found),
    }
}

/// The work of a state of so many variables.
fn work_of(variables: usize) -> u64 {
    (variables as u64 / 4).saturating_add(8)
}

/// What follows from a state by the formulas that have to hold.
fn settled<'a>(alloc: Global, state: State<'a>, work: &mut u64) -> Result<State<'a>, Memory> {
    let State {
        mut ranges,
        mut forms,
        premises,
    } = state;
    *work = work.saturating_add(work_of(ranges.count()));
    settle(alloc, &mut forms, &mut ranges, work)?;
    Ok(State {
        ranges,
        forms,
        premises,
    })
}

/// Goes on from a state.
fn advance<'a>(
    alloc: Global,
    run: Run<'a, '_>,
    state: State<'a>,
    stack: &mut Vec<State<'a>>,
    found: &mut Vec<Found>,
    work: &mut u64,
) -> Result<(), Memory> {
    let state = settled(alloc, state, work)?;
    if state.ranges.has_failed() {
        return Ok(());
    }
    split(alloc, run, &state, stack, found, work)
}

/// Goes through the states, as far as the limits allow.
fn explore<'a>(
    alloc: Global,
    run: Run<'a, '_>,
    stack: &mut Vec<State<'a>>,
    limits: Limits,
    found: &mut Vec<Found>,
    work: &mut u64,
) -> Result<(), Memory> {
    let most = work.saturating_add(limits.work);
    for _ in 0..limits.states {
        if found.len() >= limits.instances || *work >= most {
            return Ok(());
        }
        match stack.pop() {
            Some(state) => advance(alloc, run, state, stack, found, work)?,
            None => return Ok(()),
        }
    }
    Ok(())
}

/// Instances of a clause whose body tuples are there, with the tuple of that number at a body atom, if one is
/// handed in. For variables of which little is known the constants are tried, too. What is looked at is
/// counted as work, in literals.
pub fn run_clause(
    alloc: Global,
    clause: &Clause,
    tuples: &Tuples,
    from: Option<(usize, u32)>,
    constants: &[i64],
    limits: Limits,
    work: &mut u64,
) -> Result<Vec<Found>, Memory> {
    let tries = Tries {
        constants,
        reach: limits.reach,
    };
    let run = Run {
        clause,
        tuples,
        tries,
    };
    let mut stack = Vec::new(alloc);
    stack.push(first_state(alloc, clause, tuples, from)?)?;
    let mut found = Vec::new(alloc);
    explore(alloc, run, &mut stack, limits, &mut found, work)?;
    Ok(found)
}
