//! Body atoms that get their tuples.

use crate::states::State;
use crate::tuples::Tuples;
use base::Memory;
use clause_form::Atom;
use std::alloc::Global;

/// How many of a predicate's newest tuples are looked at for an atom.
const MOST_LOOKED: usize = 2_000;

/// How many of them an atom gets at most.
const MOST_FITTING: usize = 64;

/// How many of the atom's arguments aren't known.
fn unknown(state: &State, atom: &Atom) -> usize {
    let mut count: usize = 0;
    for arg in atom.args.as_slice() {
        if state.ranges.value(*arg).is_none() {
            count = count.saturating_add(1);
        }
    }
    count
}

/// A body atom, and how many of its arguments aren't known.
#[derive(Clone, Copy)]
struct Counted {
    at: usize,
    count: usize,
}

/// The one with fewer arguments that aren't known, of two the first.
fn fewer(best: Option<Counted>, one: Counted) -> Option<Counted> {
    match best {
        Some(other) => {
            if one.count < other.count {
                Some(one)
            } else {
                Some(other)
            }
        }
        None => Some(one),
    }
}

/// Whether the body atom has no tuple yet.
fn waits(state: &State, at: usize) -> bool {
    match state.premises.as_slice().get(at) {
        Some(premise) => premise.is_none(),
        None => false,
    }
}

/// The body atom without a tuple of which most is known.
pub(crate) fn next_atom(state: &State, atoms: &[Atom]) -> Option<usize> {
    let mut best = None;
    for (at, atom) in atoms.iter().enumerate() {
        if waits(state, at) {
            let count = unknown(state, atom);
            best = fewer(best, Counted { at, count });
        }
    }
    match best {
        Some(one) => Some(one.at),
        None => None,
    }
}

/// Whether the atom may have this tuple.
fn fits(state: &State, atom: &Atom, tuple: &[i64]) -> bool {
    for (arg, value) in atom.args.as_slice().iter().zip(tuple) {
        if !state.ranges.has(*arg, *value) {
            return false;
        }
    }
    true
}

/// The atom has the tuple of that number.
pub(crate) fn give(state: &mut State, at: usize, atom: &Atom, number: u32, tuple: &[i64]) {
    for (arg, value) in atom.args.as_slice().iter().zip(tuple) {
        state.ranges.fix(*arg, *value);
    }
    if let Some(own) = state.premises.as_mut_slice().get_mut(at) {
        *own = Some(number);
    }
}

/// The values of the atom's arguments, where all are known.
fn values(alloc: Global, state: &State, atom: &Atom) -> Result<Option<Vec<i64>>, Memory> {
    let mut made = Vec::with_capacity(alloc, atom.args.len())?;
    for arg in atom.args.as_slice() {
        match state.ranges.value(*arg) {
            Some(value) => made.push(value)?,
            None => return Ok(None),
        }
    }
    Ok(Some(made))
}

/// Adds the tuple's number, if the atom may have it.
fn push_fitting(
    tuples: &Tuples,
    state: &State,
    atom: &Atom,
    number: u32,
    made: &mut Vec<u32>,
) -> Result<(), Memory> {
    if let Some(one) = tuples.get(number) {
        if fits(state, atom, one.tuple.as_slice()) {
            made.push(number)?;
        }
    }
    Ok(())
}

/// Adds the newest tuples that the atom may have.
fn push_newest(
    tuples: &Tuples,
    state: &State,
    atom: &Atom,
    made: &mut Vec<u32>,
    work: &mut u64,
) -> Result<(), Memory> {
    for (looked, number) in tuples.of(atom.pred).iter().rev().enumerate() {
        if looked >= MOST_LOOKED || made.len() >= MOST_FITTING {
            return Ok(());
        }
        *work = work.saturating_add(1);
        push_fitting(tuples, state, atom, *number, made)?;
    }
    Ok(())
}

/// The tuples that the atom may have, the newest first.
fn fitting(
    alloc: Global,
    tuples: &Tuples,
    state: &State,
    atom: &Atom,
    work: &mut u64,
) -> Result<Vec<u32>, Memory> {
    let mut made = Vec::new(alloc);
    match values(alloc, state, atom)? {
        Some(tuple) => {
            if let Some(number) = tuples.find(atom.pred, tuple.as_slice()) {
                made.push(number)?;
            }
        }
        None => push_newest(tuples, state, atom, &mut made, work)?,
    }
    Ok(made)
}

/// Adds the state in which the atom has the tuple of that number.
fn push_match<'a>(
    alloc: Global,
    tuples: &Tuples,
    state: &State<'a>,
    at: usize,
    atom: &Atom,
    number: u32,
    stack: &mut Vec<State<'a>>,
) -> Result<(), Memory> {
    if let Some(one) = tuples.get(number) {
        let mut next = state.copy(alloc)?;
        give(&mut next, at, atom, number, one.tuple.as_slice());
        stack.push(next)?;
    }
    Ok(())
}

/// Adds the states in which the body atom at a place has one of the tuples that it may have. The newest comes
/// last.
pub(crate) fn push_matches<'a>(
    alloc: Global,
    tuples: &Tuples,
    state: &State<'a>,
    at: usize,
    atoms: &[Atom],
    stack: &mut Vec<State<'a>>,
    work: &mut u64,
) -> Result<(), Memory> {
    if let Some(atom) = atoms.get(at) {
        let numbers = fitting(alloc, tuples, state, atom, work)?;
        for number in numbers.as_slice().iter().rev() {
            push_match(alloc, tuples, state, at, atom, *number, stack)?;
        }
    }
    Ok(())
}
