//! Choices where nothing more follows: a part of a disjunction, or a value of a variable.

use crate::ranges::{FURTHEST, nearest};
use crate::settling::{is_open, open_parts};
use crate::states::State;
use base::Memory;
use clause_form::Clause;
use lin_atoms::{Form, Lin, Lit};
use std::alloc::Global;

/// A range with at most so many values but one is gone through.
const NARROW: u64 = 16;

/// How many values of a variable are tried, where its range isn't gone through.
const MOST_VALUES: usize = 120;

/// What is tried for variables of which little is known.
#[derive(Clone, Copy)]
pub(crate) struct Tries<'a> {
    /// Values that are tried for each.
    pub(crate) constants: &'a [i64],
    /// How far from the first value of a variable others are tried.
    pub(crate) reach: u32,
}

/// A disjunction, and how many of its parts may hold.
#[derive(Clone, Copy)]
struct Counted<'a> {
    parts: &'a [Form],
    count: usize,
}

/// The one with fewer parts that may hold, of two the first.
fn fewer<'a>(best: Option<Counted<'a>>, one: Counted<'a>) -> Option<Counted<'a>> {
    match best {
        Some(other) => {
            if one.count < other.count {
                Some(one)
            } else {
                Some(other)
            }
        }
        None => Some(one),
    }
}

/// The parts of a formula that is a disjunction.
fn parts_of(form: &Form) -> Option<&[Form]> {
    match form {
        Form::Or(parts) => Some(parts.as_slice()),
        _ => None,
    }
}

/// The disjunction with the fewest parts that may hold.
pub(crate) fn next_disjunction<'a>(state: &State<'a>, work: &mut u64) -> Option<&'a [Form]> {
    let mut best = None;
    for form in state.forms.as_slice() {
        if let Some(parts) = parts_of(*form) {
            if let Some(count) = open_parts(parts, &state.ranges, work) {
                best = fewer(best, Counted { parts, count });
            }
        }
    }
    match best {
        Some(one) => Some(one.parts),
        None => None,
    }
}

/// Adds the state in which the part has to hold, too.
fn push_part<'a>(
    alloc: Global,
    state: &State<'a>,
    part: &'a Form,
    stack: &mut Vec<State<'a>>,
) -> Result<(), Memory> {
    let mut next = state.copy(alloc)?;
    next.forms.push(part)?;
    stack.push(next)?;
    Ok(())
}

/// Adds the states in which one of the parts has to hold. The first comes last.
pub(crate) fn push_parts<'a>(
    alloc: Global,
    state: &State<'a>,
    parts: &'a [Form],
    stack: &mut Vec<State<'a>>,
    work: &mut u64,
) -> Result<(), Memory> {
    for part in parts.iter().rev() {
        if is_open(part, &state.ranges, work) {
            push_part(alloc, state, part, stack)?;
        }
    }
    Ok(())
}

fn lin_of(lit: &Lit) -> &Lin {
    match lit {
        Lit::Le(lin) => lin,
        Lit::Eq(lin) => lin,
        Lit::Div(_, lin) => lin,
        Lit::NDiv(_, lin) => lin,
    }
}

/// The better of two variables to choose a value for: of those that aren't known the one with the smaller
/// range.
fn better(state: &State, best: Option<u32>, variable: u32) -> Option<u32> {
    let width = state.ranges.width(variable);
    if width == 0 {
        return best;
    }
    match best {
        Some(other) => {
            if width < state.ranges.width(other) {
                Some(variable)
            } else {
                best
            }
        }
        None => Some(variable),
    }
}

/// The best of a variable and those of a literal.
fn better_in(state: &State, best: Option<u32>, lit: &Lit) -> Option<u32> {
    let mut best = best;
    for (variable, _) in lin_of(lit).terms() {
        best = better(state, best, *variable);
    }
    best
}

/// The best variable of the literals that have to hold.
fn next_in_forms(state: &State) -> Option<u32> {
    let mut best = None;
    for form in state.forms.as_slice() {
        if let Form::Lit(lit) = *form {
            best = better_in(state, best, lit);
        }
    }
    best
}

/// The best of these variables.
fn next_of(state: &State, variables: &[u32]) -> Option<u32> {
    let mut best = None;
    for variable in variables {
        best = better(state, best, *variable);
    }
    best
}

/// A variable that isn't known and for which a value is to be chosen: one of a literal that has to hold, or
/// one of the head.
pub(crate) fn next_variable(state: &State, clause: &Clause) -> Option<u32> {
    match next_in_forms(state) {
        Some(variable) => Some(variable),
        None => match &clause.head {
            Some(head) => next_of(state, head.args.as_slice()),
            None => None,
        },
    }
}

/// Adds the value, if the variable may have it and it isn't there.
fn push_value(
    state: &State,
    variable: u32,
    values: &mut Vec<i64>,
    value: i64,
) -> Result<(), Memory> {
    let has_room = values.len() < MOST_VALUES;
    if has_room && state.ranges.has(variable, value) && !values.as_slice().contains(&value) {
        values.push(value)?;
    }
    Ok(())
}

/// Adds values up to so far from one.
fn push_near(
    state: &State,
    variable: u32,
    values: &mut Vec<i64>,
    first: i64,
    reach: u32,
) -> Result<(), Memory> {
    push_value(state, variable, values, first)?;
    for more in 0..reach {
        let more = i64::from(more).saturating_add(1);
        push_value(state, variable, values, first.saturating_add(more))?;
        push_value(state, variable, values, first.saturating_sub(more))?;
    }
    Ok(())
}

/// Adds values at the end of a range, if it has one.
fn push_end(state: &State, variable: u32, values: &mut Vec<i64>, end: i64) -> Result<(), Memory> {
    if end < FURTHEST && end > -FURTHEST {
        push_near(state, variable, values, end, 1)?;
    }
    Ok(())
}

/// The values of a narrow range.
fn all_values(alloc: Global, state: &State, variable: u32) -> Result<Vec<i64>, Memory> {
    let (low, _) = state.ranges.of(variable);
    let mut values = Vec::new(alloc);
    for more in 0..NARROW.saturating_add(1) {
        if let Ok(more) = i64::try_from(more) {
            push_value(state, variable, &mut values, low.saturating_add(more))?;
        }
    }
    Ok(values)
}

/// The values of a wide range that are tried: those near 0, at its ends, and constants.
fn some_values(
    alloc: Global,
    state: &State,
    variable: u32,
    tries: Tries,
) -> Result<Vec<i64>, Memory> {
    let (low, high) = state.ranges.of(variable);
    let mut values = Vec::new(alloc);
    push_near(
        state,
        variable,
        &mut values,
        nearest(low, high),
        tries.reach,
    )?;
    push_end(state, variable, &mut values, low)?;
    push_end(state, variable, &mut values, high)?;
    for constant in tries.constants {
        push_value(state, variable, &mut values, *constant)?;
    }
    Ok(values)
}

/// The values of a variable that are tried.
fn values_of(
    alloc: Global,
    state: &State,
    variable: u32,
    tries: Tries,
) -> Result<Vec<i64>, Memory> {
    if state.ranges.width(variable) <= NARROW {
        all_values(alloc, state, variable)
    } else {
        some_values(alloc, state, variable, tries)
    }
}

/// Adds the state in which the variable has the value.
fn push_choice<'a>(
    alloc: Global,
    state: &State<'a>,
    variable: u32,
    value: i64,
    stack: &mut Vec<State<'a>>,
) -> Result<(), Memory> {
    let mut next = state.copy(alloc)?;
    next.ranges.fix(variable, value);
    stack.push(next)?;
    Ok(())
}

/// Adds the states in which the variable has one of the values that are tried. The first comes last.
pub(crate) fn push_choices<'a>(
    alloc: Global,
    state: &State<'a>,
    variable: u32,
    tries: Tries,
    stack: &mut Vec<State<'a>>,
) -> Result<(), Memory> {
    let values = values_of(alloc, state, variable, tries)?;
    for value in values.as_slice().iter().rev() {
        push_choice(alloc, state, variable, *value, stack)?;
    }
    Ok(())
}
