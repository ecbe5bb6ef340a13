//! By how much a clause moves the places of a predicate that its body and its head have.

use crate::arms::Arm;
use base::Memory;
use clause_form::{Atom, Clause, System};
use lin_atoms::{Lin, Lit};
use std::alloc::Global;

/// How many variables a clause has at most for increments.
const MOST_VARIABLES: usize = 200;

/// How many terms an equation has that is read.
const MOST_TERMS: usize = 4;

/// How often the equations are gone through.
const PASSES: u32 = 3;

/// Numbers from the least to the greatest.
#[derive(Clone, Copy)]
struct Range {
    low: i64,
    high: i64,
}

/// A least and a greatest number, as far as they are known.
#[derive(Clone, Copy)]
struct Ends {
    low: Option<i64>,
    high: Option<i64>,
}

/// The one that is known, or the greater one.
fn greater(known: Option<i64>, other: i64) -> Option<i64> {
    match known {
        Some(value) => Some(value.max(other)),
        None => Some(other),
    }
}

/// The one that is known, or the lesser one.
fn lesser(known: Option<i64>, other: i64) -> Option<i64> {
    match known {
        Some(value) => Some(value.min(other)),
        None => Some(other),
    }
}

fn below(ends: &mut Vec<Ends>, variable: u32, limit: i64) {
    if let Some(own) = ends.as_mut_slice().get_mut(variable as usize) {
        let high = lesser(own.high, limit);
        *own = Ends { low: own.low, high };
    }
}

fn above(ends: &mut Vec<Ends>, variable: u32, limit: i64) {
    if let Some(own) = ends.as_mut_slice().get_mut(variable as usize) {
        let low = greater(own.low, limit);
        *own = Ends {
            low,
            high: own.high,
        };
    }
}

/// Takes a form of one variable in that is at most 0.
fn bound_by(ends: &mut Vec<Ends>, lin: &Lin) {
    let constant = match i64::try_from(lin.constant()) {
        Ok(constant) => constant,
        Err(_) => return,
    };
    if lin.terms().len() != 1 {
        return;
    }
    match lin.terms().get(0) {
        Some((variable, 1)) => below(ends, *variable, constant.saturating_neg()),
        Some((variable, -1)) => above(ends, *variable, constant),
        _ => {}
    }
}

fn bound_lit(alloc: Global, ends: &mut Vec<Ends>, lit: &Lit) -> Result<(), Memory> {
    match lit {
        Lit::Le(lin) => {
            bound_by(ends, lin);
            Ok(())
        }
        Lit::Eq(lin) => {
            bound_by(ends, lin);
            let other = lin.negated(alloc)?;
            bound_by(ends, &other);
            Ok(())
        }
        _ => Ok(()),
    }
}

fn unbound(alloc: Global, variables: usize) -> Result<Vec<Ends>, Memory> {
    let mut ends = Vec::new(alloc);
    for _ in 0..variables {
        ends.push(Ends {
            low: None,
            high: None,
        })?;
    }
    Ok(ends)
}

/// What literals of one variable say of each variable.
fn ends_of(alloc: Global, arm: &Arm, variables: usize) -> Result<Vec<Ends>, Memory> {
    let mut ends = unbound(alloc, variables)?;
    for lit in arm.lits.as_slice() {
        bound_lit(alloc, &mut ends, lit)?;
    }
    Ok(ends)
}

/// The range between two numbers, where both are known.
fn between(first: Option<i64>, second: Option<i64>) -> Option<Range> {
    match (first, second) {
        (Some(first), Some(second)) => Some(Range {
            low: first.min(second),
            high: first.max(second),
        }),
        _ => None,
    }
}

/// So many times a number that may be known.
fn times(known: Option<i64>, coefficient: i64) -> Option<i64> {
    match known {
        Some(value) => value.checked_mul(coefficient),
        None => None,
    }
}

/// The range of a number of times a variable.
fn multiple(ends: &[Ends], variable: u32, coefficient: i64) -> Option<Range> {
    match ends.get(variable as usize) {
        Some(own) => between(times(own.low, coefficient), times(own.high, coefficient)),
        None => None,
    }
}

/// The range of a sum.
fn added(first: Range, second: Range) -> Option<Range> {
    between(
        first.low.checked_add(second.low),
        first.high.checked_add(second.high),
    )
}

/// The sum so far with one more term.
fn with_term(ends: &[Ends], sum: Range, variable: u32, coefficient: i64) -> Option<Range> {
    match multiple(ends, variable, coefficient) {
        Some(own) => added(sum, own),
        None => None,
    }
}

/// The range of the form but for two variables.
fn rest(ends: &[Ends], lin: &Lin, first: u32, second: u32) -> Option<Range> {
    let constant = match i64::try_from(lin.constant()) {
        Ok(constant) => constant,
        Err(_) => return None,
    };
    let mut sum = Range {
        low: constant,
        high: constant,
    };
    for (variable, coefficient) in lin.terms() {
        if *variable != first && *variable != second {
            sum = match with_term(ends, sum, *variable, *coefficient) {
                Some(more) => more,
                None => return None,
            };
        }
    }
    Some(sum)
}

fn known_at(ranges: &[Option<Range>], variable: u32) -> Option<Range> {
    match ranges.get(variable as usize) {
        Some(Some(range)) => Some(*range),
        _ => None,
    }
}

/// The difference of one more variable to the first: the form is 0, has the coefficient at the variable
/// that is known, and its opposite at the other one.
fn moved(from: Range, rest: Range, coefficient: i64) -> Option<Range> {
    if coefficient == 1 {
        added(from, rest)
    } else {
        between(
            from.low.checked_sub(rest.high),
            from.high.checked_sub(rest.low),
        )
    }
}

/// Whether the terms are of two variables, the first with 1 or -1 and the second with its opposite.
fn are_opposite(term: (u32, i64), to: (u32, i64)) -> bool {
    term.0 != to.0 && (term.1 == 1 || term.1 == -1) && term.1.checked_add(to.1) == Some(0)
}

/// What the equation says of a variable that isn't known, by one that is.
fn by_term(
    ends: &[Ends],
    ranges: &[Option<Range>],
    lin: &Lin,
    term: (u32, i64),
    to: (u32, i64),
) -> Option<Range> {
    if !are_opposite(term, to) {
        return None;
    }
    match (known_at(ranges, term.0), rest(ends, lin, term.0, to.0)) {
        (Some(from), Some(rest)) => moved(from, rest, term.1),
        _ => None,
    }
}

fn by_terms(ends: &[Ends], ranges: &[Option<Range>], lin: &Lin, to: (u32, i64)) -> Option<Range> {
    for term in lin.terms() {
        if let Some(range) = by_term(ends, ranges, lin, *term, to) {
            return Some(range);
        }
    }
    None
}

/// Takes in what the equation says.
fn relax(ends: &[Ends], ranges: &mut Vec<Option<Range>>, lin: &Lin) {
    for to in lin.terms() {
        if known_at(ranges.as_slice(), to.0).is_none() {
            let found = by_terms(ends, ranges.as_slice(), lin, *to);
            if let Some(place) = ranges.as_mut_slice().get_mut(to.0 as usize) {
                *place = found;
            }
        }
    }
}

fn relax_all(ends: &[Ends], ranges: &mut Vec<Option<Range>>, arm: &Arm) {
    for lit in arm.lits.as_slice() {
        match lit {
            Lit::Eq(lin) => {
                if lin.terms().len() <= MOST_TERMS {
                    relax(ends, ranges, lin);
                }
            }
            _ => {}
        }
    }
}

/// The difference of a variable to this one, which is known of itself alone.
fn start_at(variable: usize, from: u32) -> Option<Range> {
    if variable == from as usize {
        Some(Range { low: 0, high: 0 })
    } else {
        None
    }
}

/// For each variable in which range its difference to this one lies, as far as that is known.
fn differences(
    alloc: Global,
    ends: &[Ends],
    arm: &Arm,
    from: u32,
) -> Result<Vec<Option<Range>>, Memory> {
    let mut ranges = Vec::new(alloc);
    for (variable, _) in ends.iter().enumerate() {
        ranges.push(start_at(variable, from))?;
    }
    spread(ends, &mut ranges, arm);
    Ok(ranges)
}

fn spread(ends: &[Ends], ranges: &mut Vec<Option<Range>>, arm: &Arm) {
    for _ in 0..PASSES {
        relax_all(ends, ranges, arm);
    }
}

/// By how much each place grows, where that is known.
#[derive(Drop)]
pub(crate) struct Increment {
    pub(crate) steps: Vec<Option<i64>>,
}

/// The least number of a range, or the greatest.
fn end_of(range: Option<Range>, least: bool) -> Option<i64> {
    match range {
        Some(range) => Some(if least { range.low } else { range.high }),
        None => None,
    }
}

/// The least increments, or the greatest.
fn chosen(alloc: Global, ranges: &[Option<Range>], least: bool) -> Result<Increment, Memory> {
    let mut steps = Vec::new(alloc);
    for range in ranges {
        steps.push(end_of(*range, least))?;
    }
    Ok(Increment { steps })
}

/// The range of the increment of a place with these arguments in the body and in the head.
fn range_at(
    alloc: Global,
    ends: &[Ends],
    arm: &Arm,
    from: u32,
    to: Option<&u32>,
) -> Result<Option<Range>, Memory> {
    let known = differences(alloc, ends, arm, from)?;
    match to {
        Some(to) => Ok(known_at(known.as_slice(), *to)),
        None => Ok(None),
    }
}

/// Adds the ranges of the increments of all places.
fn push_ranges(
    alloc: Global,
    made: &mut Vec<Option<Range>>,
    ends: &[Ends],
    arm: &Arm,
    body: &[u32],
    head: &[u32],
) -> Result<(), Memory> {
    for (place, from) in body.iter().enumerate() {
        made.push(range_at(alloc, ends, arm, *from, head.get(place))?)?;
    }
    Ok(())
}

/// The ranges of the increments of all places.
fn ranges(
    alloc: Global,
    arm: &Arm,
    variables: usize,
    body: &[u32],
    head: &[u32],
) -> Result<Vec<Option<Range>>, Memory> {
    let ends = ends_of(alloc, arm, variables)?;
    let mut made = Vec::new(alloc);
    push_ranges(alloc, &mut made, ends.as_slice(), arm, body, head)?;
    Ok(made)
}

/// Whether some range has more than one number.
fn is_open(ranges: &[Option<Range>]) -> bool {
    for range in ranges {
        if let Some(range) = range {
            if range.low != range.high {
                return true;
            }
        }
    }
    false
}

/// Adds the least increments, and the greatest where they differ.
fn push_chosen(
    alloc: Global,
    made: &mut Vec<Increment>,
    ranges: &[Option<Range>],
) -> Result<(), Memory> {
    made.push(chosen(alloc, ranges, true)?)?;
    if is_open(ranges) {
        made.push(chosen(alloc, ranges, false)?)?;
    }
    Ok(())
}

fn push_increments(
    alloc: Global,
    made: &mut Vec<Increment>,
    clause: &Clause,
    arm: &Arm,
    head: &Atom,
) -> Result<(), Memory> {
    for atom in clause.atoms.as_slice() {
        if atom.pred == head.pred && clause.sorts.len() <= MOST_VARIABLES {
            let ranges = ranges(
                alloc,
                arm,
                clause.sorts.len(),
                atom.args.as_slice(),
                head.args.as_slice(),
            )?;
            push_chosen(alloc, made, ranges.as_slice())?;
        }
    }
    Ok(())
}

/// The increments of a predicate's places.
pub(crate) fn increments(
    alloc: Global,
    sys: &System,
    arms: &[Arm],
    pred: u32,
) -> Result<Vec<Increment>, Memory> {
    let mut made = Vec::new(alloc);
    for arm in arms {
        if let Some(clause) = sys.clauses().get(arm.clause) {
            if let Some(head) = &clause.head {
                if head.pred == pred {
                    push_increments(alloc, &mut made, clause, arm, head)?;
                }
            }
        }
    }
    Ok(made)
}
