//! Queries of one way through a clause, with the bounds on its body atoms.

ghost use Rattle.std.specs.Prelude.{◌<◌};

use base::{Items, Memory};
use clause_form::{Atom, Clause};
use guess_table::{Arm, Bound, Use, push_broken, push_parts, without};
use lia_cases::{Decision, decide_owned};
use lia_search::has_short_multiples;
use lin_atoms::{Form, Lit};
use std::alloc::Global;

/// The most inner nodes of a query.
const MOST_NODES: u32 = 100;

/// The most variables of a clause that a query takes.
const MOST_VARIABLES: u32 = 2_048;

/// How often one query is asked anew, with more bounds.
const MOST_TURNS: u32 = 40;

/// For how many queries one counts that is given up.
const GIVEN_UP: u32 = 50;

/// An answer of a query.
#[derive(Drop)]
pub(crate) enum Answer {
    /// A point of the clause's variables that meets the goal and all bounds.
    Met(Vec<i64>),
    /// There is none, by these bounds.
    Refuted,
    GivenUp,
}

/// What was decided, whose point is taken out.
fn answer_of(alloc: Global, found: &mut Decision) -> Answer {
    match found {
        Decision::Model(point) => Answer::Met(std::mem::replace(point, Vec::new(alloc))),
        Decision::Refuted(_) => Answer::Refuted,
        Decision::GaveUp(_) => Answer::GivenUp,
    }
}

fn solved(alloc: Global, form: Form, vars: u32) -> Result<Answer, Memory> {
    if vars > MOST_VARIABLES || !form.is_below(vars as usize) || !has_short_multiples(&form) {
        return Ok(Answer::GivenUp);
    }
    let mut found = decide_owned(alloc, form, Items::new(alloc), vars, MOST_NODES)?;
    Ok(answer_of(alloc, &mut found))
}

/// What a query costs.
fn cost(parts: usize, vars: u32) -> u32 {
    let parts = match u32::try_from(parts) {
        Ok(parts) => parts,
        Err(_) => u32::MAX,
    };
    parts.saturating_mul(vars).saturating_add(100) / 100
}

/// Counts a query of so many parts; the number of the clause's variables, unless too much was asked.
fn charged(clause: &Clause, parts: usize, left: &mut u32) -> Option<u32> {
    let vars = match u32::try_from(clause.sorts.len()) {
        Ok(vars) => vars,
        Err(_) => return None,
    };
    let cost = cost(parts, vars);
    if *left < cost {
        *left = 0;
        return None;
    }
    *left = left.saturating_sub(cost);
    Some(vars)
}

/// Asks the solver, and counts the query.
fn asked(
    alloc: Global,
    clause: &Clause,
    parts: Items<Form>,
    left: &mut u32,
) -> Result<Answer, Memory> {
    let vars = match charged(clause, parts.len(), left) {
        Some(vars) => vars,
        None => return Ok(Answer::GivenUp),
    };
    let answer = solved(alloc, Form::And(parts), vars)?;
    if let Answer::GivenUp = answer {
        *left = left.saturating_sub(GIVEN_UP);
    }
    Ok(answer)
}

/// Asks the arm for a point that meets the goal and these bounds.
fn ask(
    alloc: Global,
    clause: &Clause,
    arm: &Arm,
    bounds: &[Bound],
    goal: &[Lit],
    uses: &[Use],
    left: &mut u32,
) -> Result<Answer, Memory> {
    let mut parts = Items::new(alloc);
    push_parts(alloc, &mut parts, clause, arm, bounds, goal, uses)?;
    asked(alloc, clause, parts, left)
}

/// Whether the answer stands: bounds that its point breaks are added, and it stands if there are none.
fn is_last(
    alloc: Global,
    answer: &Answer,
    uses: &mut Vec<Use>,
    bounds: &[Bound],
    atoms: &[Atom],
) -> Result<bool, Memory> {
    match answer {
        Answer::Met(point) => {
            let count = uses.len();
            push_broken(alloc, uses, bounds, atoms, point.as_slice())?;
            Ok(uses.len() <= count)
        }
        _ => Ok(true),
    }
}

/// Asks the arm for a point that meets the goal and the bounds on its body atoms: first with the bounds
/// that are handed in, then with those that points break, which are added to them.
pub(crate) fn visit(
    alloc: Global,
    clause: &Clause,
    arm: &Arm,
    bounds: &[Bound],
    goal: &[Lit],
    uses: &mut Vec<Use>,
    left: &mut u32,
) -> Result<Answer, Memory> {
    for _ in 0..MOST_TURNS {
        let answer = ask(alloc, clause, arm, bounds, goal, uses.as_slice(), left)?;
        if is_last(alloc, &answer, uses, bounds, clause.atoms.as_slice())? {
            return Ok(answer);
        }
    }
    Ok(Answer::GivenUp)
}

/// A point of the arm that meets the goal, if one is found.
pub(crate) fn point_of(
    alloc: Global,
    clause: &Clause,
    arm: &Arm,
    goal: &[Lit],
    left: &mut u32,
) -> Result<Option<Vec<i64>>, Memory> {
    match ask(alloc, clause, arm, &[], goal, &[], left)? {
        Answer::Met(point) => Ok(Some(point)),
        Answer::Refuted => Ok(None),
        Answer::GivenUp => Ok(None),
    }
}

/// Whether the arm has no point that meets the goal and these bounds.
fn is_refuted(
    alloc: Global,
    clause: &Clause,
    arm: &Arm,
    bounds: &[Bound],
    goal: &[Lit],
    uses: &[Use],
    left: &mut u32,
) -> Result<bool, Memory> {
    match ask(alloc, clause, arm, bounds, goal, uses, left)? {
        Answer::Met(_point) => Ok(false),
        Answer::Refuted => Ok(true),
        Answer::GivenUp => Ok(false),
    }
}

/// Leaves out the bound at a place, if the query is refuted without it.
fn leave_out(
    alloc: Global,
    clause: &Clause,
    arm: &Arm,
    bounds: &[Bound],
    goal: &[Lit],
    uses: &mut Vec<Use>,
    at: usize,
    left: &mut u32,
) -> Result<(), Memory> {
    let fewer = without(alloc, uses.as_slice(), at)?;
    if is_refuted(alloc, clause, arm, bounds, goal, fewer.as_slice(), left)? {
        *uses = fewer;
    }
    Ok(())
}

/// Of the bounds with which a query is refuted those that are needed for it stay: the last ones are left
/// out first.
pub(crate) fn core_of(
    alloc: Global,
    clause: &Clause,
    arm: &Arm,
    bounds: &[Bound],
    goal: &[Lit],
    uses: &mut Vec<Use>,
    left: &mut u32,
) -> Result<(), Memory> {
    let count = uses.len();
    for number in 0..count {
        let at = count.saturating_sub(number).saturating_sub(1);
        leave_out(alloc, clause, arm, bounds, goal, uses, at, left)?;
    }
    Ok(())
}
