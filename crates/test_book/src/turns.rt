//! The steps that are handed in, and what `commit` answers.

ghost use Rattle.std.specs.Prelude.{◌≡◌};
ghost use Rattle.std.specs.List.{list_all};
ghost use Rattle.lin_atoms.specs.Truth.{lit_is_below};
ghost use Rattle.model_project.specs.Projection.{are_true};
ghost use Rattle.clause_form.specs.System.{Clauses};
ghost use Rattle.chc_tokens.specs.Tokens.{IsNoLift, IsShownToken};
ghost use Rattle.book_rules.specs.Walks.{AllOf};
ghost use Rattle.step_rules.specs.Taken.{IsMadeFor};

use crate::clauses::next;
use crate::lits::{is, lin, not, only};
use crate::tokens::{
    broken, choice_given_up, instance, query_given_up, through_first, through_last, through_second,
    unknown, used_not,
};
use base::{Copied, Items};
use chc_core::{
    Book, By, DerivePart, End, FactPart, LemmaPart, LiftPart, OpenPart, RaisePart, Refused,
    StallPart, Step, StrengthenPart, has_places,
};
use chc_tokens::{NoLift, Shown, Used};
use clause_form::System;
use cube_forms::Cube;
use lin_atoms::Lit;
use model_project::{Projected, project};
use refutation_trees::GaveUp;
use std::alloc::Global;
use std::mem;
use std::process::Abort;

/// What is handed in. A Raise and a Lemma name how much of them is shown.
#[derive(Clone, Copy)]
pub(crate) enum Turn {
    /// An Open of the root by a clause at a value.
    Open(u32, i64),
    /// An Open by the last clause at 3: the parent, the atom, and the value of its cube.
    Other(u32, u32, i64),
    /// An Open of an obligation for 3 by the second clause at 2 and 3, that knows 'not 3' on the body
    /// or doesn't.
    Below(u32, bool),
    /// A Lemma 'not this value' for a target at a level, shown through the first n clauses,
    /// n at most 2, with 'not the one before' on the body.
    Learn(u32, i64, u32, u32),
    /// The Fact p(0) by the first clause, for a target.
    Zero(Option<u32>),
    /// A Fact by the second clause: the target, the value before, and its fact.
    Next(Option<u32>, i64, u32),
    /// The Fact false by the second clause at 0, from the fact of that number.
    False(u32),
    /// The Fact false by the first clause, which has no variables.
    Nothing,
    /// A Lift of a lemma from a level, shown for 'not this value' as a Lemma is through both clauses.
    Lift(u32, u32, i64),
    /// A Raise: whether the last clause is shown, and the values whose lemmas are broken, 0 for none.
    Raise(bool, i64, i64),
    /// A Raise with the last clause shown, where of 'not this value' nothing is known under 'not the
    /// other'.
    Unknown(i64, i64),
    /// A Stall by the last clause: the target, the value of the used lemma, and that of the evidence.
    Stall(u32, i64, i64),
    /// A Stall by the first clause, for an obligation of that value.
    Choice(u32, i64),
    /// The Derive p(0) by the first clause.
    First,
    /// A Derive by the second clause: the value before, and its fact.
    Further(i64, u32),
    /// A Strengthen 'not this value' of a predicate at a level, shown as a Lemma is.
    Strengthen(u32, i64, u32, u32),
}

// opens

/// An Open for the body atom of a clause at a value, with that value's area and another's cube.
fn open(
    rt: &impl Abort,
    alloc: Global,
    sys: &System,
    clause: u32,
    value: i64,
    parent: u32,
    atom: u32,
    cube: i64,
) -> Step
    ensures { IsMadeFor sys.now result }
{
    Step::OpenStep(OpenPart {
        parent,
        atom,
        seen: instance(rt, alloc, sys, clause, &[value]),
        cube: only(rt, alloc, cube),
        area: point_area(rt, alloc, value),
    })
}

fn all_hold(lits: &[Lit], point: &[i64]) -> bool
    ensures { result ≡ are_true point.now lits.now }
{
    lits.iter().all(|lit| lit.holds(point))
}

fn all_below(lits: &[Lit], n: usize) -> bool
    ensures { result ≡ list_all (lit_is_below n) lits.now }
{
    lits.iter().all(|lit| lit.is_below(n))
}

/// The projection of these at a model, where one variable is kept.
pub(crate) fn projected(
    rt: &impl Abort,
    alloc: Global,
    lits: &[Lit],
    model: &[i64],
    kept: u32,
) -> Projected {
    assert!(rt; all_hold(lits, model), "no model");
    assert!(rt; all_below(lits, model.len()), "a variable without a value");
    project(alloc, lits, model, &[kept]).expect(rt, "memory")
}

/// The area of one value.
fn point_area(rt: &impl Abort, alloc: Global, value: i64) -> Projected {
    let lits = [is(rt, alloc, 0, value)];
    let area = projected(rt, alloc, &lits, &[value], 0);
    mem::forget(lits);
    area
}

/// `x1 = x0 + 1` and `x1 = 3`, and with them `x0 <= 2` or not.
fn area_lits(rt: &impl Abort, alloc: Global, knows: bool) -> Vec<Lit> {
    let mut lits = Vec::new(alloc);
    lits.push(next(rt, alloc)).expect(rt, "memory");
    lits.push(is(rt, alloc, 1, 3)).expect(rt, "memory");
    if knows {
        let most = Lit::Le(lin(rt, alloc, &[(0, 1)], -2));
        lits.push(most).expect(rt, "memory");
    }
    lits
}

/// The area of the second clause at 2 and 3 for the head 3, with 'at most 2' on the body or without.
fn area(rt: &impl Abort, alloc: Global, knows: bool) -> Projected {
    let lits = area_lits(rt, alloc, knows);
    let area = projected(rt, alloc, lits.as_slice(), &[2, 3], 0);
    mem::forget(lits);
    area
}

fn cube_of(rt: &impl Abort, alloc: Global, lits: &[Lit]) -> Cube {
    let mut copies = Vec::new(alloc);
    for lit in lits {
        copies
            .push(lit.copy(alloc).expect(rt, "memory"))
            .expect(rt, "memory");
    }
    Cube::new(alloc, copies).expect(rt, "a cube")
}

fn below(rt: &impl Abort, alloc: Global, sys: &System, parent: u32, knows: bool) -> Step
    ensures { IsMadeFor sys.now result }
{
    let seen = instance(rt, alloc, sys, 1, &[2, 3]);
    let area = area(rt, alloc, knows);
    let cube = cube_of(rt, alloc, area.cube());
    Step::OpenStep(OpenPart {
        parent,
        atom: 0,
        seen,
        cube,
        area,
    })
}

// other steps

/// The proofs of 'not this value' through the first `count` of the first two clauses.
fn proofs(rt: &impl Abort, alloc: Global, sys: &System, value: i64, count: u32) -> Items<Shown>
    ensures { AllOf (IsShownToken sys.now) result }
{
    let mut proofs = Items::new(alloc);
    if count > 0 {
        proofs
            .push(through_first(rt, alloc, sys, value))
            .expect(rt, "memory");
    }
    if count > 1 {
        proofs
            .push(through_second(rt, alloc, sys, value))
            .expect(rt, "memory");
    }
    proofs
}

fn learn(
    rt: &impl Abort,
    alloc: Global,
    sys: &System,
    target: u32,
    value: i64,
    level: u32,
    shown: u32,
) -> Step
    ensures { IsMadeFor sys.now result }
{
    Step::LemmaStep(LemmaPart {
        target,
        pred: 0,
        lemma: not(rt, alloc, value),
        level,
        proofs: proofs(rt, alloc, sys, value, shown),
    })
}

pub(crate) fn fact(
    rt: &impl Abort,
    alloc: Global,
    sys: &System,
    clause: u32,
    values: &[i64],
    target: Option<u32>,
    premises: &[u32],
) -> Step
    ensures { IsMadeFor sys.now result }
{
    let premises = Items::from_slice(alloc, premises).expect(rt, "memory");
    Step::FactStep(FactPart {
        target,
        seen: instance(rt, alloc, sys, clause, values),
        premises,
    })
}

fn derive(
    rt: &impl Abort,
    alloc: Global,
    sys: &System,
    clause: u32,
    values: &[i64],
    premises: &[u32],
) -> Step
    ensures { IsMadeFor sys.now result }
{
    let premises = Items::from_slice(alloc, premises).expect(rt, "memory");
    Step::DeriveStep(DerivePart {
        seen: instance(rt, alloc, sys, clause, values),
        premises,
    })
}

fn strengthen(
    rt: &impl Abort,
    alloc: Global,
    sys: &System,
    pred: u32,
    value: i64,
    level: u32,
    shown: u32,
) -> Step
    ensures { IsMadeFor sys.now result }
{
    Step::StrengthenStep(StrengthenPart {
        pred,
        lemma: not(rt, alloc, value),
        level,
        proofs: proofs(rt, alloc, sys, value, shown),
    })
}

fn lift(rt: &impl Abort, alloc: Global, sys: &System, lemma: u32, from: u32, value: i64) -> Step
    ensures { IsMadeFor sys.now result }
{
    Step::LiftStep(LiftPart {
        lemma,
        from,
        proofs: proofs(rt, alloc, sys, value, 2),
    })
}

/// The proof of the last clause, or nothing.
fn closed(rt: &impl Abort, alloc: Global, sys: &System, is_shown: bool) -> Items<Shown>
    ensures { AllOf (IsShownToken sys.now) result }
{
    let mut closed = Items::new(alloc);
    if is_shown {
        closed
            .push(through_last(rt, alloc, sys))
            .expect(rt, "memory");
    }
    closed
}

/// The broken lemmas of these values, where they aren't 0.
fn kept(rt: &impl Abort, alloc: Global, sys: &System, first: i64, second: i64) -> Items<NoLift>
    ensures { AllOf (IsNoLift sys.now) result }
{
    let mut kept = Items::new(alloc);
    if first > 0 {
        kept.push(broken(rt, alloc, sys, first))
            .expect(rt, "memory");
    }
    if second > 0 {
        kept.push(broken(rt, alloc, sys, second))
            .expect(rt, "memory");
    }
    kept
}

pub(crate) fn raise(
    rt: &impl Abort,
    alloc: Global,
    sys: &System,
    is_shown: bool,
    first: i64,
    second: i64,
) -> Step
    ensures { IsMadeFor sys.now result }
{
    Step::RaiseStep(RaisePart {
        closed: closed(rt, alloc, sys, is_shown),
        kept: kept(rt, alloc, sys, first, second),
    })
}

/// The lemma of this value, of which nothing is known under 'not the other'.
fn kept_unknown(
    rt: &impl Abort,
    alloc: Global,
    sys: &System,
    value: i64,
    other: i64,
) -> Items<NoLift>
    ensures { AllOf (IsNoLift sys.now) result }
{
    let mut kept = Items::new(alloc);
    kept.push(unknown(rt, alloc, sys, value, other))
        .expect(rt, "memory");
    kept
}

fn raise_unknown(rt: &impl Abort, alloc: Global, sys: &System, value: i64, other: i64) -> Step
    ensures { IsMadeFor sys.now result }
{
    Step::RaiseStep(RaisePart {
        closed: closed(rt, alloc, sys, true),
        kept: kept_unknown(rt, alloc, sys, value, other),
    })
}

fn stall(target: u32, clause: u32, used: Vec<Used>, evidence: GaveUp) -> Step
    ensures { (sys : Clauses) → IsMadeFor sys result }
{
    Step::StallStep(StallPart {
        target,
        clause,
        used: Items::from_vec(used),
        evidence,
    })
}

fn stall_last(rt: &impl Abort, alloc: Global, target: u32, value: i64, other: i64) -> Step
    ensures { (sys : Clauses) → IsMadeFor sys result }
{
    let evidence = query_given_up(rt, alloc, other);
    stall(target, 2, used_not(rt, alloc, value), evidence)
}

fn stall_first(rt: &impl Abort, alloc: Global, target: u32, value: i64) -> Step
    ensures { (sys : Clauses) → IsMadeFor sys result }
{
    let evidence = choice_given_up(rt, alloc, value);
    stall(target, 0, Vec::new(alloc), evidence)
}

fn step(rt: &impl Abort, alloc: Global, sys: &System, turn: Turn) -> Step
    ensures { IsMadeFor sys.now result }
{
    match turn {
        Turn::Open(clause, value) => open(rt, alloc, sys, clause, value, 0, 0, value),
        Turn::Other(parent, atom, cube) => open(rt, alloc, sys, 2, 3, parent, atom, cube),
        Turn::Below(parent, knows) => below(rt, alloc, sys, parent, knows),
        Turn::Learn(target, value, level, shown) => {
            learn(rt, alloc, sys, target, value, level, shown)
        }
        Turn::Zero(target) => fact(rt, alloc, sys, 0, &[0], target, &[]),
        Turn::Next(target, value, premise) => {
            let values = [value, value.wrapping_add(1)];
            fact(rt, alloc, sys, 1, &values, target, &[premise])
        }
        Turn::False(premise) => fact(rt, alloc, sys, 1, &[0], None, &[premise]),
        Turn::Nothing => fact(rt, alloc, sys, 0, &[], None, &[]),
        Turn::Lift(lemma, from, value) => lift(rt, alloc, sys, lemma, from, value),
        Turn::Raise(is_shown, first, second) => raise(rt, alloc, sys, is_shown, first, second),
        Turn::Unknown(value, other) => raise_unknown(rt, alloc, sys, value, other),
        Turn::Stall(target, value, other) => stall_last(rt, alloc, target, value, other),
        Turn::Choice(target, value) => stall_first(rt, alloc, target, value),
        Turn::First => derive(rt, alloc, sys, 0, &[0], &[]),
        Turn::Further(value, premise) => {
            let values = [value, value.wrapping_add(1)];
            derive(rt, alloc, sys, 1, &values, &[premise])
        }
        Turn::Strengthen(pred, value, level, shown) => {
            strengthen(rt, alloc, sys, pred, value, level, shown)
        }
    }
}

// answers

/// What `commit` answers.
#[derive(Clone, Copy, PartialEq, Eq)]
pub(crate) enum Told {
    Taken(u64),
    Ended(End),
    Spent(u32),
    Rule(u8, By),
    NoMemory,
}

fn answer_of(answer: Result<u64, Refused>) -> Told {
    match answer {
        Ok(number) => Told::Taken(number),
        Err(Refused::Ended { end }) => Told::Ended(end),
        Err(Refused::Spent { units }) => Told::Spent(units),
        Err(Refused::Rule { number, by }) => Told::Rule(number, by),
        Err(Refused::Memory) => Told::NoMemory,
    }
}

/// Hands a step in as worker 1.
fn take(rt: &impl Abort, alloc: Global, book: &mut Book, turn: Turn) -> Told {
    let step = step(rt, alloc, book.system(), turn);
    assert!(rt;
        has_places(book.system(), &step),
        "a place that isn't there"
    );
    answer_of(book.commit(1, step))
}

/// Hands the steps in one after another, and stops where one gets another answer than its own.
pub(crate) fn run(rt: &impl Abort, alloc: Global, book: &mut Book, turns: &[(Turn, Told)]) {
    for (i, (turn, wanted)) in turns.iter().enumerate() {
        assert!(rt; take(rt, alloc, book, *turn) == *wanted, "turn {i}");
    }
}
