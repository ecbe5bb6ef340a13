//! What the steps of the runs are made of: lemmas, instances, proofs, and evidence. What isn't wanted any more
//! isn't let go, since that costs a proof.

ghost use Rattle.std.specs.Prelude.{◌≡◌, ◌∷◌, [], true};
ghost use Rattle.lin_atoms.specs.declared.form.Form.TheVariants.{Lit as Literal};
ghost use Rattle.lin_atoms.specs.declared.form.Form.TheViews.{And, Or};
ghost use Rattle.chc_tokens.specs.Tokens.{IsNoLift, IsShownToken, is_seen};

use crate::clauses::{next, values};
use crate::lits::{is, lin, not};
use base::{Copied, Items};
use chc_tokens::{
    Goal, NoLift, Seen, Shown, Used, Why, are_short, checked_query_of, fits_head, has_values,
    no_lift, seen, shown,
};
use clause_form::System;
use cube_forms::Lemma;
use farkas_proof::check;
use lin_atoms::{Form, Lit};
use refutation_trees::{Evidence, GaveUp, Refutation};
use std::alloc::Global;
use std::mem;
use std::process::Abort;

/// A lemma on a body atom.
pub(crate) fn used(rt: &impl Abort, alloc: Global, atom: u32, lemma: Lemma) -> Vec<Used> {
    Vec::from_array(alloc, [Used { atom, lemma }]).expect(rt, "memory")
}

/// 'Not this value' on the body atom.
pub(crate) fn used_not(rt: &impl Abort, alloc: Global, value: i64) -> Vec<Used> {
    used(rt, alloc, 0, not(rt, alloc, value))
}

/// The instance of a clause at the values of its variables.
pub(crate) fn instance(
    rt: &impl Abort,
    alloc: Global,
    sys: &System,
    clause: u32,
    values: &[i64],
) -> Seen
    ensures { is_seen sys.now result ≡ true }
{
    let point = Vec::from_slice(alloc, values).expect(rt, "memory");
    assert!(rt;
        has_values(sys, clause, point.as_slice()),
        "other variables"
    );
    assert!(rt; are_short(point.as_slice()), "a value of -2^63");
    seen(sys, clause, point).expect(rt, "an instance")
}

// proofs

pub(crate) fn leaf(rt: &impl Abort, alloc: Global, multipliers: &[(u32, i64)]) -> Refutation {
    Refutation::Leaf {
        multipliers: Items::from_slice(alloc, multipliers).expect(rt, "memory"),
    }
}

/// By the cases of the first disjunction, each with a leaf.
pub(crate) fn by_cases(
    rt: &impl Abort,
    alloc: Global,
    first: &[(u32, i64)],
    second: &[(u32, i64)],
) -> Refutation {
    let mut subs = Items::new(alloc);
    subs.push(leaf(rt, alloc, first)).expect(rt, "memory");
    subs.push(leaf(rt, alloc, second)).expect(rt, "memory");
    Refutation::Cases { which: 0, subs }
}

/// The token of a query of the clause, with this refutation.
pub(crate) fn token(
    rt: &impl Abort,
    alloc: Global,
    sys: &System,
    clause: u32,
    goal: Goal,
    used: Vec<Used>,
    proof: Refutation,
) -> Shown
    ensures { IsShownToken sys.now result }
{
    let found = checked_query_of(alloc, sys, clause, &goal, used.as_slice()).expect(rt, "memory");
    let form = found.expect(rt, "a query");
    let refuted = check(alloc, &form, &proof).expect(rt, "a proof");
    mem::forget(form);
    mem::forget(proof);
    shown(alloc, sys, clause, goal, used, refuted).expect(rt, "the query's proof")
}

/// Through the first clause the head, 0, isn't this value, which is above 0.
pub(crate) fn through_first(rt: &impl Abort, alloc: Global, sys: &System, value: i64) -> Shown
    ensures { IsShownToken sys.now result }
{
    let proof = leaf(rt, alloc, &[(0, 1), (1, -1)]);
    let goal = Goal::Holds(not(rt, alloc, value));
    token(rt, alloc, sys, 0, goal, Vec::new(alloc), proof)
}

/// Through the second clause the head isn't this value where the body isn't one less.
pub(crate) fn through_second(rt: &impl Abort, alloc: Global, sys: &System, value: i64) -> Shown
    ensures { IsShownToken sys.now result }
{
    let below = [(0, -1), (1, -1), (2, 1)];
    let above = [(0, 1), (1, 1), (2, 1)];
    let proof = by_cases(rt, alloc, &below, &above);
    let used = used_not(rt, alloc, value.wrapping_sub(1));
    let goal = Goal::Holds(not(rt, alloc, value));
    token(rt, alloc, sys, 1, goal, used, proof)
}

/// Through the last clause, where the body isn't 3.
pub(crate) fn through_last(rt: &impl Abort, alloc: Global, sys: &System) -> Shown
    ensures { IsShownToken sys.now result }
{
    let proof = by_cases(rt, alloc, &[(0, -1), (1, 1)], &[(0, 1), (1, 1)]);
    let used = used_not(rt, alloc, 3);
    token(rt, alloc, sys, 2, Goal::Query, used, proof)
}

/// The token that the lemma is broken by an instance of a clause.
pub(crate) fn broken_by(
    rt: &impl Abort,
    alloc: Global,
    sys: &System,
    clause: u32,
    lemma: Lemma,
    point: &[i64],
) -> NoLift
    ensures { IsNoLift sys.now result }
{
    assert!(rt; fits_head(sys, clause, &lemma), "no head");
    let point = Vec::from_slice(alloc, point).expect(rt, "memory");
    assert!(rt;
        has_values(sys, clause, point.as_slice()),
        "other variables"
    );
    assert!(rt; are_short(point.as_slice()), "a value of -2^63");
    match seen(sys, clause, point) {
        Ok(seen) => no_lift(alloc, sys, lemma, Why::Broken(seen)).expect(rt, "broken"),
        Err(_) => rt.panic("no instance"),
    }
}

/// 'Not this value' is broken by the step from the value before it.
pub(crate) fn broken(rt: &impl Abort, alloc: Global, sys: &System, value: i64) -> NoLift
    ensures { IsNoLift sys.now result }
{
    let lemma = not(rt, alloc, value);
    broken_by(rt, alloc, sys, 1, lemma, &[value.wrapping_sub(1), value])
}

// evidence: a form with a disjunction may be split at once

fn alone(rt: &impl Abort, alloc: Global, only: Form) -> Form
    ensures { result ≡ And (only ∷ []) }
{
    let parts = Vec::from_array(alloc, [only]).expect(rt, "memory");
    Form::And(Items::from_vec(parts))
}

pub(crate) fn both(rt: &impl Abort, alloc: Global, first: Form, second: Form) -> Form
    ensures { result ≡ And (first ∷ second ∷ []) }
{
    let parts = Vec::from_array(alloc, [first, second]).expect(rt, "memory");
    Form::And(Items::from_vec(parts))
}

pub(crate) fn either(rt: &impl Abort, alloc: Global, first: Lit, second: Lit) -> Form
    ensures { result ≡ Or (Literal first ∷ Literal second ∷ []) }
{
    let parts = Vec::from_array(alloc, [Form::Lit(first), Form::Lit(second)]).expect(rt, "memory");
    Form::Or(Items::from_vec(parts))
}

/// x0 is less than the value.
fn less(rt: &impl Abort, alloc: Global, value: i64) -> Lit {
    Lit::Le(lin(rt, alloc, &[(0, 1)], 1 - i128::from(value)))
}

/// x0 is more than the value.
fn more(rt: &impl Abort, alloc: Global, value: i64) -> Lit {
    Lit::Le(lin(rt, alloc, &[(0, -1)], i128::from(value) + 1))
}

/// The form of one literal and a disjunction, as given up at one inner node.
fn one_given_up(rt: &impl Abort, alloc: Global, guard: Lit, less: Lit, more: Lit) -> GaveUp {
    let base = alone(rt, alloc, Form::Lit(guard));
    let other = either(rt, alloc, less, more);
    let form = both(rt, alloc, base, other);
    GaveUp::keep(form, Evidence::Nodes { nodes: 1 })
}

/// The form of two literals and a disjunction, as given up at one inner node.
pub(crate) fn two_given_up(
    rt: &impl Abort,
    alloc: Global,
    guard: Lit,
    head: Lit,
    less: Lit,
    more: Lit,
) -> GaveUp {
    let base = both(rt, alloc, Form::Lit(guard), Form::Lit(head));
    let other = either(rt, alloc, less, more);
    let form = both(rt, alloc, base, other);
    GaveUp::keep(form, Evidence::Nodes { nodes: 1 })
}

/// The form of a disjunction and a literal, as given up at one inner node.
fn either_given_up(rt: &impl Abort, alloc: Global, guard: Items<Form>, head: Lit) -> GaveUp {
    let base = both(rt, alloc, Form::Or(guard), Form::Lit(head));
    let form = alone(rt, alloc, base);
    GaveUp::keep(form, Evidence::Nodes { nodes: 1 })
}

/// The query of the last clause under 'not this value', as given up at one inner node.
pub(crate) fn query_given_up(rt: &impl Abort, alloc: Global, value: i64) -> GaveUp {
    let guard = is(rt, alloc, 0, 3);
    let (less, more) = (less(rt, alloc, value), more(rt, alloc, value));
    one_given_up(rt, alloc, guard, less, more)
}

/// The query of the second clause whose head is this value, under 'not the other', as given up at one
/// inner node.
fn lemma_given_up(rt: &impl Abort, alloc: Global, value: i64, other: i64) -> GaveUp {
    let (guard, head) = (next(rt, alloc), is(rt, alloc, 1, value));
    let (less, more) = (less(rt, alloc, other), more(rt, alloc, other));
    two_given_up(rt, alloc, guard, head, less, more)
}

/// The query whether 0 or 7 is this value, as given up at one inner node.
pub(crate) fn choice_given_up(rt: &impl Abort, alloc: Global, value: i64) -> GaveUp {
    let guard = values(rt, alloc, &[0, 7]);
    either_given_up(rt, alloc, guard, is(rt, alloc, 0, value))
}

/// The token that it isn't known whether the goal's lemma can be lifted, by evidence of a query of the
/// second clause.
fn unknown_by(
    rt: &impl Abort,
    alloc: Global,
    sys: &System,
    goal: Goal,
    used: Items<Used>,
    evidence: GaveUp,
) -> NoLift
    ensures { IsNoLift sys.now result }
{
    let found = checked_query_of(alloc, sys, 1, &goal, used.as_slice()).expect(rt, "memory");
    match (&goal, found) {
        (Goal::Holds(lemma), Some(_)) => {
            let lemma = lemma.copy(alloc).expect(rt, "memory");
            let why = Why::Unknown {
                clause: 1,
                used,
                evidence,
            };
            no_lift(alloc, sys, lemma, why).expect(rt, "the query's evidence")
        }
        _ => rt.panic("no query"),
    }
}

/// The token that it isn't known whether 'not this value' can be lifted under 'not the other'.
pub(crate) fn unknown(
    rt: &impl Abort,
    alloc: Global,
    sys: &System,
    value: i64,
    other: i64,
) -> NoLift
    ensures { IsNoLift sys.now result }
{
    let evidence = lemma_given_up(rt, alloc, value, other);
    let goal = Goal::Holds(not(rt, alloc, value));
    let used = Items::from_vec(used_not(rt, alloc, other));
    unknown_by(rt, alloc, sys, goal, used, evidence)
}
