//! Tokens of three clauses: `p(0)`; where `x1 = x0 + 1`, `p(x0)` gives `p(x1)`; and `p(3)` gives false. What
//! isn't wanted any more isn't let go, since that costs a proof.

ghost use Rattle.std.specs.Prelude.{◌≡◌};
ghost use Rattle.farkas_proof.specs.Kept.{form_of};

use crate::clauses::{counting_clauses, system_of};
use crate::lits::{denied, lin};
use crate::tokens::{both, by_cases, either, two_given_up, used};
use base::{Copied, Items, Same};
use chc_tokens::{
    Goal, NoLift, Shown, TokenStop, Used, Why, are_short, base_of, checked_base_of,
    checked_forms_of, checked_query_of, fits_head, forms_of, has_values, no_lift, query_of, seen,
    shown, shown_by,
};
use clause_form::System;
use cube_forms::Lemma;
use farkas_proof::{Refuted, check};
use lin_atoms::{Form, Lit};
use refutation_trees::GaveUp;
use std::alloc::Global;
use std::mem;
use std::process::Abort;

/// x1 = x0 + 1.
fn next(rt: &impl Abort, alloc: Global) -> Lit {
    Lit::Eq(lin(rt, alloc, &[(0, -1), (1, 1)], -1))
}

fn system(rt: &impl Abort, alloc: Global) -> System {
    let clauses = counting_clauses(rt, alloc, next(rt, alloc));
    system_of(rt, alloc, clauses, 1)
}

/// The lemma that a predicate's argument at that place isn't the value.
fn not_at(rt: &impl Abort, alloc: Global, place: u32, value: i128) -> Lemma {
    denied(rt, alloc, Lit::Eq(lin(rt, alloc, &[(place, -1)], value)))
}

/// The goal that the head breaks 'not this value'.
fn is_at(rt: &impl Abort, alloc: Global, value: i128) -> Goal {
    Goal::Holds(not_at(rt, alloc, 0, value))
}

/// The lemma 'not 2' on that body atom.
fn used_on(rt: &impl Abort, alloc: Global, atom: u32) -> Vec<Used> {
    used(rt, alloc, atom, not_at(rt, alloc, 0, 2))
}

/// x1 = 3.
fn three(rt: &impl Abort, alloc: Global) -> Lit {
    Lit::Eq(lin(rt, alloc, &[(1, -1)], 3))
}

/// x0 >= 3.
fn above(rt: &impl Abort, alloc: Global) -> Lit {
    Lit::Le(lin(rt, alloc, &[(0, -1)], 3))
}

/// x0 <= 1.
fn below(rt: &impl Abort, alloc: Global) -> Lit {
    Lit::Le(lin(rt, alloc, &[(0, 1)], -1))
}

/// `x1 = x0 + 1 and x1 = 3`: the second clause's guard, and that its head breaks 'not 3'.
fn wanted_base(rt: &impl Abort, alloc: Global) -> Form {
    let (guard, goal) = (Form::Lit(next(rt, alloc)), Form::Lit(three(rt, alloc)));
    both(rt, alloc, guard, goal)
}

/// `x0 >= 3 or x0 <= 1`: 'not 2' at x0.
fn wanted_lemma(rt: &impl Abort, alloc: Global) -> Form {
    either(rt, alloc, above(rt, alloc), below(rt, alloc))
}

fn wanted(rt: &impl Abort, alloc: Global) -> Form {
    let (base, lemma) = (wanted_base(rt, alloc), wanted_lemma(rt, alloc));
    both(rt, alloc, base, lemma)
}

/// Whether two forms are equal. Neither is let go.
fn are_equal(found: Form, wanted: Form) -> bool {
    let are = found.equals(&wanted);
    mem::forget(found);
    mem::forget(wanted);
    are
}

fn has_base(rt: &impl Abort, alloc: Global, sys: &System, goal: &Goal) -> bool {
    let found = checked_base_of(alloc, sys, 1, goal).expect(rt, "memory");
    let is_none = found.is_none();
    mem::forget(found);
    if is_none {
        return false;
    }
    let base = base_of(alloc, sys, 1, goal).expect(rt, "memory");
    are_equal(base, wanted_base(rt, alloc))
}

fn has_forms(rt: &impl Abort, alloc: Global, sys: &System, used: &[Used]) -> bool {
    let found = checked_forms_of(alloc, sys, 1, used).expect(rt, "memory");
    let is_none = found.is_none();
    mem::forget(found);
    if is_none {
        return false;
    }
    let forms = forms_of(alloc, sys, 1, used).expect(rt, "memory");
    let wanted = wanted_lemma(rt, alloc);
    let are = match forms.as_slice() {
        [form] => form.equals(&wanted),
        _ => false,
    };
    mem::forget(forms);
    mem::forget(wanted);
    are
}

fn has_query(rt: &impl Abort, alloc: Global, sys: &System, goal: &Goal, used: &[Used]) -> bool {
    let found = checked_query_of(alloc, sys, 1, goal, used).expect(rt, "memory");
    let is_none = found.is_none();
    mem::forget(found);
    if is_none {
        return false;
    }
    let query = query_of(alloc, sys, 1, goal, used).expect(rt, "memory");
    are_equal(query, wanted(rt, alloc))
}

/// The forms of the second clause for 'not 3' on the head and 'not 2' on the body are the wanted ones.
#[test]
fn a_query_is_the_guard_then_the_goal_then_the_used_lemmas(rt: HostRuntime) {
    let sys = system(&rt, rt.alloc());
    let goal = is_at(&rt, rt.alloc(), 3);
    let used = used_on(&rt, rt.alloc(), 0);
    assert!(rt; has_base(&rt, rt.alloc(), &sys, &goal));
    assert!(rt; has_forms(&rt, rt.alloc(), &sys, used.as_slice()));
    assert!(rt; has_query(&rt, rt.alloc(), &sys, &goal, used.as_slice()));
    mem::forget(sys);
    mem::forget(goal);
    mem::forget(used);
}

/// Whether there is a query of the clause whose head breaks a lemma of that place, and of a lemma on
/// that atom.
fn may_ask(
    rt: &impl Abort,
    alloc: Global,
    sys: &System,
    clause: u32,
    place: u32,
    atom: u32,
) -> bool {
    let goal = Goal::Holds(not_at(rt, alloc, place, 3));
    let used = used_on(rt, alloc, atom);
    let found = checked_query_of(alloc, sys, clause, &goal, used.as_slice()).expect(rt, "memory");
    let may = found.is_some();
    mem::forget(found);
    mem::forget(goal);
    mem::forget(used);
    may
}

#[test]
fn there_is_no_query_of_what_is_not_there(rt: HostRuntime) {
    let sys = system(&rt, rt.alloc());
    for (clause, place, atom, wanted) in [
        (1, 0, 0, true),
        (2, 0, 0, false),
        (3, 0, 0, false),
        (1, 1, 0, false),
        (1, 0, 1, false),
        (0, 0, 0, false),
    ] {
        let may = may_ask(&rt, rt.alloc(), &sys, clause, place, atom);
        assert!(rt;
            may == wanted,
            "clause {clause}, place {place}, atom {atom}"
        );
    }
    mem::forget(sys);
}

/// Where x0 >= 3, `x1 = x0 + 1` leaves x1 >= 4, and where x0 <= 1, x1 <= 2.
fn refuted(rt: &impl Abort, alloc: Global, form: &Form) -> Refuted
    ensures { form_of result ≡ form.now }
{
    let above = [(0, -1), (1, -1), (2, 1)];
    let below = [(0, 1), (1, 1), (2, 1)];
    let proof = by_cases(rt, alloc, &above, &below);
    let refuted = check(alloc, form, &proof).expect(rt, "a proof");
    mem::forget(proof);
    refuted
}

/// Whether the token and its copy have these parts.
fn is_wanted(rt: &impl Abort, alloc: Global, token: Shown, goal: Goal) -> bool {
    let copied = token.copy(alloc).expect(rt, "memory");
    let is_goal = token.goal().equals(&goal) && copied.goal().equals(&goal);
    let is = is_goal && copied.clause() == 1 && copied.used().len() == token.used().len();
    mem::forget(copied);
    mem::forget(token);
    mem::forget(goal);
    is
}

/// What `shown` answers for the second clause.
fn answer(
    rt: &impl Abort,
    alloc: Global,
    sys: &System,
    goal: Goal,
    used: Vec<Used>,
    proof: Refuted,
) -> Result<Shown, TokenStop> {
    let found = checked_query_of(alloc, sys, 1, &goal, used.as_slice()).expect(rt, "memory");
    let is_some = found.is_some();
    mem::forget(found);
    assert!(rt; is_some);
    shown(alloc, sys, 1, goal, used, proof)
}

/// A proof of the wanted form.
fn wanted_proof(rt: &impl Abort, alloc: Global) -> Refuted {
    let form = wanted(rt, alloc);
    let proof = refuted(rt, alloc, &form);
    mem::forget(form);
    proof
}

/// Whether `shown` keeps the proof of the wanted form for the query about this value.
fn is_kept(rt: &impl Abort, alloc: Global, sys: &System, value: i128) -> bool {
    let (goal, used) = (is_at(rt, alloc, value), used_on(rt, alloc, 0));
    match answer(rt, alloc, sys, goal, used, wanted_proof(rt, alloc)) {
        Ok(token) => is_wanted(rt, alloc, token, is_at(rt, alloc, value)),
        Err(stop) => {
            assert!(rt; matches!(stop, TokenStop::OtherForm), "another stop");
            false
        }
    }
}

/// A token of a query whose very form was just refuted.
fn just_refuted(
    rt: &impl Abort,
    alloc: Global,
    sys: &System,
    goal: Goal,
    used: Vec<Used>,
) -> Shown {
    let found = checked_query_of(alloc, sys, 1, &goal, used.as_slice()).expect(rt, "memory");
    let form = found.expect(rt, "a query");
    let proof = refuted(rt, alloc, &form);
    mem::forget(form);
    shown_by(sys, 1, goal, used, proof)
}

#[test]
fn a_proof_is_kept_for_its_own_query_alone(rt: HostRuntime) {
    let sys = system(&rt, rt.alloc());
    for (value, wanted) in [(3, true), (4, false)] {
        let kept = is_kept(&rt, rt.alloc(), &sys, value);
        assert!(rt; kept == wanted, "{value}");
    }
    mem::forget(sys);
}

#[test]
fn a_form_that_was_just_refuted_is_not_made_again(rt: HostRuntime) {
    let sys = system(&rt, rt.alloc());
    let (goal, used) = (is_at(&rt, rt.alloc(), 3), used_on(&rt, rt.alloc(), 0));
    let token = just_refuted(&rt, rt.alloc(), &sys, goal, used);
    let goal = is_at(&rt, rt.alloc(), 3);
    assert!(rt; is_wanted(&rt, rt.alloc(), token, goal));
    mem::forget(sys);
}

fn point(rt: &impl Abort, alloc: Global, x0: i64, x1: i64) -> Vec<i64> {
    Vec::from_array(alloc, [x0, x1]).expect(rt, "memory")
}

/// Whether `seen` keeps x0 and x1 as an instance of the second clause.
fn is_instance(rt: &impl Abort, alloc: Global, sys: &System, x0: i64, x1: i64) -> bool {
    let point = point(rt, alloc, x0, x1);
    assert!(rt;
        has_values(sys, 1, point.as_slice()),
        "a point of other variables"
    );
    assert!(rt; are_short(point.as_slice()), "a value of -2^63");
    match seen(sys, 1, point) {
        Ok(seen) => {
            let copied = seen.copy(alloc).expect(rt, "memory");
            let is = copied.point() == [x0, x1].as_slice();
            mem::forget(copied);
            mem::forget(seen);
            is
        }
        Err(stop) => {
            assert!(rt; matches!(stop, TokenStop::NoInstance), "another stop");
            false
        }
    }
}

/// What `no_lift` answers for a lemma and the second clause's instance at that point.
fn broken(
    rt: &impl Abort,
    alloc: Global,
    sys: &System,
    lemma: Lemma,
    point: Vec<i64>,
) -> Result<NoLift, TokenStop> {
    assert!(rt; fits_head(sys, 1, &lemma), "no head");
    assert!(rt;
        has_values(sys, 1, point.as_slice()),
        "a point of other variables"
    );
    assert!(rt; are_short(point.as_slice()), "a value of -2^63");
    match seen(sys, 1, point) {
        Ok(seen) => no_lift(alloc, sys, lemma, Why::Broken(seen)),
        Err(_) => rt.panic("no instance"),
    }
}

/// Whether `no_lift` keeps 'not this value' for the instance at 2 and 3.
fn is_broken(rt: &impl Abort, alloc: Global, sys: &System, value: i128) -> bool {
    let (lemma, point) = (not_at(rt, alloc, 0, value), point(rt, alloc, 2, 3));
    match broken(rt, alloc, sys, lemma, point) {
        Ok(kept) => {
            mem::forget(kept);
            true
        }
        Err(stop) => {
            assert!(rt; matches!(stop, TokenStop::NotBroken), "another stop");
            false
        }
    }
}

#[test]
fn an_instance_breaks_what_its_head_breaks(rt: HostRuntime) {
    let sys = system(&rt, rt.alloc());
    for (value, wanted) in [(2, false), (3, true), (4, false)] {
        let is = is_instance(&rt, rt.alloc(), &sys, 2, value);
        assert!(rt; is == wanted, "2 and {value}");
        let broken = is_broken(&rt, rt.alloc(), &sys, i128::from(value));
        assert!(rt; broken == wanted, "not {value}");
    }
    mem::forget(sys);
}

#[test]
fn the_values_of_an_instance_are_below_2_to_63(rt: HostRuntime) {
    let sys = system(&rt, rt.alloc());
    assert!(rt; is_instance(&rt, rt.alloc(), &sys, -i64::MAX, 1 - i64::MAX));
    assert!(rt; are_short(&[-i64::MAX, i64::MAX]));
    assert!(rt; !are_short(&[0, i64::MIN]));
    mem::forget(sys);
}

/// Evidence that the wanted form was given up: a split tree may begin with the cases of its
/// disjunction.
fn evidence(rt: &impl Abort, alloc: Global) -> GaveUp {
    let (guard, goal) = (next(rt, alloc), three(rt, alloc));
    let (above, below) = (above(rt, alloc), below(rt, alloc));
    two_given_up(rt, alloc, guard, goal, above, below)
}

/// Whether it is a token, with a copy of the same lemma.
fn is_token(rt: &impl Abort, alloc: Global, made: Result<NoLift, TokenStop>) -> bool {
    match made {
        Ok(kept) => {
            let copied = kept.copy(alloc).expect(rt, "memory");
            let is = copied.lemma().equals(kept.lemma());
            mem::forget(copied);
            mem::forget(kept);
            is
        }
        Err(stop) => {
            assert!(rt; matches!(stop, TokenStop::OtherForm), "another stop");
            false
        }
    }
}

/// What `no_lift` answers for a lemma with evidence of a query of the second clause.
fn unknown(
    rt: &impl Abort,
    alloc: Global,
    sys: &System,
    goal: Goal,
    used: Items<Used>,
    evidence: GaveUp,
) -> Result<NoLift, TokenStop> {
    let found = checked_query_of(alloc, sys, 1, &goal, used.as_slice()).expect(rt, "memory");
    match (&goal, found) {
        (Goal::Holds(lemma), Some(_)) => {
            let lemma = lemma.copy(alloc).expect(rt, "memory");
            let why = Why::Unknown {
                clause: 1,
                used,
                evidence,
            };
            no_lift(alloc, sys, lemma, why)
        }
        _ => rt.panic("no query"),
    }
}

/// Whether `no_lift` keeps 'not this value' with evidence of the wanted form.
fn is_unknown(rt: &impl Abort, alloc: Global, sys: &System, value: i128) -> bool {
    let (goal, used) = (
        is_at(rt, alloc, value),
        Items::from_vec(used_on(rt, alloc, 0)),
    );
    let made = unknown(rt, alloc, sys, goal, used, evidence(rt, alloc));
    is_token(rt, alloc, made)
}

#[test]
fn evidence_keeps_the_lemma_of_its_own_query_alone(rt: HostRuntime) {
    let sys = system(&rt, rt.alloc());
    for (value, wanted) in [(3, true), (4, false)] {
        let kept = is_unknown(&rt, rt.alloc(), &sys, value);
        assert!(rt; kept == wanted, "not {value}");
    }
    mem::forget(sys);
}
