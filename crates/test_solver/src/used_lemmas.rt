//! Which lemmas refutations use, by hand.

use crate::made::{divisor, form, lin, pair};
use farkas_proof::{Refuted, check};
use lia_cases::{are_below, have_short_multiples};
use lia_search::has_short_multiples;
use lia_used::{Outcome, decide_used};
use lin_atoms::{Form, Lit};
use std::alloc::Global;
use std::mem;
use std::process::Abort;

/// `a*x + b*y + c <= 0`.
fn le(rt: &impl Abort, alloc: Global, a: i64, b: i64, c: i128) -> Form {
    Form::Lit(Lit::Le(form(rt, alloc, &[a, b], c)))
}

/// 2 divides `x + c`.
fn even(rt: &impl Abort, alloc: Global, c: i128) -> Form {
    Form::Lit(Lit::Div(divisor(rt, 2), lin(rt, alloc, &[(0, 1)], c)))
}

/// 3 doesn't divide `x + c`.
fn not_by_three(rt: &impl Abort, alloc: Global, c: i128) -> Form {
    Form::Lit(Lit::NDiv(divisor(rt, 3), lin(rt, alloc, &[(0, 1)], c)))
}

/// The number is at most `low` or at least `high`.
fn outside(rt: &impl Abort, alloc: Global, a: i64, b: i64, low: i64, high: i64) -> Form {
    let (low, high) = (-i128::from(low), i128::from(high));
    let below = le(rt, alloc, a, b, low);
    let above = le(rt, alloc, a.wrapping_neg(), b.wrapping_neg(), high);
    Form::Or(pair(rt, alloc, below, above))
}

fn outcome(rt: &impl Abort, alloc: Global, form: &Form, lemmas: &[Form], nodes: u32) -> Outcome {
    assert!(rt; nodes > 0);
    assert!(rt; form.is_below(2));
    assert!(rt; has_short_multiples(form));
    assert!(rt; are_below(lemmas, 2));
    assert!(rt; have_short_multiples(lemmas));
    decide_used(alloc, form, lemmas, 2, nodes).expect(rt, "memory")
}

/// Whether a check takes the refutation.
fn is_checked(alloc: Global, proof: &Refuted) -> bool {
    let answer = check(alloc, proof.form(), proof.proof());
    let is_checked = answer.is_ok();
    mem::forget(answer);
    is_checked
}

/// Whether the form and the lemmas are refuted by the lemmas of these numbers.
fn is_by(rt: &impl Abort, alloc: Global, form: Form, lemmas: [Form; 3], numbers: &[u32]) -> bool {
    let found = outcome(rt, alloc, &form, lemmas.as_slice(), 100);
    let is_by = match &found {
        Outcome::Refuted { proof, used } => {
            used.as_slice() == numbers && is_checked(alloc, proof)
        }
        _ => false,
    };
    mem::forget(form);
    mem::forget(lemmas);
    mem::forget(found);
    is_by
}

/// Of upper bounds of x the least one contradicts that x isn't negative.
#[test]
fn the_lemma_between_two_others_is_used_alone(rt: HostRuntime) {
    let (rt, alloc) = (&rt, rt.alloc());
    let form = le(rt, alloc, -1, 0, 0);
    let lemmas = [
        le(rt, alloc, 1, 0, -10),
        le(rt, alloc, 1, 0, 1),
        le(rt, alloc, 1, 0, -20),
    ];
    assert!(rt; is_by(rt, alloc, form, lemmas, &[1]));
}

/// x is at most 0 and at least 1.
#[test]
fn no_lemma_is_used(rt: HostRuntime) {
    let (rt, alloc) = (&rt, rt.alloc());
    let form = Form::And(pair(rt, alloc, le(rt, alloc, 1, 0, 0), le(rt, alloc, -1, 0, 1)));
    let lemmas = [
        le(rt, alloc, 1, 0, -10),
        outside(rt, alloc, 0, 1, 2, 5),
        le(rt, alloc, 0, 1, -20),
    ];
    assert!(rt; is_by(rt, alloc, form, lemmas, &[]));
}

/// x + y is at least 1; x is at most 0, y is at most 5, and y is no number from 1 to 5.
#[test]
fn all_lemmas_are_used(rt: HostRuntime) {
    let (rt, alloc) = (&rt, rt.alloc());
    let form = le(rt, alloc, -1, -1, 1);
    let lemmas = [
        le(rt, alloc, 1, 0, 0),
        le(rt, alloc, 0, 1, -5),
        outside(rt, alloc, 0, 1, 0, 6),
    ];
    assert!(rt; is_by(rt, alloc, form, lemmas, &[0, 1, 2]));
}

/// x is from 5 to 10, and isn't between 3 and 20. Nothing comes of y.
#[test]
fn a_disjunction_behind_another_one_is_used(rt: HostRuntime) {
    let (rt, alloc) = (&rt, rt.alloc());
    let form = le(rt, alloc, 1, 0, -10);
    let lemmas = [
        outside(rt, alloc, 0, 1, 0, 5),
        outside(rt, alloc, 1, 0, 3, 20),
        le(rt, alloc, -1, 0, 5),
    ];
    assert!(rt; is_by(rt, alloc, form, lemmas, &[1, 2]));
}

/// x is from 5 to 10. By the second lemma it is at least 30, or else y is at most 7 and x is at most 3 or at
/// least 20: a disjunction in a part of another one.
#[test]
fn a_disjunction_in_a_part_is_used(rt: HostRuntime) {
    let (rt, alloc) = (&rt, rt.alloc());
    let bounds = pair(rt, alloc, le(rt, alloc, 1, 0, -10), le(rt, alloc, -1, 0, 5));
    let inner = pair(
        rt,
        alloc,
        outside(rt, alloc, 1, 0, 3, 20),
        le(rt, alloc, 0, 1, -7),
    );
    let outer = pair(rt, alloc, Form::And(inner), le(rt, alloc, -1, 0, 30));
    let lemmas = [
        outside(rt, alloc, 0, 1, 0, 5),
        Form::Or(outer),
        outside(rt, alloc, 0, 1, 2, 4),
    ];
    assert!(rt; is_by(rt, alloc, Form::And(bounds), lemmas, &[1]));
}

/// 2 divides x, and x + 1 by the last lemma. The greatest variable is in a lemma that isn't used.
#[test]
fn a_divisibility_is_used(rt: HostRuntime) {
    let (rt, alloc) = (&rt, rt.alloc());
    let lemmas = [
        le(rt, alloc, 0, 1, -10),
        outside(rt, alloc, 0, 1, 0, 5),
        even(rt, alloc, 1),
    ];
    assert!(rt; is_by(rt, alloc, even(rt, alloc, 0), lemmas, &[2]));
}

/// 3 divides none of three numbers in a row, which takes a split on a quotient to see. The greatest variable
/// stays, so the quotients keep their numbers.
#[test]
fn a_split_on_a_quotient_is_kept(rt: HostRuntime) {
    let (rt, alloc) = (&rt, rt.alloc());
    let lemmas = [
        le(rt, alloc, 1, 0, -1000),
        not_by_three(rt, alloc, 1),
        not_by_three(rt, alloc, 2),
    ];
    assert!(rt; is_by(rt, alloc, not_by_three(rt, alloc, 0), lemmas, &[1, 2]));
}

/// 3 divides none of three numbers in a row, but without the first lemma the quotients would have other
/// numbers: the shorter tree isn't taken.
#[test]
fn a_split_on_a_quotient_of_another_number_needs_all_lemmas(rt: HostRuntime) {
    let (rt, alloc) = (&rt, rt.alloc());
    let lemmas = [
        le(rt, alloc, 0, 1, -10),
        not_by_three(rt, alloc, 1),
        not_by_three(rt, alloc, 2),
    ];
    assert!(rt; is_by(rt, alloc, not_by_three(rt, alloc, 0), lemmas, &[0, 1, 2]));
}

/// x is 0.
fn is_zero(found: Outcome) -> bool {
    let is_zero = match &found {
        Outcome::Model(point) => match point.as_slice().first() {
            Some(x) => *x == 0,
            None => false,
        },
        _ => false,
    };
    mem::forget(found);
    is_zero
}

fn is_given_up(found: Outcome) -> bool {
    let is_given_up = matches!(&found, Outcome::GaveUp(_));
    mem::forget(found);
    is_given_up
}

/// x is from 0 to 2. The first lemma leaves 0 alone, and both leave no number, which takes two splits to see.
#[test]
fn points_and_evidence_are_handed_on(rt: HostRuntime) {
    let (rt, alloc) = (&rt, rt.alloc());
    let form = Form::And(pair(rt, alloc, le(rt, alloc, -1, 0, 0), le(rt, alloc, 1, 0, -2)));
    let lemmas = [
        outside(rt, alloc, 1, 0, 0, 3),
        outside(rt, alloc, 1, 0, -1, 1),
    ];
    let found = outcome(rt, alloc, &form, &lemmas[..1], 10);
    assert!(rt; is_zero(found));
    let found = outcome(rt, alloc, &form, lemmas.as_slice(), 1);
    assert!(rt; is_given_up(found));
    mem::forget(form);
    mem::forget(lemmas);
}
