//! Formulas over three variables from -2 to 2, tried at each of their 125 points.

use crate::made::{divisor, form, lin, lit, pair};
use base::{Copied, Items, Same};
use lia_branch::{Decision, are_below, decide_all, have_short_constants};
use lia_cases::{are_below as are_all_below, decide, have_short_multiples};
use lia_decide::decide_back;
use lia_search::has_short_multiples;
use lin_atoms::{Form, Lit, holds};
use std::alloc::Global;
use std::mem;
use std::process::Abort;

const VARIABLES: u32 = 3;

/// Numbers that look random.
#[derive(Drop)]
struct Numbers {
    state: i64,
}

impl Numbers {
    /// The next number, from 0 to `n - 1`.
    fn below(&mut self, n: i64) -> i64 {
        self.state = self
            .state
            .wrapping_mul(6_364_136_223_846_793_005)
            .wrapping_add(1_442_695_040_888_963_407);
        if n <= 0 {
            return 0;
        }
        ((self.state >> 33) % n).wrapping_abs()
    }

    /// The next number, from -n to n.
    fn around(&mut self, n: i64) -> i64 {
        self.below(n.wrapping_mul(2).wrapping_add(1))
            .wrapping_sub(n)
    }
}

/// Half of all literals are bounds.
fn literal(rt: &impl Abort, alloc: Global, numbers: &mut Numbers) -> Lit {
    let kind = match numbers.below(6) {
        0 => 1,
        1 => 2,
        2 => 3,
        _ => 0,
    };
    let coefficients = [numbers.around(3), numbers.around(3), numbers.around(3)];
    let constant = i128::from(numbers.around(4));
    let n = divisor(rt, numbers.below(4).wrapping_add(2));
    lit(kind, n, form(rt, alloc, &coefficients, constant))
}

/// The variable, or its negative, is at most 2.
fn at_most(rt: &impl Abort, alloc: Global, variable: u32, coefficient: i64) -> Lit {
    Lit::Le(lin(rt, alloc, &[(variable, coefficient)], -2))
}

/// Each variable is from -2 to 2, and `count` other literals are true.
fn boxed(rt: &impl Abort, alloc: Global, numbers: &mut Numbers, count: i64) -> Vec<Lit> {
    let mut lits = Vec::new(alloc);
    for variable in 0..VARIABLES {
        lits.push(at_most(rt, alloc, variable, 1))
            .expect(rt, "memory");
        lits.push(at_most(rt, alloc, variable, -1))
            .expect(rt, "memory");
    }
    for _ in 0..count {
        lits.push(literal(rt, alloc, numbers)).expect(rt, "memory");
    }
    lits
}

/// Whether the formula is true at one of the points.
fn has_point(form: &Form) -> bool {
    for x in -2..3 {
        for y in -2..3 {
            for z in -2..3 {
                if holds(form, &[x, y, z]) {
                    return true;
                }
            }
        }
    }
    false
}

fn conjunction(rt: &impl Abort, alloc: Global, lits: &[Lit]) -> Form {
    let mut parts = Items::new(alloc);
    for lit in lits {
        let copy = lit.copy(alloc).expect(rt, "memory");
        parts.push(Form::Lit(copy)).expect(rt, "memory");
    }
    Form::And(parts)
}

/// Whether the decision is right, and none is given up.
fn is_right(whole: Form, decision: Decision) -> bool {
    let is_right = match &decision {
        Decision::Model(point) => point.len() == 3 && holds(&whole, point.as_slice()),
        Decision::Refuted(refuted) => !has_point(&whole) && refuted.form().equals(&whole),
        Decision::GaveUp(_) => false,
    };
    mem::forget(whole);
    mem::forget(decision);
    is_right
}

/// Decides the next conjunction.
fn check_conjunction(rt: &impl Abort, alloc: Global, numbers: &mut Numbers) {
    let count = numbers.below(5);
    let lits = boxed(rt, alloc, numbers, count);
    assert!(rt; are_below(lits.as_slice(), 3));
    assert!(rt; have_short_constants(lits.as_slice()));
    let decision = decide_all(alloc, lits.as_slice(), 3, 1000).expect(rt, "memory");
    let whole = conjunction(rt, alloc, lits.as_slice());
    mem::forget(lits);
    assert!(rt; is_right(whole, decision));
}

#[test]
fn conjunctions_are_decided(rt: HostRuntime) {
    let mut numbers = Numbers { state: 7 };
    for _ in 0..300 {
        check_conjunction(&rt, rt.alloc(), &mut numbers);
    }
}

/// A disjunction of two literals.
fn either(rt: &impl Abort, alloc: Global, numbers: &mut Numbers) -> Form {
    let first = Form::Lit(literal(rt, alloc, numbers));
    let second = Form::Lit(literal(rt, alloc, numbers));
    Form::Or(pair(rt, alloc, first, second))
}

/// A literal, or a conjunction of a literal and a disjunction.
fn part(rt: &impl Abort, alloc: Global, numbers: &mut Numbers) -> Form {
    let first = Form::Lit(literal(rt, alloc, numbers));
    if numbers.below(3) != 0 {
        return first;
    }
    let inner = either(rt, alloc, numbers);
    Form::And(pair(rt, alloc, first, inner))
}

/// A literal, or a disjunction of two parts.
fn lemma(rt: &impl Abort, alloc: Global, numbers: &mut Numbers) -> Form {
    if numbers.below(4) == 0 {
        return Form::Lit(literal(rt, alloc, numbers));
    }
    let first = part(rt, alloc, numbers);
    let second = part(rt, alloc, numbers);
    Form::Or(pair(rt, alloc, first, second))
}

/// From one to four lemmas.
fn lemmas(rt: &impl Abort, alloc: Global, numbers: &mut Numbers) -> Vec<Form> {
    let mut lemmas = Vec::new(alloc);
    for _ in 0..numbers.below(4).wrapping_add(1) {
        lemmas.push(lemma(rt, alloc, numbers)).expect(rt, "memory");
    }
    lemmas
}

fn add_copy(rt: &impl Abort, alloc: Global, parts: &mut Items<Form>, form: &Form) {
    let copy = form.copy(alloc).expect(rt, "memory");
    parts.push(copy).expect(rt, "memory");
}

/// The conjunction of a form and lemmas.
fn joined(rt: &impl Abort, alloc: Global, form: &Form, lemmas: &[Form]) -> Form {
    let mut parts = Items::new(alloc);
    add_copy(rt, alloc, &mut parts, form);
    for lemma in lemmas {
        add_copy(rt, alloc, &mut parts, lemma);
    }
    Form::And(parts)
}

/// Whether the form under the lemmas is decided rightly.
fn is_decided(rt: &impl Abort, alloc: Global, form: &Form, lemmas: &[Form]) -> bool {
    assert!(rt; form.is_below(3));
    assert!(rt; has_short_multiples(form));
    assert!(rt; are_all_below(lemmas, 3));
    assert!(rt; have_short_multiples(lemmas));
    let decision = decide(alloc, form, lemmas, 3, 1000).expect(rt, "memory");
    is_right(joined(rt, alloc, form, lemmas), decision)
}

/// The conjunction of the next literal and the bounds of all variables.
fn bounded(rt: &impl Abort, alloc: Global, numbers: &mut Numbers) -> Form {
    let lits = boxed(rt, alloc, numbers, 1);
    let whole = conjunction(rt, alloc, lits.as_slice());
    mem::forget(lits);
    whole
}

/// Decides the next formula with lemmas.
fn check_formula(rt: &impl Abort, alloc: Global, numbers: &mut Numbers) {
    let form = bounded(rt, alloc, numbers);
    let lemmas = lemmas(rt, alloc, numbers);
    assert!(rt; is_decided(rt, alloc, &form, lemmas.as_slice()));
    mem::forget(form);
    mem::forget(lemmas);
}

/// Goes back in the next formula with lemmas, of which `taken` literals join at once.
fn check_going_back(rt: &impl Abort, alloc: Global, numbers: &mut Numbers, taken: usize) {
    let form = bounded(rt, alloc, numbers);
    let lemmas = lemmas(rt, alloc, numbers);
    let whole = joined(rt, alloc, &form, lemmas.as_slice());
    mem::forget(form);
    mem::forget(lemmas);
    let found = decide_back(alloc, &whole, taken, 3, 1000).expect(rt, "memory");
    let decision = found.expect(rt, "a decision");
    assert!(rt; is_right(whole, decision));
}

#[test]
fn formulas_are_decided_by_going_back(rt: HostRuntime) {
    let mut numbers = Numbers { state: 13 };
    for taken in 0..120 {
        check_going_back(&rt, rt.alloc(), &mut numbers, taken / 8);
    }
}

#[test]
fn formulas_with_lemmas_are_decided(rt: HostRuntime) {
    let mut numbers = Numbers { state: 11 };
    for _ in 0..150 {
        check_formula(&rt, rt.alloc(), &mut numbers);
    }
}
