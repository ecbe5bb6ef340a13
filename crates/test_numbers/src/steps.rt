//! Steps of refutations that are tried by themselves: leaves and roundings of literals that were
//! worked out by hand.

use crate::made::{divisor, form};
use farkas_proof::{CheckStop, derived, is_leaf};
use lin_atoms::{Lin, Lit};
use std::alloc::Global;
use std::mem;
use std::process::Abort;

const MOST: i64 = i64::MAX;

type Multipliers = &'static [(u32, i64)];

/// `x <= 3`, `x >= 4`, `x >= 3`, `2x = 7`, and 3 divides x.
fn lits(rt: &impl Abort, alloc: Global) -> Vec<Lit> {
    let first = Lit::Le(form(rt, alloc, &[1], -3));
    let second = Lit::Le(form(rt, alloc, &[-1], 4));
    let third = Lit::Le(form(rt, alloc, &[-1], 3));
    let fourth = Lit::Eq(form(rt, alloc, &[2], -7));
    let fifth = Lit::Div(divisor(rt, 3), form(rt, alloc, &[1], 0));
    Vec::from_array(alloc, [first, second, third, fourth, fifth]).expect(rt, "memory")
}

const LEAVES: [(Multipliers, bool); 9] = [
    (&[(0, 1), (1, 1)], true),
    // the sum of these is 0
    (&[(0, 1), (2, 1)], false),
    (&[], false),
    // x is left
    (&[(0, 1), (1, 2)], false),
    // 2x >= 8, where 2x is 7
    (&[(1, 2), (3, 1)], true),
    (&[(0, -1), (2, -1)], false),
    (&[(0, 1), (5, 1)], false),
    (&[(4, 1)], false),
    // sums on the way have 64 bits and more
    (&[(0, MOST), (1, MOST), (0, MOST), (1, MOST)], true),
];

#[test]
fn leaves_are_tried_without_a_tree(rt: HostRuntime) {
    let lits = lits(&rt, rt.alloc());
    for (multipliers, holds) in LEAVES {
        let found = is_leaf(rt.alloc(), lits.as_slice(), multipliers).expect(&rt, "memory");
        assert!(rt; found == holds);
    }
    mem::forget(lits);
}

/// What a rounding gives: a multiple of x and a constant whose sum is at most 0, or why it doesn't.
#[derive(Clone, Copy, PartialEq, Eq)]
enum Answer {
    AtMostZero(i64, i128),
    NoProof,
    SumWide,
    Other,
}

fn of_form(lin: &Lin) -> Answer {
    let terms = lin.terms();
    if terms.len() != 1 || terms[0].0 != 0 {
        return Answer::Other;
    }
    Answer::AtMostZero(terms[0].1, lin.constant())
}

fn of_literal(lit: &Lit) -> Answer {
    match lit {
        Lit::Le(lin) => of_form(lin),
        _ => Answer::Other,
    }
}

/// The answer, where it is that of node 0.
fn first(node: u32, answer: Answer) -> Answer {
    if node == 0 { answer } else { Answer::Other }
}

fn answer_to(alloc: Global, lits: &[Lit], multipliers: &[(u32, i64)], divisor: i64) -> Answer {
    match derived(alloc, lits, multipliers, divisor) {
        Ok(lit) => {
            let answer = of_literal(&lit);
            mem::forget(lit);
            answer
        }
        Err(CheckStop::NoProof { node }) => first(node, Answer::NoProof),
        Err(CheckStop::SumWide { node }) => first(node, Answer::SumWide),
        Err(CheckStop::Memory) => Answer::Other,
    }
}

const ROUNDINGS: [(Multipliers, i64, Answer); 9] = [
    // 2x is at most 7, and at least 7
    (&[(3, 1)], 2, Answer::AtMostZero(1, -3)),
    (&[(3, -1)], 2, Answer::AtMostZero(-1, 4)),
    (&[(3, 1)], 1, Answer::AtMostZero(2, -7)),
    (&[(3, 1)], 3, Answer::NoProof),
    (&[(3, 1)], 0, Answer::NoProof),
    (&[(3, 1)], -2, Answer::NoProof),
    (&[(0, -1)], 1, Answer::NoProof),
    // twice that multiplier has no room, unless it is divided
    (&[(3, MOST)], 1, Answer::SumWide),
    (&[(3, MOST)], MOST, Answer::AtMostZero(2, -7)),
];

#[test]
fn roundings_are_tried_without_a_tree(rt: HostRuntime) {
    let lits = lits(&rt, rt.alloc());
    for (multipliers, divisor, answer) in ROUNDINGS {
        assert!(rt; answer_to(rt.alloc(), lits.as_slice(), multipliers, divisor) == answer);
    }
    mem::forget(lits);
}
