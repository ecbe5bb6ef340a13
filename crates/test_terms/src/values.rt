//! Values of terms. No arena is let go, since that costs a proof.

use crate::arenas::{apply, put};
use base::Items;
use std::alloc::Global;
use std::mem;
use std::process::Abort;
use term_tree::{Node, OpKind, Sort, TermId, Terms, Value, ValueStop, value};

fn worth(
    rt: &impl Abort,
    alloc: Global,
    terms: &Terms,
    id: TermId,
    env: &[Value],
) -> Result<Value, ValueStop> {
    assert!(rt; (id.0 as usize) < terms.len());
    value(alloc, terms, id, env)
}

/// Whether a term has this value.
fn has_value(
    rt: &impl Abort,
    alloc: Global,
    terms: &Terms,
    id: TermId,
    env: &[Value],
    expected: Value,
) -> bool {
    match worth(rt, alloc, terms, id, env) {
        Ok(value) => value == expected,
        Err(_) => false,
    }
}

/// The operator at variables that have these values.
fn at_values(
    rt: &impl Abort,
    alloc: Global,
    op: OpKind,
    values: &[Value],
) -> Result<Value, ValueStop> {
    let mut terms = Terms::new(alloc);
    let mut args = Vec::new(alloc);
    for (i, value) in values.iter().enumerate() {
        assert!(rt; i < 100);
        let sort = match value {
            Value::Int(_) => Sort::Int,
            Value::Bool(_) => Sort::Bool,
        };
        let binder = i as u32;
        let var = put(rt, &mut terms, Node::Var { binder, sort }, 0);
        args.push(var).expect(rt, "memory");
    }
    let id = apply(rt, alloc, &mut terms, op, args.as_slice());
    let found = worth(rt, alloc, &terms, id, values);
    mem::forget(terms);
    found
}

/// Whether the operator at variables of these values has this value.
fn gives(rt: &impl Abort, alloc: Global, op: OpKind, values: &[Value], expected: Value) -> bool {
    match at_values(rt, alloc, op, values) {
        Ok(value) => value == expected,
        Err(_) => false,
    }
}

const TRUE: Value = Value::Bool(true);

const FALSE: Value = Value::Bool(false);

const ONE: Value = Value::Int(1);

const TWO: Value = Value::Int(2);

/// An operator at values, and what it gives.
const TRUTHS: [(OpKind, &'static [Value], Value); 20] = [
    (OpKind::Not, &[TRUE], FALSE),
    (OpKind::Not, &[FALSE], TRUE),
    (OpKind::And, &[TRUE, TRUE, TRUE], TRUE),
    (OpKind::And, &[TRUE, TRUE, FALSE], FALSE),
    (OpKind::And, &[FALSE], FALSE),
    (OpKind::Or, &[FALSE, FALSE, TRUE], TRUE),
    (OpKind::Or, &[FALSE, FALSE], FALSE),
    (OpKind::Xor, &[TRUE, TRUE], FALSE),
    (OpKind::Xor, &[TRUE, TRUE, TRUE], TRUE),
    (OpKind::Xor, &[TRUE, FALSE, TRUE, FALSE], FALSE),
    (OpKind::Implies, &[TRUE, FALSE], FALSE),
    (OpKind::Implies, &[FALSE, FALSE], TRUE),
    (OpKind::Implies, &[FALSE, TRUE, FALSE], TRUE),
    (OpKind::Implies, &[TRUE, TRUE, FALSE], FALSE),
    (OpKind::Eq, &[FALSE, FALSE, FALSE], TRUE),
    (OpKind::Eq, &[FALSE, FALSE, TRUE], FALSE),
    (OpKind::Distinct, &[TRUE, FALSE], TRUE),
    (OpKind::Distinct, &[TRUE, FALSE, TRUE], FALSE),
    (OpKind::Ite, &[TRUE, ONE, TWO], ONE),
    (OpKind::Ite, &[FALSE, ONE, TWO], TWO),
];

#[test]
fn truth_values_are_those_of_the_theory_core(rt: HostRuntime) {
    for (i, (op, values, expected)) in TRUTHS.iter().enumerate() {
        assert!(rt; gives(&rt, rt.alloc(), *op, values, *expected), "case {i}");
    }
}

fn integers(rt: &impl Abort, alloc: Global, values: &[i128]) -> Vec<Value> {
    let mut args = Vec::new(alloc);
    for value in values {
        args.push(Value::Int(*value)).expect(rt, "memory");
    }
    args
}

/// Whether the operator at integers has this value.
fn computes(rt: &impl Abort, alloc: Global, op: OpKind, values: &[i128], expected: Value) -> bool {
    let args = integers(rt, alloc, values);
    gives(rt, alloc, op, args.as_slice(), expected)
}

const COMPARISONS: [(OpKind, &'static [i128], bool); 12] = [
    (OpKind::Eq, &[5, 5, 5], true),
    (OpKind::Eq, &[5, 5, -5], false),
    (OpKind::Distinct, &[1, 2, 3], true),
    (OpKind::Distinct, &[1, 2, 1], false),
    (OpKind::Le, &[-1, -1, 0], true),
    (OpKind::Le, &[1, 2, 1], false),
    (OpKind::Lt, &[-3, -2, 7], true),
    (OpKind::Lt, &[1, 2, 2], false),
    (OpKind::Ge, &[3, 3, -4], true),
    (OpKind::Ge, &[3, 2, 3], false),
    (OpKind::Gt, &[3, 2, 1], true),
    (OpKind::Gt, &[3, 3], false),
];

#[test]
fn comparisons_are_chained_and_distinct_is_pairwise(rt: HostRuntime) {
    for (i, (op, values, expected)) in COMPARISONS.iter().enumerate() {
        let expected = Value::Bool(*expected);
        assert!(rt;
            computes(&rt, rt.alloc(), *op, values, expected),
            "case {i}"
        );
    }
}

const INTEGERS: [(OpKind, &'static [i128], i128); 19] = [
    (OpKind::Add, &[7], 7),
    (OpKind::Add, &[7, -9, 1], -1),
    (OpKind::Mul, &[-3, 4, -5], 60),
    (OpKind::Sub, &[4], -4),
    (OpKind::Sub, &[10, 3, 4], 3),
    (OpKind::Abs, &[-6], 6),
    (OpKind::Abs, &[6], 6),
    (OpKind::Div, &[7, 2], 3),
    (OpKind::Mod, &[7, 2], 1),
    (OpKind::Div, &[-7, 2], -4),
    (OpKind::Mod, &[-7, 2], 1),
    (OpKind::Div, &[7, -2], -3),
    (OpKind::Mod, &[7, -2], 1),
    (OpKind::Div, &[-7, -2], 4),
    (OpKind::Mod, &[-7, -2], 1),
    (OpKind::Mod, &[i128::MIN, -1], 0),
    // up to the ends of 128 bits
    (OpKind::Add, &[i128::MAX, 0], i128::MAX),
    (OpKind::Add, &[i128::MIN, i128::MAX, 1], 0),
    (OpKind::Sub, &[i128::MAX], i128::MIN + 1),
];

#[test]
fn integers_are_those_of_the_theory_ints(rt: HostRuntime) {
    for (i, (op, values, expected)) in INTEGERS.iter().enumerate() {
        let expected = Value::Int(*expected);
        assert!(rt;
            computes(&rt, rt.alloc(), *op, values, expected),
            "case {i}"
        );
    }
}

/// Whether the operator's value, or one on the way to it, is too wide, and that is told of its term.
fn is_wide(rt: &impl Abort, alloc: Global, op: OpKind, values: &[i128]) -> bool {
    let args = integers(rt, alloc, values);
    match at_values(rt, alloc, op, args.as_slice()) {
        Err(ValueStop::ValueWide { term }) => term.0 as usize == values.len(),
        _ => false,
    }
}

const WIDE: [(OpKind, &'static [i128]); 7] = [
    (OpKind::Mul, &[9_223_372_036_854_775_807, i128::MAX]),
    (OpKind::Add, &[i128::MAX, 1, -1]),
    (OpKind::Mul, &[i128::MAX, 2, 0]),
    (OpKind::Sub, &[i128::MIN]),
    (OpKind::Sub, &[i128::MIN, 1, -1]),
    (OpKind::Abs, &[i128::MIN]),
    (OpKind::Div, &[i128::MIN, -1]),
];

#[test]
fn a_value_or_prefix_past_128_bits_stops_at_its_term(rt: HostRuntime) {
    for (i, (op, values)) in WIDE.iter().enumerate() {
        assert!(rt; is_wide(&rt, rt.alloc(), *op, values), "case {i}");
    }
}

#[test]
fn shared_bindings_are_evaluated_once(rt: HostRuntime) {
    let alloc = rt.alloc();
    let mut terms = Terms::new(alloc);
    let mut sum = put(&rt, &mut terms, Node::Num(1), 0);
    for _ in 0..100 {
        let left = put(&rt, &mut terms, Node::LetVar { bound: sum }, 0);
        let right = put(&rt, &mut terms, Node::LetVar { bound: sum }, 0);
        sum = apply(&rt, alloc, &mut terms, OpKind::Add, &[left, right]);
    }
    assert!(rt; has_value(&rt, alloc, &terms, sum, &[], Value::Int(1 << 100)));
    mem::forget(terms);
}

#[test]
fn let_binds_and_divisibility_counts_every_sign(rt: HostRuntime) {
    let alloc = rt.alloc();
    let mut terms = Terms::new(alloc);
    let variable = Node::Var {
        binder: 0,
        sort: Sort::Int,
    };
    let x = put(&rt, &mut terms, variable, 0);
    let name = put(&rt, &mut terms, Node::LetVar { bound: x }, 0);
    let divisible = put(&rt, &mut terms, Node::Divisible { by: 3, arg: name }, 0);
    let mut bound = Items::new(alloc);
    bound.push(x).expect(&rt, "memory");
    let body = divisible;
    let id = put(&rt, &mut terms, Node::Let { bound, body }, 0);
    for (n, expected) in [(-6, true), (-5, false), (0, true), (4, false), (9, true)] {
        let expected = Value::Bool(expected);
        assert!(rt;
            has_value(&rt, alloc, &terms, id, &[Value::Int(n)], expected),
            "{n}"
        );
    }
    mem::forget(terms);
}
