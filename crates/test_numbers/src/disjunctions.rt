//! Trees over disjunctions that stand in one another, and over splits, worked out by hand.

use crate::trees::{Answer, Kind, Node, Terms, conjunction, is_answered, literals};
use base::Items;
use lin_atoms::Form;
use std::alloc::Global;
use std::mem;
use std::process::Abort;

/// x is above 0 or above 1.
fn inner(rt: &impl Abort, alloc: Global) -> Form {
    let parts = literals(
        rt,
        alloc,
        &[
            (Kind::AtMostZero, &[(0, -1)], 1),
            (Kind::AtMostZero, &[(0, -1)], 2),
        ],
    );
    Form::Or(parts)
}

/// x is below 0, or above 0 or above 1.
fn outer(rt: &impl Abort, alloc: Global) -> Form {
    let inner = inner(rt, alloc);
    let mut parts = literals(rt, alloc, &[(Kind::AtMostZero, &[(0, 1)], 1)]);
    parts.push(inner).expect(rt, "memory");
    Form::Or(parts)
}

/// x is below 0, or above 0 or above 1, and it is at most 5.
fn both(rt: &impl Abort, alloc: Global) -> Form {
    let outer = outer(rt, alloc);
    let single = literals(rt, alloc, &[(Kind::AtMostZero, &[(0, 1)], -5)]);
    let parts = Vec::from_array(alloc, [outer, Form::Or(single)]).expect(rt, "memory");
    Form::And(Items::from_vec(parts))
}

/// x is below 0, or above 0 or above 1, and it is at most 5, and 0.
fn nested(rt: &impl Abort, alloc: Global) -> Form {
    let both = both(rt, alloc);
    let mut parts = literals(rt, alloc, &[(Kind::Zero, &[(0, 1)], 0)]);
    parts.push(both).expect(rt, "memory");
    Form::And(parts)
}

const INNER_0: Node = Node::Cases(0, &[(0, 1), (1, 1)]);

const INNER_1: Node = Node::Cases(1, &[(0, 1), (1, 1)]);

const NESTED: [(&'static [Node], Terms, Answer); 5] = [
    (
        &[INNER_0, Node::Cases(0, &[(0, -1), (1, 1)])],
        &[(0, 1), (1, 1)],
        Answer::Refuted,
    ),
    (
        &[INNER_0, Node::Cases(1, &[(0, -1), (1, 1)])],
        &[(0, 1), (1, 1)],
        Answer::NoProof(0),
    ),
    (
        &[INNER_0, Node::Cases(2, &[(0, -1), (1, 1)])],
        &[(0, 1), (1, 1)],
        Answer::NoProof(0),
    ),
    (
        &[INNER_1, Node::Cases(0, &[(0, -1), (1, 1)])],
        &[(0, 1), (1, 1)],
        Answer::NoProof(2),
    ),
    (
        &[INNER_0, Node::Cases(0, &[(0, -1), (1, 1)])],
        &[(0, 1), (2, 1)],
        Answer::NoProof(4),
    ),
];

#[test]
fn parts_of_a_part_stand_in_its_place(rt: HostRuntime) {
    let form = nested(&rt, rt.alloc());
    for (nodes, last, answer) in NESTED {
        assert!(rt; is_answered(&rt, rt.alloc(), &form, nodes, last, answer));
    }
    mem::forget(form);
}

/// Twice x is 1, split at these constants.
const SPLITS: [(i128, Answer); 5] = [
    (0, Answer::Refuted),
    (1, Answer::NoProof(2)),
    (-1, Answer::NoProof(1)),
    (1 - (1 << 64), Answer::SumWide(0)),
    (2 - (1 << 64), Answer::NoProof(1)),
];

fn is_split(rt: &impl Abort, alloc: Global, form: &Form, constant: i128, answer: Answer) -> bool {
    let node = Node::Split(constant, &[(0, -1), (1, 2)]);
    is_answered(rt, alloc, form, &[node], &[(0, 1), (1, 2)], answer)
}

#[test]
fn splits_leave_out_no_integer(rt: HostRuntime) {
    let form = conjunction(&rt, rt.alloc(), &[(Kind::Zero, &[(0, 2)], -1)]);
    for (constant, answer) in SPLITS {
        assert!(rt; is_split(&rt, rt.alloc(), &form, constant, answer));
    }
    mem::forget(form);
}
