//! Trees that were worked out by hand, as tables: a conjunction of literals, a chain of nodes over a
//! leaf, and what the checker answers.

use crate::made::{divisor, lin};
use base::{Boxed, Items, Same};
use farkas_proof::{CheckStop, check};
use lin_atoms::{Divisor, Form, Lin, Lit};
use refutation_trees::Refutation;
use std::alloc::Global;
use std::mem;
use std::process::Abort;

const MOST: i64 = i64::MAX;

/// What the checker answers.
#[derive(Clone, Copy, PartialEq, Eq)]
pub(crate) enum Answer {
    Refuted,
    NoProof(u32),
    SumWide(u32),
    Other,
}

/// Terms of a form, or literals by number with their multipliers.
pub(crate) type Terms = &'static [(u32, i64)];

/// What a literal says of its form.
#[derive(Clone, Copy)]
pub(crate) enum Kind {
    AtMostZero,
    Zero,
    /// 3 divides it.
    Divided,
    /// 3 doesn't divide it.
    Undivided,
}

pub(crate) type Literal = (Kind, Terms, i128);

/// A node over a chain.
#[derive(Clone, Copy)]
pub(crate) enum Node {
    Round(Terms, i64),
    Quotient(u32),
    /// A split at the first variable and a constant, with a leaf for what is below.
    Split(i128, Terms),
    /// The cases of a disjunction, with a leaf for the first.
    Cases(u32, Terms),
}

/// The literals, the nodes from the leaf up, the leaf's multipliers, and the answer.
type Case = (&'static [Literal], &'static [Node], Terms, Answer);

fn says(kind: Kind, three: Divisor, lin: Lin) -> Lit {
    match kind {
        Kind::AtMostZero => Lit::Le(lin),
        Kind::Zero => Lit::Eq(lin),
        Kind::Divided => Lit::Div(three, lin),
        Kind::Undivided => Lit::NDiv(three, lin),
    }
}

fn literal(rt: &impl Abort, alloc: Global, literal: Literal) -> Form {
    let (kind, terms, constant) = literal;
    let lin = lin(rt, alloc, terms, constant);
    Form::Lit(says(kind, divisor(rt, 3), lin))
}

pub(crate) fn literals(rt: &impl Abort, alloc: Global, literals: &[Literal]) -> Items<Form> {
    let mut parts = Items::new(alloc);
    for one in literals {
        parts.push(literal(rt, alloc, *one)).expect(rt, "memory");
    }
    parts
}

/// The conjunction of the literals, which is a literal where there is one, and false where there is
/// none.
pub(crate) fn conjunction(rt: &impl Abort, alloc: Global, lits: &[Literal]) -> Form {
    if lits.is_empty() {
        return Form::False;
    }
    if lits.len() == 1 {
        return literal(rt, alloc, lits[0]);
    }
    let parts = literals(rt, alloc, lits);
    Form::And(parts)
}

fn leaf(rt: &impl Abort, alloc: Global, multipliers: &[(u32, i64)]) -> Refutation {
    let multipliers = Items::from_slice(alloc, multipliers).expect(rt, "memory");
    Refutation::Leaf { multipliers }
}

fn round(
    rt: &impl Abort,
    alloc: Global,
    multipliers: &[(u32, i64)],
    divisor: i64,
    sub: Refutation,
) -> Refutation {
    let sub = Boxed::new(alloc, sub).expect(rt, "memory");
    let multipliers = Items::from_slice(alloc, multipliers).expect(rt, "memory");
    Refutation::Round {
        multipliers,
        divisor,
        sub,
    }
}

fn quotient(rt: &impl Abort, alloc: Global, lit: u32, sub: Refutation) -> Refutation {
    let sub = Boxed::new(alloc, sub).expect(rt, "memory");
    Refutation::Quotient { lit, sub }
}

fn split(
    rt: &impl Abort,
    alloc: Global,
    lin: Lin,
    below: Refutation,
    above: Refutation,
) -> Refutation {
    let below = Boxed::new(alloc, below).expect(rt, "memory");
    let above = Boxed::new(alloc, above).expect(rt, "memory");
    Refutation::Split { lin, below, above }
}

fn cases(
    rt: &impl Abort,
    alloc: Global,
    which: u32,
    first: Refutation,
    last: Refutation,
) -> Refutation {
    let subs = Vec::from_array(alloc, [first, last]).expect(rt, "memory");
    let subs = Items::from_vec(subs);
    Refutation::Cases { which, subs }
}

fn on(rt: &impl Abort, alloc: Global, node: Node, tree: Refutation) -> Refutation {
    match node {
        Node::Round(multipliers, divisor) => round(rt, alloc, multipliers, divisor, tree),
        Node::Quotient(lit) => quotient(rt, alloc, lit, tree),
        Node::Split(constant, below) => {
            let lin = lin(rt, alloc, &[(0, 1)], constant);
            let below = leaf(rt, alloc, below);
            split(rt, alloc, lin, below, tree)
        }
        Node::Cases(which, first) => {
            let first = leaf(rt, alloc, first);
            cases(rt, alloc, which, first, tree)
        }
    }
}

fn tree(rt: &impl Abort, alloc: Global, nodes: &[Node], last: Terms) -> Refutation {
    let mut tree = leaf(rt, alloc, last);
    for node in nodes {
        tree = on(rt, alloc, *node, tree);
    }
    tree
}

fn is_leaf(tree: &Refutation, last: Terms) -> bool {
    match tree {
        Refutation::Leaf { multipliers } => multipliers.as_slice() == last,
        _ => false,
    }
}

fn is_first(lin: &Lin, constant: i128) -> bool {
    lin.constant() == constant && lin.terms() == [(0, 1)].as_slice()
}

/// What is below the node, where the tree begins with it.
fn below(node: Node, tree: &Refutation) -> Option<&Refutation> {
    let (is_node, sub) = match (node, tree) {
        (
            Node::Round(terms, by),
            Refutation::Round {
                multipliers,
                divisor,
                sub,
            },
        ) => (multipliers.as_slice() == terms && *divisor == by, sub.get()),
        (Node::Quotient(which), Refutation::Quotient { lit, sub }) => (*lit == which, sub.get()),
        (Node::Split(constant, terms), Refutation::Split { lin, below, above }) => (
            is_first(lin, constant) && is_leaf(below.get(), terms),
            above.get(),
        ),
        (Node::Cases(at, terms), Refutation::Cases { which, subs }) => match subs.as_slice() {
            [first, last] => (*which == at && is_leaf(first, terms), last),
            _ => (false, tree),
        },
        _ => (false, tree),
    };
    if is_node { Some(sub) } else { None }
}

/// Whether the tree is the nodes' over the leaf.
fn is_tree(tree: &Refutation, nodes: &[Node], last: Terms) -> bool {
    let mut here = tree;
    for node in nodes.iter().rev() {
        match below(*node, here) {
            Some(sub) => here = sub,
            None => return false,
        }
    }
    is_leaf(here, last)
}

fn answer_to(
    alloc: Global,
    form: &Form,
    proof: &Refutation,
    nodes: &[Node],
    last: Terms,
) -> Answer {
    match check(alloc, form, proof) {
        Ok(refuted) => {
            let same = refuted.form().equals(form) && is_tree(refuted.proof(), nodes, last);
            mem::forget(refuted);
            if same { Answer::Refuted } else { Answer::Other }
        }
        Err(CheckStop::NoProof { node }) => Answer::NoProof(node),
        Err(CheckStop::SumWide { node }) => Answer::SumWide(node),
        Err(CheckStop::Memory) => Answer::Other,
    }
}

pub(crate) fn is_answered(
    rt: &impl Abort,
    alloc: Global,
    form: &Form,
    nodes: &[Node],
    last: Terms,
    answer: Answer,
) -> bool {
    let tree = tree(rt, alloc, nodes, last);
    let found = answer_to(alloc, form, &tree, nodes, last);
    mem::forget(tree);
    found == answer
}

fn is_right(rt: &impl Abort, alloc: Global, case: Case) -> bool {
    let (lits, nodes, last, answer) = case;
    let form = conjunction(rt, alloc, lits);
    let is_right = is_answered(rt, alloc, &form, nodes, last, answer);
    mem::forget(form);
    is_right
}

/// -3x + 3y + 1 is at most 0, and so is 3x - 3y - 2.
const STRIP: &'static [Literal] = &[
    (Kind::AtMostZero, &[(0, -3), (1, 3)], 1),
    (Kind::AtMostZero, &[(0, 3), (1, -3)], -2),
];

/// The second literal rounded by 3, and the first by this number.
const BY_3: &'static [Node] = &[Node::Round(&[(1, 1)], 3), Node::Round(&[(0, 1)], 3)];

const BY_2: &'static [Node] = &[Node::Round(&[(1, 1)], 3), Node::Round(&[(0, 1)], 2)];

const BY_0: &'static [Node] = &[Node::Round(&[(1, 1)], 3), Node::Round(&[(0, 1)], 0)];

const BY_1: &'static [Node] = &[Node::Round(&[(1, 1)], 3), Node::Round(&[(0, 1)], 1)];

const STRIPS: [Case; 6] = [
    (STRIP, BY_3, &[(2, 1), (3, 1)], Answer::Refuted),
    (STRIP, BY_2, &[(2, 1), (3, 1)], Answer::NoProof(0)),
    (STRIP, BY_0, &[(2, 1), (3, 1)], Answer::NoProof(0)),
    (STRIP, BY_1, &[(2, 1), (3, 1)], Answer::NoProof(2)),
    (STRIP, BY_3, &[(2, 1), (3, 2)], Answer::NoProof(2)),
    (STRIP, BY_3, &[(2, 1), (3, -1)], Answer::NoProof(2)),
];

#[test]
fn strip_between_two_lines_has_no_integer_point(rt: HostRuntime) {
    for case in STRIPS {
        assert!(rt; is_right(&rt, rt.alloc(), case));
    }
}

/// Twice x is at most 0.
const DOUBLE: &'static [Literal] = &[(Kind::AtMostZero, &[(0, 2)], 0)];

const ROOM: [Case; 7] = [
    (
        DOUBLE,
        &[Node::Round(&[(0, 1 << 62)], 1)],
        &[],
        Answer::SumWide(0),
    ),
    (
        DOUBLE,
        &[Node::Round(&[(1, MOST)], 1), Node::Round(&[(0, 1)], 2)],
        &[],
        Answer::NoProof(2),
    ),
    (
        DOUBLE,
        &[
            Node::Round(&[(1, MOST), (1, 1)], 1),
            Node::Round(&[(0, 1)], 2),
        ],
        &[],
        Answer::SumWide(1),
    ),
    (
        DOUBLE,
        &[Node::Round(&[(1, -1)], 1), Node::Round(&[(0, 1)], 2)],
        &[],
        Answer::NoProof(1),
    ),
    (
        DOUBLE,
        &[Node::Round(&[(2, 1)], 1), Node::Round(&[(0, 1)], 2)],
        &[],
        Answer::NoProof(1),
    ),
    // 1 is at most 0, taken 2^64 - 1 times, and once more
    (
        &[],
        &[Node::Round(&[(0, MOST), (0, MOST), (0, 1)], 1)],
        &[(1, 1)],
        Answer::Refuted,
    ),
    (
        &[],
        &[Node::Round(&[(0, MOST), (0, MOST), (0, 2)], 1)],
        &[(1, 1)],
        Answer::SumWide(0),
    ),
];

#[test]
fn literals_have_room_up_to_their_bounds(rt: HostRuntime) {
    for case in ROOM {
        assert!(rt; is_right(&rt, rt.alloc(), case));
    }
}

const EQUATIONS: [Case; 2] = [
    // twice x is 1
    (
        &[(Kind::Zero, &[(0, 2)], -1)],
        &[Node::Round(&[(0, -1)], 2), Node::Round(&[(0, 1)], 2)],
        &[(1, 1), (2, 1)],
        Answer::Refuted,
    ),
    // v is the sum of x and y and one more than an even number, and both x and y are even
    (
        &[
            (Kind::Zero, &[(0, 1), (1, -1), (2, -1)], 0),
            (Kind::Zero, &[(0, 1), (3, -2)], -1),
            (Kind::Zero, &[(1, 1), (4, -2)], -2),
            (Kind::Zero, &[(2, 1), (5, -2)], -2),
        ],
        &[
            Node::Round(&[(1, -1), (0, 1), (2, 1), (3, 1)], 2),
            Node::Round(&[(1, 1), (0, -1), (2, -1), (3, -1)], 2),
        ],
        &[(4, 1), (5, 1)],
        Answer::Refuted,
    ),
];

#[test]
fn equations_are_taken_with_either_sign(rt: HostRuntime) {
    for case in EQUATIONS {
        assert!(rt; is_right(&rt, rt.alloc(), case));
    }
}

/// 3 divides x, and x is one more than 3y.
const OFF_BY_1: &'static [Literal] = &[
    (Kind::Divided, &[(0, 1)], 0),
    (Kind::Zero, &[(0, 1), (1, -3)], -1),
];

const ROUND: Node = Node::Round(&[(1, 1), (2, -1)], 3);

const BACK: Node = Node::Round(&[(1, -1), (2, 1)], 3);

const ABOVE: Node = Node::Round(&[(2, 1), (1, 1)], 3);

const BELOW: Node = Node::Round(&[(3, 1), (1, -1)], 3);

const QUOTIENTS: [Case; 6] = [
    (
        OFF_BY_1,
        &[BACK, ROUND, Node::Quotient(0)],
        &[(3, 1), (4, 1)],
        Answer::Refuted,
    ),
    // x is three more than 3y
    (
        &[
            (Kind::Divided, &[(0, 1)], 0),
            (Kind::Zero, &[(0, 1), (1, -3)], -3),
        ],
        &[BACK, ROUND, Node::Quotient(0)],
        &[(3, 1), (4, 1)],
        Answer::NoProof(3),
    ),
    (
        OFF_BY_1,
        &[BACK, ROUND, Node::Quotient(1)],
        &[(3, 1), (4, 1)],
        Answer::NoProof(0),
    ),
    // 3 doesn't divide x, and x is 3y
    (
        &[
            (Kind::Undivided, &[(0, 1)], 0),
            (Kind::Zero, &[(0, 1), (1, -3)], 0),
        ],
        &[BELOW, ABOVE, Node::Quotient(0)],
        &[(4, 1), (5, 1)],
        Answer::Refuted,
    ),
    (
        &[
            (Kind::Undivided, &[(0, 1)], 0),
            (Kind::Zero, &[(0, 1), (1, -3)], -1),
        ],
        &[BELOW, ABOVE, Node::Quotient(0)],
        &[(4, 1), (5, 1)],
        Answer::NoProof(3),
    ),
    // what is known of the quotient has a constant of 2^64
    (
        &[(Kind::Undivided, &[(0, 1)], 1 - (1 << 64))],
        &[Node::Quotient(0)],
        &[(1, 1)],
        Answer::SumWide(0),
    ),
];

#[test]
fn quotients_have_a_variable_of_their_own(rt: HostRuntime) {
    for case in QUOTIENTS {
        assert!(rt; is_right(&rt, rt.alloc(), case));
    }
}
