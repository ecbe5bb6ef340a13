//! The bound of a term's numbers, by those of its parts.

ghost use Rattle.std.specs.Prelude.{◌≡◌, ◌+◌, ◌*◌};
ghost use Rattle.term_tables.specs.machinery.Table.{constant_in};
ghost use Rattle.term_widths.specs.machinery.Room.{bound_in, bounded_as, factor, greater, if_bounded, node_bound, operation_bound, product_from, short_bound, sum_from};

use crate::kept::Kept;
use term_tables::ConstantTable;
use term_tree::{Node, OpKind, TermId};

/// What is kept of the term of that number; nothing of one that isn't there.
pub(crate) fn bound_in(known: &[Kept], id: TermId) -> Option<u64>
    ensures { result ≡ bound_in known.now id.0 }
{
    let place = id.0 as usize;
    if place < known.len() {
        known[place].bound()
    } else {
        None
    }
}

/// The number, where it is below 2^63.
fn short_bound(n: u128) -> Option<u64>
    ensures { result ≡ short_bound n }
{
    if n < 1 << 63 { Some(n as u64) } else { None }
}

fn added(n: u64, bound: Option<u64>) -> Option<u64>
    ensures { result ≡ if_bounded bound (λ m. short_bound (n + m)) }
{
    match bound {
        None => None,
        Some(m) => short_bound(u128::from(n) + u128::from(m)),
    }
}

/// The sum of the bounds of these terms, where it is short.
fn sum(known: &[Kept], ids: &[TermId]) -> Option<u64>
    ensures { result ≡ sum_from (bound_in known.now) 0 ids.now }
{
    let mut total = 0;
    for id in ids {
        match added(total, bound_in(known, *id)) {
            Some(more) => total = more,
            None => return None,
        }
    }
    Some(total)
}

fn greater(a: u64, b: u64) -> u64
    ensures { result ≡ greater a b }
{
    if a < b { b } else { a }
}

/// What a factor is at most: its form, or its value where it is constant, or 1.
fn factor(bound: u64, constant: Option<i64>) -> u64
    ensures { result ≡ factor bound constant }
{
    match constant {
        None => greater(1, bound),
        Some(n) => greater(greater(1, bound), n.unsigned_abs()),
    }
}

fn exact_product(a: u64, b: u64) -> u128
    ensures { result ≡ a * b }
{
    u128::from(a) * u128::from(b)
}

fn times(n: u64, bound: Option<u64>, constant: Option<i64>) -> Option<u64>
    ensures { result ≡ if_bounded bound (λ m. short_bound (n * factor m constant)) }
{
    match bound {
        None => None,
        Some(m) => short_bound(exact_product(n, factor(m, constant))),
    }
}

/// The product of what these factors are at most, where it is short.
fn product(constants: &ConstantTable, known: &[Kept], ids: &[TermId]) -> Option<u64>
    ensures { result ≡ product_from (constant_in constants.now) (bound_in known.now) 1 ids.now }
{
    let mut total = 1;
    for id in ids {
        match times(total, bound_in(known, *id), constants.constant(*id)) {
            Some(more) => total = more,
            None => return None,
        }
    }
    Some(total)
}

/// The number n, where a bound was found; none where there is none.
fn bounded_as(n: u64, found: Option<u64>) -> Option<u64>
    ensures { result ≡ bounded_as n found }
{
    match found {
        None => None,
        Some(_) => Some(n),
    }
}

fn operation_bound(
    op: OpKind,
    args: &[TermId],
    constants: &ConstantTable,
    known: &[Kept],
) -> Option<u64>
    ensures { result ≡ operation_bound (constant_in constants.now) (bound_in known.now) op args.now }
{
    match op {
        OpKind::Add => sum(known, args),
        OpKind::Sub => sum(known, args),
        OpKind::Mul => product(constants, known, args),
        OpKind::Ite => bounded_as(1, sum(known, args)),
        OpKind::Abs => bounded_as(1, sum(known, args)),
        OpKind::Div => bounded_as(1, sum(known, args)),
        OpKind::Mod => bounded_as(1, sum(known, args)),
        _ => bounded_as(0, sum(known, args)),
    }
}

fn let_bound(known: &[Kept], named: &[TermId], body: TermId) -> Option<u64>
    ensures { result ≡ if_bounded (sum_from (bound_in known.now) 0 named.now) (λ sum. bound_in known.now body.0) }
{
    match sum(known, named) {
        None => None,
        Some(_) => bound_in(known, body),
    }
}

/// The bound of a node, where it and its parts have one below 2^63.
pub(crate) fn node_bound(node: &Node, constants: &ConstantTable, known: &[Kept]) -> Option<u64>
    ensures { result ≡ node_bound (constant_in constants.now) (bound_in known.now) node.now }
{
    match node {
        Node::Num(n) => short_bound(u128::from(n.unsigned_abs())),
        Node::True => Some(0),
        Node::False => Some(0),
        Node::Var { .. } => Some(1),
        Node::LetVar { bound } => bound_in(known, *bound),
        Node::Pred { args, .. } => bounded_as(0, sum(known, args.as_slice())),
        Node::Op { op, args } => operation_bound(*op, args.as_slice(), constants, known),
        Node::Divisible { arg, .. } => bounded_as(0, bound_in(known, *arg)),
        Node::Let { bound, body } => let_bound(known, bound.as_slice(), *body),
        Node::Forall { body, .. } => bounded_as(0, bound_in(known, *body)),
        Node::Exists { body, .. } => bounded_as(0, bound_in(known, *body)),
    }
}
