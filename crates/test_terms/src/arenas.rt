//! Terms by hand, node by node.

use base::Items;
use std::alloc::Global;
use std::process::Abort;
use term_tree::{Node, OpKind, TermId, Terms};

/// Adds a node, whose parts are there.
pub(crate) fn put(rt: &impl Abort, terms: &mut Terms, node: Node, offset: u32) -> TermId {
    assert!(rt; terms.len() < 3000 && node.has_parts_below(terms.len()));
    terms.add(node, offset).expect(rt, "memory")
}

pub(crate) fn number(rt: &impl Abort, terms: &mut Terms, n: i64) -> TermId {
    put(rt, terms, Node::Num(n), 7)
}

pub(crate) fn apply(
    rt: &impl Abort,
    alloc: Global,
    terms: &mut Terms,
    op: OpKind,
    args: &[TermId],
) -> TermId {
    let args = Items::from_slice(alloc, args).expect(rt, "memory");
    put(rt, terms, Node::Op { op, args }, 3)
}
