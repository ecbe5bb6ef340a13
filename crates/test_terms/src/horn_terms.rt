//! Scripts of one assertion for tests, as lists of terms.

use crate::arenas::put;
use base::Items;
use horn_shape::{HornClause, HornStop, clause_of, has_assertion};
use std::alloc::Global;
use std::process::Abort;
use term_tree::{Assertion, Node, OpKind, Script, Sort, TermId, Terms};

/// What a term is made by, from terms of smaller number. Predicates: p and q of an Int, r and s of
/// nothing, t of a Bool, numbered from 0.
#[derive(Clone, Copy)]
pub(crate) enum Shape {
    Num(i64),
    Var,
    True,
    False,
    /// A name for the term that a `let` binds.
    Name,
    Pred(u32),
    Op(OpKind),
    ForAll,
    Exists,
    /// The last part is the body.
    Let,
}

/// What a term is made by, its parts by number, and where it starts.
pub(crate) type Row = (Shape, &'static [u32], u32);

fn ids(rt: &impl Abort, alloc: Global, numbers: &[u32]) -> Items<TermId> {
    let mut ids = Items::new(alloc);
    for number in numbers {
        ids.push(TermId(*number)).expect(rt, "memory");
    }
    ids
}

fn one_sort(rt: &impl Abort, alloc: Global) -> Items<Sort> {
    Items::from_slice(alloc, &[Sort::Int]).expect(rt, "memory")
}

fn node(rt: &impl Abort, alloc: Global, shape: Shape, parts: &[u32]) -> Node {
    let last = parts.last().copied().unwrap_or(0);
    let args = ids(rt, alloc, parts);
    match shape {
        Shape::Num(number) => Node::Num(number),
        Shape::Var => Node::Var {
            binder: 0,
            sort: Sort::Int,
        },
        Shape::True => Node::True,
        Shape::False => Node::False,
        Shape::Name => Node::LetVar {
            bound: TermId(last),
        },
        Shape::Pred(pred) => Node::Pred { pred, args },
        Shape::Op(op) => Node::Op { op, args },
        Shape::ForAll => Node::Forall {
            first: 0,
            sorts: one_sort(rt, alloc),
            body: TermId(last),
        },
        Shape::Exists => Node::Exists {
            first: 0,
            sorts: one_sort(rt, alloc),
            body: TermId(last),
        },
        Shape::Let => Node::Let {
            bound: ids(rt, alloc, but_last(parts)),
            body: TermId(last),
        },
    }
}

fn but_last(parts: &[u32]) -> &[u32] {
    match parts {
        [] => parts,
        [bound @ .., _] => bound,
    }
}

/// Adds a term.
pub(crate) fn put_term(
    rt: &impl Abort,
    alloc: Global,
    terms: &mut Terms,
    shape: Shape,
    parts: &[u32],
    offset: u32,
) {
    put(rt, terms, node(rt, alloc, shape, parts), offset);
}

/// The clause of the last term, where nothing but terms is asked of the script.
pub(crate) fn clause_of_last(
    rt: &impl Abort,
    alloc: Global,
    terms: Terms,
) -> Result<HornClause, HornStop> {
    assert!(rt; terms.len() > 0 && terms.len() < 3000);
    let assertion = Assertion {
        term: TermId(terms.len() as u32 - 1),
        offset: 0,
        command: 0,
    };
    let asserts = Items::from_slice(alloc, &[assertion]).expect(rt, "memory");
    let script = Script {
        preds: Items::new(alloc),
        asserts,
        terms,
    };
    assert!(rt; has_assertion(&script, 0));
    clause_of(alloc, &script, 0)
}

/// The clause of the last row.
pub(crate) fn clause(rt: &impl Abort, alloc: Global, rows: &[Row]) -> Result<HornClause, HornStop> {
    let mut terms = Terms::new(alloc);
    for (shape, parts, offset) in rows {
        put_term(rt, alloc, &mut terms, *shape, parts, *offset);
    }
    clause_of_last(rt, alloc, terms)
}
