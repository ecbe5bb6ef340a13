//! The auxiliary variables of a text, found by hand.

use crate::made::{apply, put};
use base::Items;
use std::alloc::Global;
use std::mem;
use std::process::Abort;
use term_places::places;
use term_tables::SortTable;
use term_tree::{Node, OpKind, Pred, Sort, TermId, Terms};

fn variable(rt: &impl Abort, terms: &mut Terms, binder: u32, sort: Sort) {
    put(rt, terms, Node::Var { binder, sort });
}

/// (let ((a (<= (ite (<= x 0) (abs x) x) 0))) (xor a b)), where b is term 0 and x term 1.
fn sample(rt: &impl Abort, alloc: Global) -> Terms {
    let mut terms = Terms::new(alloc);
    variable(rt, &mut terms, 0, Sort::Bool);
    variable(rt, &mut terms, 1, Sort::Int);
    put(rt, &mut terms, Node::Num(0));
    apply(rt, alloc, &mut terms, OpKind::Le, &[TermId(1), TermId(2)]);
    apply(rt, alloc, &mut terms, OpKind::Abs, &[TermId(1)]);
    apply(
        rt,
        alloc,
        &mut terms,
        OpKind::Ite,
        &[TermId(3), TermId(4), TermId(1)],
    );
    apply(rt, alloc, &mut terms, OpKind::Le, &[TermId(5), TermId(2)]);
    put(rt, &mut terms, Node::LetVar { bound: TermId(6) });
    apply(rt, alloc, &mut terms, OpKind::Xor, &[TermId(7), TermId(0)]);
    let bound = Items::from_slice(alloc, &[TermId(6)]).expect(rt, "memory");
    let body = TermId(8);
    put(rt, &mut terms, Node::Let { bound, body });
    terms
}

#[test]
fn places_stand_in_the_order_of_the_text(rt: HostRuntime) {
    let alloc = rt.alloc();
    let terms = sample(&rt, alloc);
    let no_preds: [Pred; 0] = [];
    let sorts = SortTable::of(alloc, &no_preds, &terms).expect(&rt, "memory");
    assert!(rt; terms.len() == 10);
    let found = places(alloc, &terms, &sorts, TermId(9)).expect(&rt, "memory");
    assert!(rt; found.as_slice() == [6, 5, 3, 4, 7].as_slice());
    mem::forget(terms);
    mem::forget(sorts);
    mem::forget(found);
}
