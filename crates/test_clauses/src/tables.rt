//! Sorts and constants of terms by hand.

use crate::made::{apply, check_of, put};
use std::alloc::Global;
use std::mem;
use std::process::Abort;
use term_tables::{ConstantTable, SortTable};
use term_tree::{Node, OpKind, Pred, Sort, TermId, Terms};

/// 7, -7, 2, their quotient and remainder, true, a choice of two integers, a conjunction with an
/// integer in it, and 7 times the quotient.
fn samples(rt: &impl Abort, alloc: Global) -> Terms {
    let mut terms = Terms::new(alloc);
    put(rt, &mut terms, Node::Num(7));
    apply(rt, alloc, &mut terms, OpKind::Sub, &[TermId(0)]);
    put(rt, &mut terms, Node::Num(2));
    for op in [OpKind::Div, OpKind::Mod] {
        apply(rt, alloc, &mut terms, op, &[TermId(1), TermId(2)]);
    }
    put(rt, &mut terms, Node::True);
    apply(
        rt,
        alloc,
        &mut terms,
        OpKind::Ite,
        &[TermId(5), TermId(3), TermId(0)],
    );
    apply(rt, alloc, &mut terms, OpKind::And, &[TermId(5), TermId(0)]);
    apply(rt, alloc, &mut terms, OpKind::Mul, &[TermId(0), TermId(3)]);
    terms
}

#[test]
fn sorts_and_constants_are_those_of_the_standard(rt: HostRuntime) {
    let alloc = rt.alloc();
    let terms = samples(&rt, alloc);
    let no_preds: [Pred; 0] = [];
    let sorts = SortTable::of(alloc, &no_preds, &terms).expect(&rt, "memory");
    let constants = ConstantTable::of(alloc, &terms).expect(&rt, "memory");
    let integer = Some(Sort::Int);
    for (id, sort, constant) in [
        (0, integer, Some(7)),
        (1, integer, Some(-7)),
        (3, integer, Some(-4)),
        (4, integer, Some(1)),
        (5, Some(Sort::Bool), None),
        (6, integer, None),
        (7, None, None),
        (8, integer, Some(-28)),
        (9, None, None),
    ] {
        check_of(&rt, sorts.sort(TermId(id)) == sort, id);
        check_of(&rt, constants.constant(TermId(id)) == constant, id);
    }
    mem::forget(terms);
    mem::forget(sorts);
    mem::forget(constants);
}
