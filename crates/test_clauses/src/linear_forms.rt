//! Linear forms of terms by hand.

use crate::made::{apply, put};
use base::Same;
use lin_atoms::Lin;
use std::alloc::Global;
use std::collections::BTreeMap;
use std::mem;
use std::process::Abort;
use term_forms::{FormStop, Names, linear_form, nothing_read};
use term_tables::ConstantTable;
use term_tree::{Node, OpKind, Sort, TermId, Terms};

/// 3 * x + ((div x 3) - m) and a sum of two of m * x, where x is term 0 and m is 2^63 - 1.
fn samples(rt: &impl Abort, alloc: Global) -> Terms {
    let mut terms = Terms::new(alloc);
    let sort = Sort::Int;
    put(rt, &mut terms, Node::Var { binder: 0, sort });
    put(rt, &mut terms, Node::Num(3));
    put(rt, &mut terms, Node::Num(i64::MAX));
    apply(rt, alloc, &mut terms, OpKind::Mul, &[TermId(1), TermId(0)]);
    apply(rt, alloc, &mut terms, OpKind::Div, &[TermId(0), TermId(1)]);
    apply(rt, alloc, &mut terms, OpKind::Sub, &[TermId(4), TermId(2)]);
    apply(rt, alloc, &mut terms, OpKind::Add, &[TermId(3), TermId(5)]);
    apply(rt, alloc, &mut terms, OpKind::Mul, &[TermId(2), TermId(0)]);
    apply(rt, alloc, &mut terms, OpKind::Add, &[TermId(7), TermId(7)]);
    terms
}

fn read(rt: &impl Abort, alloc: Global, id: u32) -> Result<Lin, FormStop> {
    let terms = samples(rt, alloc);
    let constants = ConstantTable::of(alloc, &terms).expect(rt, "memory");
    let mut auxiliary = BTreeMap::new(alloc);
    let put: Result<_, _> = auxiliary.insert(4, 7);
    let _ = put.expect(rt, "memory");
    let own = Vec::new(alloc);
    let names = Names { own, auxiliary };
    let mut known = nothing_read(alloc);
    assert!(rt; (id as usize) < terms.len());
    let found = linear_form(alloc, &terms, &constants, &names, &mut known, TermId(id));
    mem::forget(terms);
    mem::forget(constants);
    mem::forget(names);
    mem::forget(known);
    found
}

#[test]
fn a_division_is_a_variable_of_a_sum(rt: HostRuntime) {
    let alloc = rt.alloc();
    let terms = Vec::from_array(alloc, [(0, 3), (7, 1)]).expect(&rt, "memory");
    let awaited = Lin::new(terms, -i128::from(i64::MAX)).expect(&rt, "a form");
    let found = read(&rt, alloc, 6);
    let is_right = match &found {
        Ok(form) => form.equals(&awaited),
        Err(_) => false,
    };
    mem::forget(found);
    mem::forget(awaited);
    assert!(rt; is_right);
}

#[test]
fn the_first_wide_term_is_named(rt: HostRuntime) {
    let found = read(&rt, rt.alloc(), 8);
    let is_wide = matches!(&found, Err(FormStop::Wide { term: TermId(8) }));
    mem::forget(found);
    assert!(rt; is_wide);
}
