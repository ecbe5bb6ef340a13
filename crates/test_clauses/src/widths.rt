//! First terms without room, and terms with bounds, found by hand.

use crate::made::{apply, check_of, put};
use std::alloc::Global;
use std::mem;
use std::process::Abort;
use term_forms::nothing_read;
use term_tables::ConstantTable;
use term_tree::{Node, OpKind, Sort, TermId, Terms};
use term_widths::{RoomTable, apart_names, first_wide};

/// Over the integer x, which is term 0, and m = 2^63 - 1: m * x is term 2, -x is 3, m * x <= -x is 4,
/// m * x + x is 5, its comparison with x is 6, (and 4 6) is 7, m * x <= x is 8, (and 8 4) is 9, and
/// (distinct (m * x) x (- x)) is 10.
fn samples(rt: &impl Abort, alloc: Global) -> Terms {
    let mut terms = Terms::new(alloc);
    let sort = Sort::Int;
    put(rt, &mut terms, Node::Var { binder: 5, sort });
    put(rt, &mut terms, Node::Num(i64::MAX));
    apply(rt, alloc, &mut terms, OpKind::Mul, &[TermId(1), TermId(0)]);
    apply(rt, alloc, &mut terms, OpKind::Sub, &[TermId(0)]);
    apply(rt, alloc, &mut terms, OpKind::Le, &[TermId(2), TermId(3)]);
    apply(rt, alloc, &mut terms, OpKind::Add, &[TermId(2), TermId(0)]);
    apply(rt, alloc, &mut terms, OpKind::Eq, &[TermId(5), TermId(0)]);
    apply(rt, alloc, &mut terms, OpKind::And, &[TermId(4), TermId(6)]);
    apply(rt, alloc, &mut terms, OpKind::Le, &[TermId(2), TermId(0)]);
    apply(rt, alloc, &mut terms, OpKind::And, &[TermId(8), TermId(4)]);
    let sides = [TermId(2), TermId(0), TermId(3)];
    apply(rt, alloc, &mut terms, OpKind::Distinct, &sides);
    terms
}

fn found(rt: &impl Abort, alloc: Global, top: u32) -> Option<TermId> {
    let terms = samples(rt, alloc);
    let constants = ConstantTable::of(alloc, &terms).expect(rt, "memory");
    let names = apart_names(alloc, &terms, &[], &[]).expect(rt, "memory");
    let mut known = nothing_read(alloc);
    assert!(rt; (top as usize) < terms.len());
    let wide = first_wide(alloc, &terms, &constants, &names, &mut known, TermId(top));
    mem::forget(terms);
    mem::forget(constants);
    mem::forget(names);
    mem::forget(known);
    wide.expect(rt, "memory")
}

#[test]
fn integer_terms_come_before_comparisons_and_parts_before_the_whole(rt: HostRuntime) {
    let alloc = rt.alloc();
    // m * x - (-x) is wide, m * x - x isn't, and m * x + x is
    let awaited = [
        (4, Some(4)),
        (6, Some(5)),
        (7, Some(5)),
        (8, None),
        (9, Some(4)),
        (10, Some(10)),
    ];
    for (top, place) in awaited {
        check_of(&rt, found(&rt, alloc, top) == place.map(TermId), top);
    }
}

#[test]
fn a_term_has_a_bound_where_the_magnitudes_in_it_have_a_sum_below_2_to_63(rt: HostRuntime) {
    let alloc = rt.alloc();
    let terms = samples(&rt, alloc);
    let constants = ConstantTable::of(alloc, &terms).expect(&rt, "memory");
    let rooms = RoomTable::of(alloc, &terms, &constants).expect(&rt, "memory");
    // nothing in m * x <= x is wide, but the magnitudes of its sides have the sum 2^63
    let awaited = [
        (0, true),
        (1, true),
        (2, true),
        (3, true),
        (4, false),
        (5, false),
        (7, false),
        (8, false),
        (11, false),
    ];
    for (id, bounded) in awaited {
        check_of(&rt, rooms.has_room(TermId(id)) == bounded, id);
    }
    mem::forget(terms);
    mem::forget(constants);
    mem::forget(rooms);
}
