//! A tableau of a node that was worked out by hand.

use crate::made::{divisor, lin};
use crate::tableaux::{has_bounds, has_row};
use lia_node::{are_known, have_short_constants, node_tableau};
use lin_atoms::Lit;
use std::alloc::Global;
use std::mem;
use std::process::Abort;

/// `2x - 4y - 3 <= 0`, which is `x - 2y <= 1`; 3 divides `x + y + 2`; `-2z + 7 <= 0`, which is
/// `z >= 4`; 3 doesn't divide z.
fn lits(rt: &impl Abort, alloc: Global) -> Vec<Lit> {
    let three = divisor(rt, 3);
    let first = Lit::Le(lin(rt, alloc, &[(0, 2), (1, -4)], -3));
    let second = Lit::Div(three, lin(rt, alloc, &[(0, 1), (1, 1)], 2));
    let third = Lit::Le(lin(rt, alloc, &[(2, -2)], 7));
    let fourth = Lit::NDiv(three, lin(rt, alloc, &[(2, 1)], 0));
    Vec::from_array(alloc, [first, second, third, fourth]).expect(rt, "memory")
}

#[test]
fn quotients_stand_between_variables_and_slacks(rt: HostRuntime) {
    let lits = lits(&rt, rt.alloc());
    assert!(rt; !are_known(lits.as_slice(), 1));
    assert!(rt; are_known(lits.as_slice(), 3));
    assert!(rt; have_short_constants(lits.as_slice()));
    let t = node_tableau(rt.alloc(), lits.as_slice(), 3).expect(&rt, "a tableau");
    assert!(rt; t.rows() == 3 && t.columns() == 5);
    assert!(rt; has_row(&t, 0, &[-1, 2, 0, 0, 0, 1, 0, 0], 5));
    assert!(rt; has_row(&t, 1, &[-1, -1, 0, 3, 0, 0, 1, 0], 6));
    assert!(rt; has_row(&t, 2, &[0, 0, -1, 0, 3, 0, 0, 1], 7));
    assert!(rt; has_bounds(&t, 5, None, Some(1)));
    assert!(rt; has_bounds(&t, 6, Some(-2), Some(-2)));
    assert!(rt; has_bounds(&t, 7, Some(1), Some(2)));
    assert!(rt; has_bounds(&t, 2, Some(4), None));
    assert!(rt; has_bounds(&t, 0, None, None));
    assert!(rt; has_bounds(&t, 3, None, None));
    mem::forget(t);
    mem::forget(lits);
}
