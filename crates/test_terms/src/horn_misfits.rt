//! Where the first subterm starts that fits no form. The offsets are counted in the text beside each case. No
//! clause is let go, since that costs a proof.

use crate::horn_terms::{Row, Shape, clause};
use horn_shape::HornStop;
use std::alloc::Global;
use std::mem;
use std::process::Abort;
use term_tree::OpKind;

/// Where the first subterm starts that fits no form; past all texts where there is none.
fn misfit(rt: &impl Abort, alloc: Global, rows: &[Row]) -> u64 {
    match clause(rt, alloc, rows) {
        Err(HornStop::NotHorn { offset }) => offset,
        Err(HornStop::Memory) => 999,
        Ok(c) => {
            mem::forget(c);
            999
        }
    }
}

const MISFITS: [(&'static [Row], u64); 26] = [
    // a second application in an or
    // (or (p 1) (not (q 1)) (p 2) (xor r r))
    (
        &[
            (Shape::Num(1), &[], 7),
            (Shape::Pred(0), &[0], 4),
            (Shape::Num(1), &[], 18),
            (Shape::Pred(1), &[2], 15),
            (Shape::Op(OpKind::Not), &[3], 10),
            (Shape::Num(2), &[], 25),
            (Shape::Pred(0), &[5], 22),
            (Shape::Pred(2), &[], 33),
            (Shape::Pred(2), &[], 35),
            (Shape::Op(OpKind::Xor), &[7, 8], 28),
            (Shape::Op(OpKind::Or), &[1, 4, 6, 9], 0),
        ],
        22,
    ),
    // predicates and quantifiers in arguments and bindings
    // (=> true (q (not r)))
    (
        &[
            (Shape::True, &[], 4),
            (Shape::Pred(2), &[], 17),
            (Shape::Op(OpKind::Not), &[1], 12),
            (Shape::Pred(1), &[2], 9),
            (Shape::Op(OpKind::Implies), &[0, 3], 0),
        ],
        9,
    ),
    // (t (forall ((x Int)) true))
    (
        &[
            (Shape::True, &[], 21),
            (Shape::ForAll, &[0], 3),
            (Shape::Pred(4), &[1], 0),
        ],
        0,
    ),
    // (let ((a (not r))) a)
    (
        &[
            (Shape::Pred(2), &[], 14),
            (Shape::Op(OpKind::Not), &[0], 9),
            (Shape::Name, &[1], 19),
            (Shape::Let, &[1, 2], 0),
        ],
        9,
    ),
    // (let ((a true) (c (not r))) (and a c))
    (
        &[
            (Shape::True, &[], 9),
            (Shape::Pred(2), &[], 23),
            (Shape::Op(OpKind::Not), &[1], 18),
            (Shape::Name, &[0], 33),
            (Shape::Name, &[2], 35),
            (Shape::Op(OpKind::And), &[3, 4], 28),
            (Shape::Let, &[0, 2, 5], 0),
        ],
        18,
    ),
    // an exists stands right under a denial
    // (=> (exists ((x Int)) (q x)) false)
    (
        &[
            (Shape::Var, &[], 25),
            (Shape::Pred(1), &[0], 22),
            (Shape::Exists, &[1], 4),
            (Shape::False, &[], 29),
            (Shape::Op(OpKind::Implies), &[2, 3], 0),
        ],
        4,
    ),
    // (or (not (exists ((x Int)) (q x))))
    (
        &[
            (Shape::Var, &[], 30),
            (Shape::Pred(1), &[0], 27),
            (Shape::Exists, &[1], 9),
            (Shape::Op(OpKind::Not), &[2], 4),
            (Shape::Op(OpKind::Or), &[3], 0),
        ],
        9,
    ),
    // (exists ((x Int)) (q x))
    (
        &[
            (Shape::Var, &[], 21),
            (Shape::Pred(1), &[0], 18),
            (Shape::Exists, &[1], 0),
        ],
        0,
    ),
    // (let ((a 1)) (exists ((x Int)) (q x)))
    (
        &[
            (Shape::Num(1), &[], 9),
            (Shape::Var, &[], 34),
            (Shape::Pred(1), &[1], 31),
            (Shape::Exists, &[2], 13),
            (Shape::Let, &[0, 3], 0),
        ],
        13,
    ),
    // (not (let ((a 1)) (exists ((x Int)) (q x))))
    (
        &[
            (Shape::Num(1), &[], 14),
            (Shape::Var, &[], 39),
            (Shape::Pred(1), &[1], 36),
            (Shape::Exists, &[2], 18),
            (Shape::Let, &[0, 3], 5),
            (Shape::Op(OpKind::Not), &[4], 0),
        ],
        18,
    ),
    // disjuncts are guards applications and denials
    // (or r (let ((a true)) (=> a s)))
    (
        &[
            (Shape::Pred(2), &[], 4),
            (Shape::True, &[], 15),
            (Shape::Name, &[1], 26),
            (Shape::Pred(3), &[], 28),
            (Shape::Op(OpKind::Implies), &[2, 3], 22),
            (Shape::Let, &[1, 4], 6),
            (Shape::Op(OpKind::Or), &[0, 5], 0),
        ],
        6,
    ),
    // (or r (=> true s))
    (
        &[
            (Shape::Pred(2), &[], 4),
            (Shape::True, &[], 10),
            (Shape::Pred(3), &[], 15),
            (Shape::Op(OpKind::Implies), &[1, 2], 6),
            (Shape::Op(OpKind::Or), &[0, 3], 0),
        ],
        6,
    ),
    // (or (forall ((x Int)) (q x)))
    (
        &[
            (Shape::Var, &[], 25),
            (Shape::Pred(1), &[0], 22),
            (Shape::ForAll, &[1], 4),
            (Shape::Op(OpKind::Or), &[2], 0),
        ],
        4,
    ),
    // (or r (or s))
    (
        &[
            (Shape::Pred(2), &[], 4),
            (Shape::Pred(3), &[], 10),
            (Shape::Op(OpKind::Or), &[1], 6),
            (Shape::Op(OpKind::Or), &[0, 2], 0),
        ],
        6,
    ),
    // operators that are no clauses
    // (and r s)
    (
        &[
            (Shape::Pred(2), &[], 5),
            (Shape::Pred(3), &[], 7),
            (Shape::Op(OpKind::And), &[0, 1], 0),
        ],
        0,
    ),
    // (xor r s)
    (
        &[
            (Shape::Pred(2), &[], 5),
            (Shape::Pred(3), &[], 7),
            (Shape::Op(OpKind::Xor), &[0, 1], 0),
        ],
        0,
    ),
    // (= r true)
    (
        &[
            (Shape::Pred(2), &[], 3),
            (Shape::True, &[], 5),
            (Shape::Op(OpKind::Eq), &[0, 1], 0),
        ],
        0,
    ),
    // (ite true r s)
    (
        &[
            (Shape::True, &[], 5),
            (Shape::Pred(2), &[], 10),
            (Shape::Pred(3), &[], 12),
            (Shape::Op(OpKind::Ite), &[0, 1, 2], 0),
        ],
        0,
    ),
    // bodies have no or and no not
    // (not (or r s))
    (
        &[
            (Shape::Pred(2), &[], 9),
            (Shape::Pred(3), &[], 11),
            (Shape::Op(OpKind::Or), &[0, 1], 5),
            (Shape::Op(OpKind::Not), &[2], 0),
        ],
        5,
    ),
    // (not (not r))
    (
        &[
            (Shape::Pred(2), &[], 10),
            (Shape::Op(OpKind::Not), &[0], 5),
            (Shape::Op(OpKind::Not), &[1], 0),
        ],
        5,
    ),
    // (or (not (not r)))
    (
        &[
            (Shape::Pred(2), &[], 14),
            (Shape::Op(OpKind::Not), &[0], 9),
            (Shape::Op(OpKind::Not), &[1], 4),
            (Shape::Op(OpKind::Or), &[2], 0),
        ],
        9,
    ),
    // the first in the order of the text
    // (=> (forall ((x Int)) (q x)) r)
    (
        &[
            (Shape::Var, &[], 25),
            (Shape::Pred(1), &[0], 22),
            (Shape::ForAll, &[1], 4),
            (Shape::Pred(2), &[], 29),
            (Shape::Op(OpKind::Implies), &[2, 3], 0),
        ],
        4,
    ),
    // (=> (xor r s) (and r s))
    (
        &[
            (Shape::Pred(2), &[], 9),
            (Shape::Pred(3), &[], 11),
            (Shape::Op(OpKind::Xor), &[0, 1], 4),
            (Shape::Pred(2), &[], 19),
            (Shape::Pred(3), &[], 21),
            (Shape::Op(OpKind::And), &[3, 4], 14),
            (Shape::Op(OpKind::Implies), &[2, 5], 0),
        ],
        4,
    ),
    // (=> r (and s r))
    (
        &[
            (Shape::Pred(2), &[], 4),
            (Shape::Pred(3), &[], 11),
            (Shape::Pred(2), &[], 13),
            (Shape::Op(OpKind::And), &[1, 2], 6),
            (Shape::Op(OpKind::Implies), &[0, 3], 0),
        ],
        6,
    ),
    // (not (and r (xor s true)))
    (
        &[
            (Shape::Pred(2), &[], 10),
            (Shape::Pred(3), &[], 17),
            (Shape::True, &[], 19),
            (Shape::Op(OpKind::Xor), &[1, 2], 12),
            (Shape::Op(OpKind::And), &[0, 3], 5),
            (Shape::Op(OpKind::Not), &[4], 0),
        ],
        12,
    ),
    // (forall ((x Int)) (and r s))
    (
        &[
            (Shape::Pred(2), &[], 23),
            (Shape::Pred(3), &[], 25),
            (Shape::Op(OpKind::And), &[0, 1], 18),
            (Shape::ForAll, &[2], 0),
        ],
        18,
    ),
];

#[test]
fn the_first_subterm_that_fits_no_form_is_told(rt: HostRuntime) {
    for (i, (rows, offset)) in MISFITS.iter().enumerate() {
        assert!(rt; misfit(&rt, rt.alloc(), rows) == *offset, "case {i}");
    }
}
