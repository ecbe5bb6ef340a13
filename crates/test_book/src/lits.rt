//! Literals, and cubes and lemmas of one value. What isn't wanted any more isn't let go, since that costs a
//! proof.

use cube_forms::{Cube, Lemma, negate};
use lin_atoms::{Lin, Lit};
use std::alloc::Global;
use std::mem;
use std::process::Abort;

pub(crate) fn lin(rt: &impl Abort, alloc: Global, terms: &[(u32, i64)], constant: i128) -> Lin {
    let terms = Vec::from_slice(alloc, terms).expect(rt, "memory");
    Lin::new(terms, constant).expect(rt, "a form")
}

/// A variable is the value.
pub(crate) fn is(rt: &impl Abort, alloc: Global, variable: u32, value: i64) -> Lit {
    Lit::Eq(lin(rt, alloc, &[(variable, 1)], -i128::from(value)))
}

/// The cube of one literal.
pub(crate) fn cube(rt: &impl Abort, alloc: Global, lit: Lit) -> Cube {
    let lits = Vec::from_array(alloc, [lit]).expect(rt, "memory");
    Cube::new(alloc, lits).expect(rt, "a cube")
}

/// The cube of one value.
pub(crate) fn only(rt: &impl Abort, alloc: Global, value: i64) -> Cube {
    cube(rt, alloc, is(rt, alloc, 0, value))
}

/// The lemma that denies the cube of one literal.
pub(crate) fn denied(rt: &impl Abort, alloc: Global, lit: Lit) -> Lemma {
    let cube = cube(rt, alloc, lit);
    let lemma = negate(alloc, &cube).expect(rt, "memory");
    mem::forget(cube);
    lemma
}

/// 'Not this value'.
pub(crate) fn not(rt: &impl Abort, alloc: Global, value: i64) -> Lemma {
    denied(rt, alloc, is(rt, alloc, 0, value))
}
