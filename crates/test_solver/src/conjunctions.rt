//! Conjunctions over four variables as tables.

ghost use Rattle.std.specs.Prelude.{◌<◌};

use crate::made::{divisor, form, lit};
use lia_branch::{Decision, are_below, decide_all, have_short_constants};
use lin_atoms::Lit;
use std::alloc::Global;
use std::mem;
use std::process::Abort;

/// A literal: its kind, its divisor, the coefficients of four variables, and the constant.
pub(crate) type Row = (i64, i64, [i64; 4], i128);

fn add_row(rt: &impl Abort, alloc: Global, lits: &mut Vec<Lit>, row: Row) {
    let (kind, n, coefficients, constant) = row;
    let form = form(rt, alloc, coefficients.as_slice(), constant);
    lits.push(lit(kind, divisor(rt, n), form))
        .expect(rt, "memory");
}

/// What is decided of the rows with at most `nodes` inner nodes.
pub(crate) fn decided(rt: &impl Abort, alloc: Global, rows: &[Row], nodes: u32) -> Decision
    requires { 0 < nodes }
{
    let mut lits = Vec::new(alloc);
    for row in rows {
        add_row(rt, alloc, &mut lits, *row);
    }
    assert!(rt; are_below(lits.as_slice(), 4));
    assert!(rt; have_short_constants(lits.as_slice()));
    let decision = decide_all(alloc, lits.as_slice(), 4, nodes).expect(rt, "memory");
    mem::forget(lits);
    decision
}

pub(crate) fn is_refuted(rt: &impl Abort, alloc: Global, rows: &[Row], nodes: u32) -> bool
    requires { 0 < nodes }
{
    let decision = decided(rt, alloc, rows, nodes);
    let is_refuted = matches!(&decision, Decision::Refuted(_));
    mem::forget(decision);
    is_refuted
}

/// The point that is found.
pub(crate) fn point(rt: &impl Abort, alloc: Global, rows: &[Row], nodes: u32) -> Option<[i64; 4]>
    requires { 0 < nodes }
{
    let decision = decided(rt, alloc, rows, nodes);
    let point = match &decision {
        Decision::Model(point) => match point.as_slice() {
            [x, y, z, u] => Some([*x, *y, *z, *u]),
            _ => None,
        },
        _ => None,
    };
    mem::forget(decision);
    point
}
