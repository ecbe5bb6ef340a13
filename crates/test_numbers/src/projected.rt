//! Literals over three variables as rows of numbers, and the projection of a list of them.

ghost use Rattle.std.specs.Prelude.{◌≡◌};
ghost use Rattle.std.specs.List.{list_all};
ghost use Rattle.lin_atoms.specs.Truth.{lit_is_below};
ghost use Rattle.model_project.specs.Projection.{are_true};

use crate::made::{divisor, form};
use base::Same;
use lin_atoms::Lit;
use model_project::{Projected, project};
use std::alloc::Global;
use std::mem;
use std::process::Abort;

/// A literal: what is claimed of the form, the coefficients of the variables 0, 1 and 2, and the
/// constant.
pub type Row = (i64, i64, i64, i64, i128);

/// What is claimed of a form that is at most 0.
pub const LE: i64 = 0;

/// What is claimed of a form that is 0. A number above 0 divides the form, and minus a number of 2 or
/// more says that this number doesn't.
pub const EQ: i64 = -1;

/// What is shown, a conjunction, a model, the variables that are kept, and the cube.
pub type Case = (
    &'static str,
    &'static [Row],
    [i64; 3],
    &'static [u32],
    &'static [Row],
);

pub fn literal(rt: &impl Abort, alloc: Global, row: Row) -> Lit {
    let lin = form(rt, alloc, &[row.1, row.2, row.3], row.4);
    if row.0 == LE {
        return Lit::Le(lin);
    }
    if row.0 == EQ {
        return Lit::Eq(lin);
    }
    if row.0 > 0 {
        return Lit::Div(divisor(rt, row.0), lin);
    }
    Lit::NDiv(divisor(rt, row.0.wrapping_neg()), lin)
}

pub fn literals(rt: &impl Abort, alloc: Global, rows: &[Row]) -> Vec<Lit> {
    let mut made = Vec::new(alloc);
    for row in rows {
        made.push(literal(rt, alloc, *row)).expect(rt, "memory");
    }
    made
}

pub fn all_hold(lits: &[Lit], point: &[i64]) -> bool
    ensures { result ≡ are_true point.now lits.now }
{
    lits.iter().all(|lit| lit.holds(point))
}

pub fn all_below(lits: &[Lit], n: usize) -> bool
    ensures { result ≡ list_all (lit_is_below n) lits.now }
{
    lits.iter().all(|lit| lit.is_below(n))
}

/// The projection, once the point is seen to be a model with a place for each variable.
pub fn projected(
    rt: &impl Abort,
    alloc: Global,
    lits: &[Lit],
    model: &[i64],
    keep: &[u32],
) -> Projected {
    assert!(rt; all_hold(lits, model));
    assert!(rt; all_below(lits, model.len()));
    project(alloc, lits, model, keep).expect(rt, "memory")
}

pub fn are_equal(ours: &[Lit], theirs: &[Lit]) -> bool {
    for (a, b) in ours.iter().zip(theirs) {
        if !a.equals(b) {
            return false;
        }
    }
    ours.len() == theirs.len()
}

/// Whether the projection has the case's cube.
pub fn is_right(rt: &impl Abort, alloc: Global, case: Case) -> bool {
    let (_, rows, model, keep, cube) = case;
    let lits = literals(rt, alloc, rows);
    let made = projected(rt, alloc, lits.as_slice(), &model, keep);
    let wanted = literals(rt, alloc, cube);
    let is_right = are_equal(made.cube(), wanted.as_slice());
    mem::forget(lits);
    mem::forget(made);
    mem::forget(wanted);
    is_right
}
