//! Cubes, lemmas and tuples with values that were worked out by hand. What isn't wanted any more isn't let go,
//! since that costs a proof.

use crate::lits::lin;
use base::{Copied, Items, Same};
use cube_forms::{Cube, CubeStop, Lemma, Tuple, negate};
use lin_atoms::{Divisor, Form, Lit, WideStop, holds};
use std::alloc::Global;
use std::mem;
use std::process::Abort;

const MOST: i64 = i64::MAX;

const WIDE: i128 = 1 << 63;

/// The cube of one literal, an equation, or why there is none.
fn one(
    rt: &impl Abort,
    alloc: Global,
    terms: &[(u32, i64)],
    constant: i128,
) -> Result<Cube, CubeStop> {
    let equation = Lit::Eq(lin(rt, alloc, terms, constant));
    let lits = Vec::from_array(alloc, [equation]).expect(rt, "memory");
    Cube::new(alloc, lits)
}

/// Whether an equation has no cube for want of room.
fn is_wide(rt: &impl Abort, alloc: Global, coefficient: i64, constant: i128) -> bool {
    let made = one(rt, alloc, &[(0, coefficient)], constant);
    let is = matches!(&made, Err(CubeStop::Wide));
    mem::forget(made);
    is
}

#[test]
fn a_number_of_2_to_the_63_is_in_no_cube(rt: HostRuntime) {
    for (coefficient, constant, wanted) in [
        (1, WIDE, true),
        (1, -WIDE, true),
        (1, WIDE - 1, false),
        (1, 1 - WIDE, false),
        (MOST, 0, false),
        (-MOST, 0, false),
    ] {
        let is = is_wide(&rt, rt.alloc(), coefficient, constant);
        assert!(rt; is == wanted, "{constant} and {coefficient}");
    }
}

fn pair(rt: &impl Abort, alloc: Global, first: Lit, second: Lit) -> Cube {
    let lits = Vec::from_array(alloc, [first, second]).expect(rt, "memory");
    Cube::new(alloc, lits).expect(rt, "a cube")
}

/// `x0 - x1 + 1 <= 0`, and 3 divides `x0 + 2 * x2`.
fn sample(rt: &impl Abort, alloc: Global) -> Cube {
    let three = Divisor::new(3).expect(rt, "a divisor");
    let first = Lit::Le(lin(rt, alloc, &[(0, 1), (1, -1)], 1));
    let second = Lit::Div(three, lin(rt, alloc, &[(0, 1), (2, 2)], 0));
    pair(rt, alloc, first, second)
}

fn denied(rt: &impl Abort, alloc: Global, cube: &Cube) -> Lemma {
    negate(alloc, cube).expect(rt, "memory")
}

#[test]
fn a_lemma_excludes_what_its_cube_holds(rt: HostRuntime) {
    let cube = sample(&rt, rt.alloc());
    let lemma = denied(&rt, rt.alloc(), &cube);
    for (tuple, wanted) in [
        ([1, 2, 1], true),
        ([2, 2, 2], false),
        ([1, 2, 2], false),
        ([-4, 0, 2], true),
        ([-4, -4, 2], false),
    ] {
        assert!(rt; cube.holds(&tuple) == wanted);
        assert!(rt; lemma.excludes(&tuple) == wanted);
    }
    assert!(rt; cube.is_below(3) && !cube.is_below(2));
    mem::forget(cube);
    mem::forget(lemma);
}

fn disjunction(rt: &impl Abort, alloc: Global, first: Lit, second: Lit) -> Form {
    let parts = [Form::Lit(first), Form::Lit(second)];
    Form::Or(Items::from_vec(Vec::from_array(alloc, parts).expect(rt, "memory")))
}

/// The parts of the sample's lemma at the arguments 5, 5, 1: `0 <= 0` for the first literal, as `x5`
/// goes out, and that 3 doesn't divide `2 * x1 + x5`.
fn wanted(rt: &impl Abort, alloc: Global) -> Form {
    let three = Divisor::new(3).expect(rt, "a divisor");
    let first = Lit::Le(lin(rt, alloc, &[], 0));
    let second = Lit::NDiv(three, lin(rt, alloc, &[(1, 2), (5, 1)], 0));
    disjunction(rt, alloc, first, second)
}

/// The form of a cube's lemma at arguments, or why there is none.
fn form_at(rt: &impl Abort, alloc: Global, cube: &Cube, args: &[u32]) -> Result<Form, WideStop> {
    let lemma = denied(rt, alloc, cube);
    let form = lemma.checked_form(alloc, args);
    mem::forget(lemma);
    form
}

#[test]
fn a_lemma_at_arguments_adds_up_what_is_repeated(rt: HostRuntime) {
    let cube = sample(&rt, rt.alloc());
    let form = form_at(&rt, rt.alloc(), &cube, &[5, 5, 1]).expect(&rt, "a form");
    let wanted = wanted(&rt, rt.alloc());
    assert!(rt; form.equals(&wanted));
    assert!(rt; holds(&form, &[0, 0, 0, 0, 0, 0]));
    mem::forget(cube);
    mem::forget(form);
    mem::forget(wanted);
}

/// Whether a cube's lemma has a form at these arguments that is a disjunction.
fn is_disjunction(rt: &impl Abort, alloc: Global, cube: &Cube, args: &[u32]) -> bool {
    let form = form_at(rt, alloc, cube, args);
    let is = matches!(&form, Ok(Form::Or(_)));
    mem::forget(form);
    is
}

/// Whether there is no form for want of room.
fn is_wide_form(rt: &impl Abort, alloc: Global, cube: &Cube, args: &[u32]) -> bool {
    let form = form_at(rt, alloc, cube, args);
    let is = matches!(&form, Err(WideStop::Wide));
    mem::forget(form);
    is
}

/// Whether the lemma's cube has no literals at these arguments for want of room.
fn are_wide_lits(rt: &impl Abort, alloc: Global, cube: &Cube, args: &[u32]) -> bool {
    let lemma = denied(rt, alloc, cube);
    let lits = lemma.cube().at(alloc, args);
    let is = matches!(&lits, Err(WideStop::Wide));
    mem::forget(lits);
    mem::forget(lemma);
    is
}

#[test]
fn coefficients_that_add_up_to_2_to_the_63_have_no_form(rt: HostRuntime) {
    let cube = one(&rt, rt.alloc(), &[(0, MOST), (1, 1)], 0).expect(&rt, "a cube");
    assert!(rt; is_disjunction(&rt, rt.alloc(), &cube, &[0, 1]));
    assert!(rt; is_wide_form(&rt, rt.alloc(), &cube, &[4, 4]));
    assert!(rt; are_wide_lits(&rt, rt.alloc(), &cube, &[4, 4]));
    mem::forget(cube);
}

/// A copy of the lemma of no literals, which is to be equal to it.
fn copied(rt: &impl Abort, alloc: Global) -> Lemma {
    let cube = Cube::new(alloc, Vec::new(alloc)).expect(rt, "a cube");
    let lemma = denied(rt, alloc, &cube);
    let copy = lemma.copy(alloc).expect(rt, "memory");
    assert!(rt; copy.equals(&lemma));
    mem::forget(cube);
    mem::forget(lemma);
    copy
}

#[test]
fn an_empty_cube_denies_everything(rt: HostRuntime) {
    let copy = copied(&rt, rt.alloc());
    assert!(rt; copy.excludes(&[]));
    let form = copy.checked_form(rt.alloc(), &[]);
    assert!(rt; matches!(&form, Ok(Form::False)));
    mem::forget(copy);
    mem::forget(form);
}

fn copy_of(rt: &impl Abort, alloc: Global, tuple: &Tuple) -> Tuple {
    tuple.copy(alloc).expect(rt, "memory")
}

#[test]
fn a_tuple_has_the_values_of_its_arguments(rt: HostRuntime) {
    let tuple = Tuple::at(rt.alloc(), &[7, 8, 9], &[2, 0, 2, 1, 0, 5]).expect(&rt, "memory");
    assert!(rt; tuple.as_slice() == [9, 7, 9, 8, 7, 0].as_slice());
    let copy = copy_of(&rt, rt.alloc(), &tuple);
    assert!(rt; copy.equals(&tuple));
    let other = Tuple::from_slice(rt.alloc(), &[9, 7]).expect(&rt, "memory");
    assert!(rt; !copy.equals(&other));
    mem::forget(tuple);
    mem::forget(copy);
    mem::forget(other);
}
