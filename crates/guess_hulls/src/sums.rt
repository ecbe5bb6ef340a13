//! Sums of two bounds of a cube: counters that move together keep such a sum.

use crate::cubes::cube_of_one;
use base::{Copied, Memory, Same};
use cube_forms::Cube;
use guess_table::tightened;
use lin_atoms::{Lin, Lit, WideStop};
use std::alloc::Global;

/// How many sums are made.
const MOST_SUMS: usize = 64;

/// Adds the forms of which the literal says that they are at most 0: of an equation two.
fn push_bounds(alloc: Global, forms: &mut Vec<Lin>, lit: &Lit) -> Result<(), Memory> {
    match lit {
        Lit::Le(lin) => {
            forms.push(lin.copy(alloc)?)?;
            Ok(())
        }
        Lit::Eq(lin) => {
            forms.push(lin.copy(alloc)?)?;
            forms.push(lin.negated(alloc)?)?;
            Ok(())
        }
        Lit::Div(_, _) => Ok(()),
        Lit::NDiv(_, _) => Ok(()),
    }
}

/// The forms that are at most 0 at each tuple in a cube of these literals, as far as one literal says so.
fn bounds(alloc: Global, lits: &[Lit]) -> Result<Vec<Lin>, Memory> {
    let mut forms = Vec::new(alloc);
    for lit in lits {
        push_bounds(alloc, &mut forms, lit)?;
    }
    Ok(forms)
}

/// The sum of two forms, where it has room.
fn sum_of(alloc: Global, x: &Lin, y: &Lin) -> Result<Option<Lin>, Memory> {
    match x.added(alloc, y) {
        Ok(lin) => Ok(Some(lin)),
        Err(WideStop::Wide) => Ok(None),
        Err(WideStop::Memory) => Err(Memory),
    }
}

/// Whether the sum of two forms is worth a try: it has a variable, and at most three or fewer than both
/// together.
fn is_simple(x: &Lin, y: &Lin, sum: &Lin) -> bool {
    let count = sum.terms().len();
    let both = x.terms().len().saturating_add(y.terms().len());
    count > 0 && (count <= 3 || count < both)
}

/// The cube of one bound, where its numbers have room.
fn bound_cube(alloc: Global, lin: &Lin) -> Result<Option<Cube>, Memory> {
    cube_of_one(alloc, Lit::Le(tightened(alloc, lin)?))
}

/// The sum of two bounds as a cube, where it is simple.
fn sum_cube(alloc: Global, x: &Lin, y: &Lin) -> Result<Option<Cube>, Memory> {
    match sum_of(alloc, x, y)? {
        Some(sum) => {
            if is_simple(x, y, &sum) {
                bound_cube(alloc, &sum)
            } else {
                Ok(None)
            }
        }
        None => Ok(None),
    }
}

/// Adds the cube, unless it is there.
fn push_new(cubes: &mut Vec<Cube>, cube: Cube) -> Result<(), Memory> {
    for one in cubes.as_slice() {
        if one.equals(&cube) {
            return Ok(());
        }
    }
    cubes.push(cube)?;
    Ok(())
}

/// Adds the sums of one bound with each of others, as far as there is room for more.
fn push_sums(alloc: Global, cubes: &mut Vec<Cube>, x: &Lin, others: &[Lin]) -> Result<(), Memory> {
    for y in others {
        if cubes.len() >= MOST_SUMS {
            return Ok(());
        }
        if let Some(cube) = sum_cube(alloc, x, y)? {
            push_new(cubes, cube)?;
        }
    }
    Ok(())
}

/// The simple sums of two bounds of the cube, each a cube of its own: the first 64.
pub fn pair_sums(alloc: Global, cube: &Cube) -> Result<Vec<Cube>, Memory> {
    let forms = bounds(alloc, cube.lits())?;
    let mut cubes = Vec::new(alloc);
    for (i, x) in forms.iter().enumerate() {
        push_sums(alloc, &mut cubes, x, &forms.as_slice()[..i])?;
    }
    Ok(cubes)
}
