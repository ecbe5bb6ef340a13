//! Cubes that hold a point and shut a literal out that is false there.

use crate::cubes::cube_of_one;
use crate::reducing::residue;
use base::{Copied, Memory};
use cube_forms::Cube;
use lin_atoms::{Lit, WideStop, denied};
use std::alloc::Global;

/// The literal with the least residues.
fn reduced(alloc: Global, lit: &Lit) -> Result<Lit, Memory> {
    match lit {
        Lit::NDiv(divisor, lin) => Ok(Lit::NDiv(*divisor, residue(alloc, *divisor, lin)?)),
        _ => lit.copy(alloc),
    }
}

/// Adds a cube of the literal alone, if it is true at the point.
fn push_at(alloc: Global, cubes: &mut Vec<Cube>, lit: &Lit, point: &[i64]) -> Result<(), Memory> {
    if !lit.holds(point) {
        return Ok(());
    }
    let lit = reduced(alloc, lit)?;
    if let Some(cube) = cube_of_one(alloc, lit)? {
        cubes.push(cube)?;
    }
    Ok(())
}

/// Adds cubes of the denial of a literal that is false at the point.
fn push_denial(
    alloc: Global,
    cubes: &mut Vec<Cube>,
    lit: &Lit,
    point: &[i64],
) -> Result<(), Memory> {
    match denied(alloc, lit) {
        Ok(lits) => {
            for one in lits.as_slice() {
                push_at(alloc, cubes, one, point)?;
            }
            Ok(())
        }
        Err(WideStop::Wide) => Ok(()),
        Err(WideStop::Memory) => Err(Memory),
    }
}

/// For each literal that is false at the point a cube that holds the point.
pub(crate) fn broken_at(alloc: Global, lits: &[Lit], point: &[i64]) -> Result<Vec<Cube>, Memory> {
    let mut cubes = Vec::new(alloc);
    for lit in lits {
        push_denial(alloc, &mut cubes, lit, point)?;
    }
    Ok(cubes)
}
