//! Cubes of literals of a cube.

ghost use Rattle.std.specs.Prelude.{◌≡◌, ◌++◌, ◌<◌, length, true, OnOk, IfOk};
ghost use Rattle.cube_forms.specs.Cubes.{cube_is_short};
ghost use Rattle.lemma_general.specs.Generals.{without};

use base::{Copied, Memory};
use cube_forms::{Cube, CubeStop};
use lin_atoms::Lit;
use std::alloc::Global;

/// Keeps literals with short numbers as a cube.
pub(crate) fn kept(alloc: Global, lits: Vec<Lit>) -> Result<Cube, Memory>
    requires { cube_is_short lits.items ≡ true }
    ensures { IfOk result (λ cube. cube ≡ lits.items) }
{
    match Cube::new(alloc, lits) {
        Ok(cube) => Ok(cube),
        Err(CubeStop::Wide) => unreachable!(),
        Err(CubeStop::Memory) => Err(Memory),
    }
}

/// Adds copies of literals.
fn push_all(alloc: Global, made: &mut Vec<Lit>, lits: &[Lit]) -> Result<(), Memory>
    ensures { OnOk result (made.new.items ≡ made.old.items ++ lits.now) }
{
    for lit in lits {
        made.push(lit.copy(alloc)?)?;
    }
    Ok(())
}

/// The cube without the literal at a place.
pub(crate) fn without(alloc: Global, cube: &Cube, at: usize) -> Result<Cube, Memory>
    requires { at < length cube.now }
    ensures { IfOk result (λ made. made ≡ without at cube.now) }
{
    let lits = cube.lits();
    let mut made = Vec::new(alloc);
    push_all(alloc, &mut made, &lits[..at])?;
    push_all(alloc, &mut made, &lits[at + 1..])?;
    let cube = kept(alloc, made)?;
    Ok(cube)
}
