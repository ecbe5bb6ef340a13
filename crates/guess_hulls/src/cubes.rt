//! Cubes, where each number has room.

ghost use Rattle.std.specs.Prelude.{◌≡◌, IfOk, IfSome};

use base::Memory;
use cube_forms::{Cube, CubeStop};
use lin_atoms::Lit;
use std::alloc::Global;

/// The cube of these literals, where each number has room.
pub fn cube_of(alloc: Global, lits: Vec<Lit>) -> Result<Option<Cube>, Memory>
    ensures { IfOk result (λ made. IfSome made (λ cube. cube ≡ lits.items)) }
{
    match Cube::new(alloc, lits) {
        Ok(cube) => Ok(Some(cube)),
        Err(CubeStop::Wide) => Ok(None),
        Err(CubeStop::Memory) => Err(Memory),
    }
}

/// The cube of one literal, where each number has room.
pub(crate) fn cube_of_one(alloc: Global, lit: Lit) -> Result<Option<Cube>, Memory> {
    let lits = Vec::from_array(alloc, [lit])?;
    cube_of(alloc, lits)
}
