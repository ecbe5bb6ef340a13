//! Cubes of some literals of a lemma's own, in the order in which they are tried.

ghost use Rattle.std.specs.Prelude.{◌<◌, IfOk};
ghost use Rattle.obligation_turn.specs.Turns.{GoesOn};
ghost use Rattle.lemma_general.specs.Generals.{IsLearnt};

use crate::cores::core_of;
use base::{Copied, Memory};
use cube_forms::{Cube, CubeStop};
use lemma_general::Tries;
use lin_atoms::Lit;
use std::alloc::Global;
use step_rules::{LemmaPart, Lent};

/// The literals, the last first.
fn turned(alloc: Global, lits: &[Lit]) -> Result<Vec<Lit>, Memory> {
    let mut made = Vec::new(alloc);
    for lit in lits.iter().rev() {
        made.push(lit.copy(alloc)?)?;
    }
    Ok(made)
}

/// The cube of these literals, where each number has room.
fn cube_of(alloc: Global, lits: Vec<Lit>) -> Result<Option<Cube>, Memory> {
    match Cube::new(alloc, lits) {
        Ok(cube) => Ok(Some(cube)),
        Err(CubeStop::Wide) => Ok(None),
        Err(CubeStop::Memory) => Err(Memory),
    }
}

/// The lemma with the cube, if that is taken, else as it is.
fn with_cube(lent: &Lent, part: LemmaPart, cube: &Cube, nodes: u32) -> Result<LemmaPart, Memory>
    requires goes_on { GoesOn lent.now }
    requires some { 0 < nodes }
    requires learnt { IsLearnt lent.now part }
    ensures { IfOk result (IsLearnt lent.now) }
{
    let mut tries = Tries::new(lent.alloc, part);
    tries.try_cube(lent, cube, nodes)?;
    Ok(tries.into_part())
}

/// The lemma with the cube of these literals, if that is taken, else as it is.
fn with_lits(lent: &Lent, part: LemmaPart, lits: Vec<Lit>, nodes: u32) -> Result<LemmaPart, Memory>
    requires goes_on { GoesOn lent.now }
    requires some { 0 < nodes }
    requires learnt { IsLearnt lent.now part }
    ensures { IfOk result (IsLearnt lent.now) }
{
    match cube_of(lent.alloc, lits)? {
        Some(cube) => with_cube(lent, part, &cube, nodes),
        None => Ok(part),
    }
}

/// The lemma with the literals of its cube in the other order, if that is taken, else as it is.
pub fn with_turned(lent: &Lent, part: LemmaPart, nodes: u32) -> Result<LemmaPart, Memory>
    requires goes_on { GoesOn lent.now }
    requires some { 0 < nodes }
    requires learnt { IsLearnt lent.now part }
    ensures { IfOk result (IsLearnt lent.now) }
{
    let lits = turned(lent.alloc, part.lemma.cube().lits())?;
    with_lits(lent, part, lits, nodes)
}

/// The lemma with the literals of its cube that its proofs use, if that is taken, else as it is.
pub fn with_core(lent: &Lent, part: LemmaPart, nodes: u32) -> Result<LemmaPart, Memory>
    requires goes_on { GoesOn lent.now }
    requires some { 0 < nodes }
    requires learnt { IsLearnt lent.now part }
    ensures { IfOk result (IsLearnt lent.now) }
{
    let lits = core_of(lent, &part)?;
    with_lits(lent, part, lits, nodes)
}
