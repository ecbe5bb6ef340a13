//! The literals of a cube in their simplest form.

ghost use Rattle.std.specs.Prelude.{◌<◌, IfOk};
ghost use Rattle.obligation_turn.specs.Turns.{GoesOn};
ghost use Rattle.lemma_general.specs.Generals.{IsLearnt};
ghost use Rattle.search_learn.specs.Candidates.{IsInPlaceOf};

use crate::shrinking::shrink;
use base::Memory;
use guess_hulls::{cube_of, simplest};
use lemma_general::Tries;
use step_rules::{LemmaPart, Lent};

/// The lemma with the literals of its cube in their simplest form, each once, equations as two bounds,
/// and the last first: so equal lemmas have equal cubes, and what came late is what is left out first.
/// Then runs of literals are left out as far as that is shown: halves, quarters and so on.
pub fn tidy(lent: &Lent, part: LemmaPart, nodes: u32) -> Result<LemmaPart, Memory>
    requires goes_on { GoesOn lent.now }
    requires learnt { IsLearnt lent.now part }
    requires some { 0 < nodes }
    ensures { IfOk result (IsInPlaceOf lent.now part) }
{
    let lits = simplest(lent.alloc, part.lemma.cube().lits())?;
    let mut tries = Tries::new(lent.alloc, part);
    if let Some(cube) = cube_of(lent.alloc, lits)? {
        tries.try_cube(lent, &cube, nodes)?;
    }
    shrink(lent, &mut tries, nodes)?;
    Ok(tries.into_part())
}
