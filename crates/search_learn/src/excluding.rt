//! Cubes that bounds exclude, in a lemma's place.

ghost use Rattle.std.specs.Prelude.{◌<◌, IfOk, OnOk};
ghost use Rattle.obligation_turn.specs.Turns.{GoesOn};
ghost use Rattle.lemma_general.specs.Generals.{IsLearnt};
ghost use Rattle.lemma_general.specs.Tries.{IsTrying};
ghost use Rattle.search_learn.specs.Candidates.{IsInPlaceOf};

use crate::moving::push_all;
use crate::proposing::{try_each, with_one_of};
use base::{Copied, Memory};
use cube_forms::Cube;
use guess_all::Hints;
use guess_bounds::Bounds;
use guess_hulls::cube_of;
use guess_table::has_lit;
use lemma_general::Tries;
use lin_atoms::Lit;
use std::alloc::Global;
use step_rules::{LemmaPart, Lent};

/// Whether bounds are tried now: those that don't refute each query at every third unit alone, as they
/// crowd out the lemmas of a system that has no solution.
fn are_tried(lent: &Lent, bounds: &Bounds) -> bool {
    bounds.are_safe() || lent.spent % 3 == 0
}

/// The cubes that are tried in the lemma's place.
fn cubes_for(lent: &Lent, part: &LemmaPart, hints: &Hints) -> Result<Vec<Cube>, Memory> {
    let bounds = hints.bounds();
    if part.target >= lent.tree.count() || !are_tried(lent, bounds) {
        return Ok(Vec::new(lent.alloc));
    }
    let obligation = lent.tree.obligation(part.target);
    bounds.cubes(lent.alloc, part.pred, obligation.point.as_slice())
}

/// Puts a lemma of a cube in its place that one of the bounds excludes, if the frame below implies one;
/// whether it does.
pub fn try_bounds(lent: &Lent, tries: &mut Tries, hints: &Hints, nodes: u32) -> Result<bool, Memory>
    requires goes_on { GoesOn lent.now }
    requires some { 0 < nodes }
    requires trying { IsTrying lent.now tries.old }
    ensures { OnOk result (IsTrying lent.now tries.new) }
{
    let cubes = cubes_for(lent, tries.part(), hints)?;
    let taken = try_each(lent, tries, cubes.as_slice(), nodes)?;
    Ok(taken)
}

/// The cube of these literals, with those of another one behind them, each once.
fn joined(alloc: Global, lits: &[Lit], last: &[Lit]) -> Result<Option<Cube>, Memory> {
    let mut made = Vec::new(alloc);
    for lit in lits {
        if !has_lit(last, lit) {
            made.push(lit.copy(alloc)?)?;
        }
    }
    push_all(alloc, &mut made, last)?;
    cube_of(alloc, made)
}

/// The lemma's cube, narrowed to what the first of the bounds excludes that the obligation's point breaks,
/// where they refute each query.
fn narrowed_for(lent: &Lent, part: &LemmaPart, hints: &Hints) -> Result<Vec<Cube>, Memory> {
    let mut made = Vec::new(lent.alloc);
    if !hints.bounds().are_safe() {
        return Ok(made);
    }
    let cubes = cubes_for(lent, part, hints)?;
    if let Some(cube) = cubes.as_slice().first() {
        let own = part.lemma.cube().lits();
        if let Some(cube) = joined(lent.alloc, own, cube.lits())? {
            made.push(cube)?;
        }
    }
    Ok(made)
}

/// A lemma in the lemma's place whose cube has the literals of a bound behind its own, if bounds were found
/// that refute each query and the obligation's point breaks one; else the lemma as it is. It excludes less,
/// but what is left of it when it is made more general is the bound, and of its own literals those without
/// which it doesn't hold yet.
pub fn narrow(lent: &Lent, part: LemmaPart, hints: &Hints, nodes: u32) -> Result<LemmaPart, Memory>
    requires goes_on { GoesOn lent.now }
    requires learnt { IsLearnt lent.now part }
    requires some { 0 < nodes }
    ensures { IfOk result (IsInPlaceOf lent.now part) }
{
    let cubes = narrowed_for(lent, &part, hints)?;
    with_one_of(lent, part, cubes.as_slice(), nodes)
}
