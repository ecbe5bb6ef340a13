//! Literals that a lemma needn't have.

ghost use Rattle.std.specs.Prelude.{◌≡◌, ◌<◌, ◌-◌, length, true, OnOk, IfOk};
ghost use Rattle.cube_forms.specs.Cubes.{cube_holds};
ghost use Rattle.obligation_turn.specs.Turns.{GoesOn};
ghost use Rattle.lemma_general.specs.Generals.{IsGeneralised, IsLearnt, without};
ghost use Rattle.lemma_general.specs.Tries.{point_of};
ghost use Rattle.lemma_general.specs.machinery.Passes.{AreMet, AreShownOf, IsCubeOf, IsPassed, IsReplaced, IsSplit, IsTaken};

use crate::bounds::{bounds_of, has_equation};
use crate::breaking::{Breaking, is_met, keep};
use crate::cubes::{kept, without};
use crate::showing::ask_below;
use base::{Items, Memory};
use chc_tokens::Shown;
use clause_queries::{Found, is_kept};
use cube_forms::{Cube, negate};
use step_rules::{LemmaPart, Lent};

/// Puts the cube in place of the lemma's.
fn replace(
    lent: &Lent,
    part: &mut LemmaPart,
    cube: &Cube,
    proofs: Items<Shown>,
) -> Result<(), Memory>
    requires goes_on { GoesOn lent.now }
    requires learnt { IsLearnt lent.now part.old }
    requires cube { IsCubeOf lent.now part.old.pred cube.now }
    requires held { cube_holds (point_of lent.now part.old.target) cube.now ≡ true }
    requires proofs { AreShownOf lent.now part.old.pred cube.now (part.old.level - 1) proofs }
    ensures { OnOk result (IsReplaced lent.now cube.now part.old part.new) }
{
    let lemma = negate(lent.alloc, cube)?;
    part.lemma = lemma;
    part.proofs = proofs;
    Ok(())
}

/// Takes the cube in place of the lemma's, where the frame below and the lemma of the cube imply that
/// lemma. An instance that keeps it out is kept.
pub(crate) fn take(
    lent: &Lent,
    part: &mut LemmaPart,
    met: &mut Items<Breaking>,
    cube: &Cube,
    nodes: u32,
) -> Result<bool, Memory>
    requires goes_on { GoesOn lent.now }
    requires some { 0 < nodes }
    requires learnt { IsLearnt lent.now part.old }
    requires cube { IsCubeOf lent.now part.old.pred cube.now }
    requires held { cube_holds (point_of lent.now part.old.target) cube.now ≡ true }
    requires met { AreMet lent.now part.old met.old }
    ensures met { OnOk result (AreMet lent.now part.new met.new) }
    ensures taken { IfOk result (IsTaken lent.now nodes cube.now part.old part.new) }
{
    is_kept(cube);
    if is_met(met.as_slice(), cube) {
        return Ok(false);
    }
    let found = ask_below(lent, part, cube, nodes)?;
    match found {
        Found::Instance(seen) => {
            keep(lent, met, part, cube, seen)?;
            Ok(false)
        }
        Found::GivenUp(lost) => {
            let _lost = lost;
            Ok(false)
        }
        Found::Refuted(proofs) => {
            replace(lent, part, cube, proofs)?;
            Ok(true)
        }
    }
}

/// Drops the literal at a place, unless an instance or evidence is against it.
fn drop_at(
    lent: &Lent,
    part: &mut LemmaPart,
    met: &mut Items<Breaking>,
    at: usize,
    nodes: u32,
) -> Result<bool, Memory>
    requires goes_on { GoesOn lent.now }
    requires some { 0 < nodes }
    requires learnt { IsLearnt lent.now part.old }
    requires at { at < length part.old.lemma }
    requires met { AreMet lent.now part.old met.old }
    ensures met { OnOk result (AreMet lent.now part.new met.new) }
    ensures taken { IfOk result (IsTaken lent.now nodes (without at part.old.lemma) part.old part.new) }
{
    let cube = without(lent.alloc, part.lemma.cube(), at)?;
    let taken = take(lent, part, met, &cube, nodes)?;
    Ok(taken)
}

/// Tries to drop each literal, from the first to the last. Whether one was dropped.
fn pass(
    lent: &Lent,
    part: &mut LemmaPart,
    met: &mut Items<Breaking>,
    nodes: u32,
) -> Result<bool, Memory>
    requires goes_on { GoesOn lent.now }
    requires some { 0 < nodes }
    requires learnt { IsLearnt lent.now part.old }
    requires met { AreMet lent.now part.old met.old }
    ensures met { OnOk result (AreMet lent.now part.new met.new) }
    ensures passed { IfOk result (IsPassed lent.now nodes part.old part.new) }
{
    let mut dropped = false;
    let mut at = 0;
    'drop: while at < part.lemma.cube().lits().len() {
        if drop_at(lent, part, met, at, nodes)? {
            dropped = true;
            continue;
        }
        at += 1;
    }
    Ok(dropped)
}

/// Each equation of the lemma's cube as two bounds, where the frame below implies it so.
fn split(
    lent: &Lent,
    part: &mut LemmaPart,
    met: &mut Items<Breaking>,
    nodes: u32,
) -> Result<(), Memory>
    requires goes_on { GoesOn lent.now }
    requires some { 0 < nodes }
    requires learnt { IsLearnt lent.now part.old }
    requires met { AreMet lent.now part.old met.old }
    ensures met { OnOk result (AreMet lent.now part.new met.new) }
    ensures split { OnOk result (IsSplit lent.now nodes part.old part.new) }
{
    if !has_equation(part.lemma.cube().lits()) {
        return Ok(());
    }
    let lits = bounds_of(lent.alloc, part.lemma.cube().lits())?;
    let cube = kept(lent.alloc, lits)?;
    take(lent, part, met, &cube, nodes)?;
    Ok(())
}

/// A more general lemma in place of the one that the step learns: each equation of its cube is split
/// into two bounds, and literals are dropped, pass after pass, until each that is left has an instance
/// or evidence against dropping it.
pub fn generalise(lent: &Lent, part: LemmaPart, nodes: u32) -> Result<LemmaPart, Memory>
    requires goes_on { GoesOn lent.now }
    requires learnt { IsLearnt lent.now part }
    requires some { 0 < nodes }
    ensures { IfOk result (IsGeneralised lent.now nodes part) }
{
    let mut part = part;
    let mut met = Items::new(lent.alloc);
    split(lent, &mut part, &mut met, nodes)?;
    let mut going = true;
    'passes: while going {
        going = pass(lent, &mut part, &mut met, nodes)?;
    }
    Ok(part)
}
