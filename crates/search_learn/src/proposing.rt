//! Other cubes in a lemma's place.

ghost use Rattle.std.specs.Prelude.{◌<◌, IfOk, OnOk};
ghost use Rattle.obligation_turn.specs.Turns.{GoesOn};
ghost use Rattle.lemma_general.specs.Generals.{IsLearnt};
ghost use Rattle.lemma_general.specs.Tries.{IsTrying};
ghost use Rattle.search_learn.specs.Candidates.{IsInPlaceOf};
ghost use Rattle.search_learn.specs.machinery.Tried.{IsTriedOn};

use base::Memory;
use cube_forms::Cube;
use guess_all::Hints;
use guess_hulls::pair_sums;
use lemma_general::{Tries, generalise};
use lin_atoms::Lit;
use step_rules::{LemmaPart, Lent};

/// Tries one cube after another, until one is taken; whether one was.
pub(crate) fn try_each(
    lent: &Lent,
    tries: &mut Tries,
    cubes: &[Cube],
    nodes: u32,
) -> Result<bool, Memory>
    requires goes_on { GoesOn lent.now }
    requires trying { IsTrying lent.now tries.old }
    requires some { 0 < nodes }
    ensures { OnOk result (IsTriedOn lent.now tries.old tries.new) }
{
    for cube in cubes {
        if tries.try_cube(lent, cube, nodes)? {
            return Ok(true);
        }
    }
    Ok(false)
}

/// Cubes that hold the point of the lemma's obligation, by what was guessed.
fn shut_out(
    lent: &Lent,
    part: &LemmaPart,
    hints: &Hints,
    whole: bool,
) -> Result<Vec<Cube>, Memory> {
    if part.target >= lent.tree.count() {
        return Ok(Vec::new(lent.alloc));
    }
    let obligation = lent.tree.obligation(part.target);
    hints.cubes(lent.alloc, part.pred, obligation.point.as_slice(), whole)
}

/// Whether the literal is a bound.
fn is_bound(lit: &Lit) -> bool {
    match lit {
        Lit::Le(_) => true,
        _ => false,
    }
}

/// Whether the literal says something of residues.
fn is_of_residues(lit: &Lit) -> bool {
    match lit {
        Lit::Div(_, _) => true,
        Lit::NDiv(_, _) => true,
        _ => false,
    }
}

/// Whether all literals are bounds.
fn are_bounds(lits: &[Lit]) -> bool {
    for lit in lits {
        if !is_bound(lit) {
            return false;
        }
    }
    true
}

/// Whether all literals say something of residues.
fn are_of_residues(lits: &[Lit]) -> bool {
    for lit in lits {
        if !is_of_residues(lit) {
            return false;
        }
    }
    true
}

/// Cubes that hold the point of the lemma's obligation, by what was guessed, of the kind that the
/// lemma's cube has: of literals about residues alone none, and by residues only where the cube has
/// more than bounds.
fn shut_out_alike(lent: &Lent, part: &LemmaPart, hints: &Hints) -> Result<Vec<Cube>, Memory> {
    let lits = part.lemma.cube().lits();
    if lits.len() > 0 && are_of_residues(lits) {
        return Ok(Vec::new(lent.alloc));
    }
    shut_out(lent, part, hints, !are_bounds(lits))
}

/// The lemma with the first of the cubes that is taken, else as it is.
pub(crate) fn with_one_of(
    lent: &Lent,
    part: LemmaPart,
    cubes: &[Cube],
    nodes: u32,
) -> Result<LemmaPart, Memory>
    requires goes_on { GoesOn lent.now }
    requires learnt { IsLearnt lent.now part }
    requires some { 0 < nodes }
    ensures { IfOk result (IsInPlaceOf lent.now part) }
{
    let mut tries = Tries::new(lent.alloc, part);
    try_each(lent, &mut tries, cubes, nodes)?;
    Ok(tries.into_part())
}

/// A lemma of another cube in the lemma's place, if the frame below implies one of those that hold the
/// obligation's point and are shut out by what was guessed of the predicate. Else the lemma as it is.
pub fn propose_hulls(
    lent: &Lent,
    part: LemmaPart,
    hints: &Hints,
    nodes: u32,
) -> Result<LemmaPart, Memory>
    requires goes_on { GoesOn lent.now }
    requires learnt { IsLearnt lent.now part }
    requires some { 0 < nodes }
    ensures { IfOk result (IsInPlaceOf lent.now part) }
{
    let cubes = shut_out(lent, &part, hints, true)?;
    with_one_of(lent, part, cubes.as_slice(), nodes)
}

/// A lemma of another cube in the lemma's place, as `propose_hulls` finds it, but of fewer cubes, for a
/// lemma as its turn gave it: a cube of literals about residues stays, and residues are tried only in
/// the place of a cube that has more than bounds.
pub fn propose_alike(
    lent: &Lent,
    part: LemmaPart,
    hints: &Hints,
    nodes: u32,
) -> Result<LemmaPart, Memory>
    requires goes_on { GoesOn lent.now }
    requires learnt { IsLearnt lent.now part }
    requires some { 0 < nodes }
    ensures { IfOk result (IsInPlaceOf lent.now part) }
{
    let cubes = shut_out_alike(lent, &part, hints)?;
    with_one_of(lent, part, cubes.as_slice(), nodes)
}

/// A lemma of another cube in the lemma's place, made more general, if the frame below implies one of
/// those that are tried: sums of two bounds of its cube. Else the lemma as it is. It is for lemmas that
/// were made more general, so that only bounds that matter are added up.
pub fn propose(lent: &Lent, part: LemmaPart, nodes: u32) -> Result<LemmaPart, Memory>
    requires goes_on { GoesOn lent.now }
    requires learnt { IsLearnt lent.now part }
    requires some { 0 < nodes }
    ensures { IfOk result (IsInPlaceOf lent.now part) }
{
    let cubes = pair_sums(lent.alloc, part.lemma.cube())?;
    let mut tries = Tries::new(lent.alloc, part);
    let taken = try_each(lent, &mut tries, cubes.as_slice(), nodes)?;
    let part = tries.into_part();
    if !taken {
        return Ok(part);
    }
    let general = generalise(lent, part, nodes)?;
    Ok(general)
}
