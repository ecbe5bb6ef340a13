//! Literals that are left out many at a time.

ghost use Rattle.std.specs.Prelude.{◌<◌, OnOk};
ghost use Rattle.obligation_turn.specs.Turns.{GoesOn};
ghost use Rattle.lemma_general.specs.Tries.{IsTrying};
ghost use Rattle.search_learn.specs.machinery.Tried.{IsTriedOn};

use base::{Copied, Memory};
use cube_forms::Cube;
use guess_hulls::cube_of;
use lemma_general::Tries;
use std::alloc::Global;
use step_rules::Lent;

/// How many literals are left out at once at least.
const FEWEST: usize = 2;

/// How often the number of literals is halved.
const MOST_HALVINGS: u32 = 12;

/// The cube without the `count` literals from the place `at` on.
fn without(alloc: Global, cube: &Cube, at: usize, count: usize) -> Result<Option<Cube>, Memory> {
    let mut lits = Vec::new(alloc);
    for (i, lit) in cube.lits().iter().enumerate() {
        if i < at || i - at >= count {
            lits.push(lit.copy(alloc)?)?;
        }
    }
    cube_of(alloc, lits)
}

/// Whether the `count` literals from the place `at` on could be left out.
fn try_without(
    lent: &Lent,
    tries: &mut Tries,
    at: usize,
    count: usize,
    nodes: u32,
) -> Result<bool, Memory>
    requires goes_on { GoesOn lent.now }
    requires trying { IsTrying lent.now tries.old }
    requires some { 0 < nodes }
    ensures { OnOk result (IsTriedOn lent.now tries.old tries.new) }
{
    match without(lent.alloc, tries.part().lemma.cube(), at, count)? {
        Some(cube) => {
            let taken = tries.try_cube(lent, &cube, nodes)?;
            Ok(taken)
        }
        None => Ok(false),
    }
}

/// Where the next run begins: where one was left out, the next has come there.
fn next(at: usize, count: usize, taken: bool) -> usize {
    if taken { at } else { at.saturating_add(count) }
}

/// Tries to leave out each run of `count` literals.
fn shrink_by(lent: &Lent, tries: &mut Tries, count: usize, nodes: u32) -> Result<(), Memory>
    requires goes_on { GoesOn lent.now }
    requires trying { IsTrying lent.now tries.old }
    requires some { 0 < nodes }
    ensures { OnOk result (IsTriedOn lent.now tries.old tries.new) }
{
    let mut at: usize = 0;
    for _ in 0..tries.part().lemma.cube().lits().len() {
        if at >= tries.part().lemma.cube().lits().len() {
            return Ok(());
        }
        let taken = try_without(lent, tries, at, count, nodes)?;
        at = next(at, count, taken);
    }
    Ok(())
}

/// Tries to leave out halves of the literals, then quarters and so on.
pub(crate) fn shrink(lent: &Lent, tries: &mut Tries, nodes: u32) -> Result<(), Memory>
    requires goes_on { GoesOn lent.now }
    requires trying { IsTrying lent.now tries.old }
    requires some { 0 < nodes }
    ensures { OnOk result (IsTriedOn lent.now tries.old tries.new) }
{
    let mut count = tries.part().lemma.cube().lits().len() / 2;
    for _ in 0..MOST_HALVINGS {
        if count < FEWEST {
            return Ok(());
        }
        shrink_by(lent, tries, count, nodes)?;
        count /= 2;
    }
    Ok(())
}
