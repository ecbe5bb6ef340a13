//! Bounds of a lemma that are moved outwards: one lemma then does for many steps of a counter.

ghost use Rattle.std.specs.Prelude.{◌<◌, IfOk, OnOk};
ghost use Rattle.obligation_turn.specs.Turns.{GoesOn};
ghost use Rattle.lemma_general.specs.Generals.{IsLearnt};
ghost use Rattle.lemma_general.specs.Tries.{IsTrying};
ghost use Rattle.search_learn.specs.Candidates.{IsWidened};
ghost use Rattle.search_learn.specs.machinery.Tried.{IsWidenedOn};

use crate::moving::wider;
use base::Memory;
use lemma_general::Tries;
use step_rules::{LemmaPart, Lent};

/// The level of a book from which on bounds are widened. Below, lemmas of loops that are safe would
/// become too tight.
const FROM_LEVEL: u32 = 12;

/// How often a bound is moved.
const MOST_MOVES: u32 = 40;

/// The widest move that is followed by a wider one.
const WIDEST: u64 = 1 << 40;

/// How far a bound is moved next. Moves double until one is refused, and are halved from then on.
#[derive(Clone, Copy)]
struct Move {
    by: u64,
    grows: bool,
}

/// The move after one that was taken or not.
fn next(last: Move, taken: bool) -> Move {
    if last.grows && taken && last.by <= WIDEST {
        Move {
            by: last.by * 2,
            grows: true,
        }
    } else {
        Move {
            by: last.by / 2,
            grows: false,
        }
    }
}

/// Whether the bound at a place could be moved.
fn try_move(lent: &Lent, tries: &mut Tries, at: usize, by: u64, nodes: u32) -> Result<bool, Memory>
    requires goes_on { GoesOn lent.now }
    requires trying { IsTrying lent.now tries.old }
    requires some { 0 < nodes }
    ensures { OnOk result (IsWidenedOn lent.now tries.old tries.new) }
{
    match wider(lent.alloc, tries.part().lemma.cube(), at, by)? {
        Some(cube) => {
            let taken = tries.try_cube(lent, &cube, nodes)?;
            Ok(taken)
        }
        None => Ok(false),
    }
}

/// Moves the bound at a place as far as a few tries show.
fn widen_at(lent: &Lent, tries: &mut Tries, at: usize, nodes: u32) -> Result<(), Memory>
    requires goes_on { GoesOn lent.now }
    requires trying { IsTrying lent.now tries.old }
    requires some { 0 < nodes }
    ensures { OnOk result (IsWidenedOn lent.now tries.old tries.new) }
{
    let mut step = Move { by: 1, grows: true };
    for _ in 0..MOST_MOVES {
        if step.by == 0 {
            return Ok(());
        }
        let taken = try_move(lent, tries, at, step.by, nodes)?;
        step = next(step, taken);
    }
    Ok(())
}

/// The lemma with each bound of its cube moved outwards, as far as a few tries show that the frame below
/// implies it so; the lemma as it is in a book of a low level.
pub fn widen(lent: &Lent, part: LemmaPart, nodes: u32) -> Result<LemmaPart, Memory>
    requires goes_on { GoesOn lent.now }
    requires learnt { IsLearnt lent.now part }
    requires some { 0 < nodes }
    ensures { IfOk result (IsWidened lent.now part) }
{
    if lent.level < FROM_LEVEL {
        return Ok(part);
    }
    let count = part.lemma.cube().lits().len();
    let mut tries = Tries::new(lent.alloc, part);
    for at in 0..count {
        widen_at(lent, &mut tries, at, nodes)?;
    }
    Ok(tries.into_part())
}
