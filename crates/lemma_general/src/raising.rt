//! The same lemma at a higher level.

ghost use Rattle.std.specs.Prelude.{◌<◌, IfOk};
ghost use Rattle.obligation_turn.specs.Turns.{GoesOn};
ghost use Rattle.lemma_general.specs.Generals.{IsLearnt, IsRaised};
ghost use Rattle.lemma_general.specs.machinery.Passes.{IsRaisedOnce};

use crate::showing::show;
use base::Memory;
use step_rules::{LemmaPart, Lent};

/// Takes the lemma to the next level, if there is one and the frame below that and the lemma itself imply
/// it.
fn raise_once(lent: &Lent, part: &mut LemmaPart, nodes: u32) -> Result<bool, Memory>
    requires goes_on { GoesOn lent.now }
    requires learnt { IsLearnt lent.now part.old }
    requires some { 0 < nodes }
    ensures { IfOk result (IsRaisedOnce lent.now nodes part.old part.new) }
{
    if part.level >= lent.level {
        return Ok(false);
    }
    let shown = show(lent, part.pred, part.lemma.cube(), part.level, nodes)?;
    match shown {
        Some(proofs) => {
            part.level += 1;
            part.proofs = proofs;
            Ok(true)
        }
        None => Ok(false),
    }
}

/// Takes the lemma as it is to the highest level up to the book's to which the frames below carry it
/// from where it is, level by level.
pub fn raise(lent: &Lent, part: LemmaPart, nodes: u32) -> Result<LemmaPart, Memory>
    requires goes_on { GoesOn lent.now }
    requires learnt { IsLearnt lent.now part }
    requires some { 0 < nodes }
    ensures { IfOk result (IsRaised lent.now nodes part) }
{
    let mut part = part;
    let mut going = true;
    'raise: while going {
        going = raise_once(lent, &mut part, nodes)?;
    }
    Ok(part)
}
