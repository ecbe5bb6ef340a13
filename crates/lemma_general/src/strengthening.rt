//! A lemma that enters a book for no obligation.

ghost use Rattle.std.specs.Prelude.{◌≡◌, ◌<◌, IfOk};
ghost use Rattle.obligation_turn.specs.Turns.{GoesOn};
ghost use Rattle.lemma_general.specs.Generals.{IsStrengthenFound, may_enter};

use crate::showing::show;
use crate::trying::is_over;
use base::{Copied, Memory};
use cube_forms::Lemma;
use cube_rules::is_wide;
use step_rules::{Lent, StrengthenPart};

/// Whether the lemma may enter at the level: the book has it, the lemma is over the predicate, and its
/// coefficients are below 2^54 in magnitude.
fn may_enter(lent: &Lent, pred: u32, lemma: &Lemma, level: u32) -> bool
    ensures { result ≡ may_enter lent.now pred level lemma.now }
{
    level >= 1
        && level <= lent.level
        && is_over(lent.system, pred, lemma.cube())
        && !is_wide(lemma.cube().lits())
}

/// The step that adds the lemma at the level, for no obligation, if the frame below that and the lemma itself
/// imply it.
pub fn strengthen(
    lent: &Lent,
    pred: u32,
    lemma: &Lemma,
    level: u32,
    nodes: u32,
) -> Result<Option<StrengthenPart>, Memory>
    requires goes_on { GoesOn lent.now }
    requires some { 0 < nodes }
    ensures { IfOk result (IsStrengthenFound lent.now nodes pred level lemma.now) }
{
    if !may_enter(lent, pred, lemma, level) {
        return Ok(None);
    }
    let shown = show(lent, pred, lemma.cube(), level - 1, nodes)?;
    match shown {
        Some(proofs) => {
            let lemma = lemma.copy(lent.alloc)?;
            Ok(Some(StrengthenPart {
                pred,
                lemma,
                level,
                proofs,
            }))
        }
        None => Ok(None),
    }
}
