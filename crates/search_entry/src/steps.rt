//! The step that brings one lemma further.

ghost use Rattle.std.specs.Prelude.{◌<◌, length, IfOk, IfSome};
ghost use Rattle.lemma_frames.specs.Frames.{level_of};
ghost use Rattle.obligation_turn.specs.Turns.{GoesOn};
ghost use Rattle.obligation_turn.specs.Workspaces.{IsWorkspaceFor};
ghost use Rattle.search_strategy.specs.machinery.Steps.{IsTaken};

use crate::finding::find;
use base::Memory;
use guess_bounds::Wanted;
use lemma_general::{lift_in, strengthen};
use obligation_turn::Workspace;
use search_strategy::few;
use step_rules::{Lent, Step};

/// The step that adds the lemma at the level, if it is shown there.
fn added_at(lent: &Lent, wanted: &Wanted, level: u32, nodes: u32) -> Result<Option<Step>, Memory>
    requires goes_on { GoesOn lent.now }
    requires some { 0 < nodes }
    ensures { IfOk result (λ found. IfSome found (IsTaken lent.now nodes)) }
{
    let most = few(nodes);
    match strengthen(lent, wanted.pred, &wanted.lemma, level, most)? {
        Some(part) => Ok(Some(Step::StrengthenStep(part))),
        None => Ok(None),
    }
}

/// The step that adds the lemma, at the book's level or else at the first; none where it is there.
pub(crate) fn added(lent: &Lent, wanted: &Wanted, nodes: u32) -> Result<Option<Step>, Memory>
    requires goes_on { GoesOn lent.now }
    requires some { 0 < nodes }
    ensures { IfOk result (λ found. IfSome found (IsTaken lent.now nodes)) }
{
    if find(lent.frames, wanted).is_some() {
        return Ok(None);
    }
    match added_at(lent, wanted, lent.level, nodes)? {
        Some(step) => Ok(Some(step)),
        None => added_at(lent, wanted, 1, nodes),
    }
}

/// The step that lifts the lemma of that number, if it is shown one level up.
fn lift(lent: &Lent, id: u32, nodes: u32, work: &mut Workspace) -> Result<Option<Step>, Memory>
    requires goes_on { GoesOn lent.now }
    requires some { 0 < nodes }
    requires there { id < length lent.now.frames.lemmas }
    requires below { level_of lent.now.frames.lemmas id < lent.now.level }
    requires work { IsWorkspaceFor lent.now.system work.old }
    ensures taken { IfOk result (λ found. IfSome found (IsTaken lent.now nodes)) }
    ensures work { IsWorkspaceFor lent.now.system work.new }
{
    let most = few(nodes);
    match lift_in(lent, id, most, work)? {
        Some(part) => Ok(Some(Step::LiftStep(part))),
        None => Ok(None),
    }
}

/// The step that lifts the lemma, if it is there and of no higher level than this one.
pub(crate) fn lifted(
    lent: &Lent,
    wanted: &Wanted,
    level: u32,
    nodes: u32,
    work: &mut Workspace,
) -> Result<Option<Step>, Memory>
    requires goes_on { GoesOn lent.now }
    requires some { 0 < nodes }
    requires work { IsWorkspaceFor lent.now.system work.old }
    ensures taken { IfOk result (λ found. IfSome found (IsTaken lent.now nodes)) }
    ensures work { IsWorkspaceFor lent.now.system work.new }
{
    let Some(id) = find(lent.frames, wanted) else {
        return Ok(None);
    };
    let own = lent.frames.level_of(id);
    if own > level || own >= lent.level {
        return Ok(None);
    }
    lift(lent, id, nodes, work)
}
