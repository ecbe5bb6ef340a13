//! A lemma's lift to the next level.

ghost use Rattle.std.specs.Prelude.{◌<◌, length, IfOk};
ghost use Rattle.lemma_frames.specs.Frames.{level_of};
ghost use Rattle.obligation_turn.specs.Turns.{GoesOn};
ghost use Rattle.obligation_turn.specs.Workspaces.{IsWorkspaceFor};
ghost use Rattle.lemma_general.specs.Generals.{IsLiftFound};

use crate::showing::refuted;
use base::Memory;
use obligation_turn::{Workspace, found_of_lemma};
use step_rules::{Lent, LiftPart};

/// The lift of the lemma of that number, if the frame of its level implies it, with what earlier turns
/// of the book kept: where an instance that was found before still stands against the lemma, no query
/// is asked.
pub fn lift_in(
    lent: &Lent,
    id: u32,
    nodes: u32,
    work: &mut Workspace,
) -> Result<Option<LiftPart>, Memory>
    requires goes_on { GoesOn lent.now }
    requires there { id < length lent.now.frames.lemmas }
    requires below { level_of lent.now.frames.lemmas id < lent.now.level }
    requires some { 0 < nodes }
    requires work { IsWorkspaceFor lent.now.system work.old }
    ensures found { IfOk result (IsLiftFound lent.now nodes id) }
    ensures work { IsWorkspaceFor lent.now.system work.new }
{
    let from = lent.frames.level_of(id);
    let found = found_of_lemma(lent, id, nodes, work)?;
    match refuted(found) {
        Some(proofs) => {
            let part = LiftPart {
                lemma: id,
                from,
                proofs,
            };
            Ok(Some(part))
        }
        None => Ok(None),
    }
}

/// The lift of the lemma of that number, if the frame of its level implies it.
pub fn lift(lent: &Lent, id: u32, nodes: u32) -> Result<Option<LiftPart>, Memory>
    requires goes_on { GoesOn lent.now }
    requires there { id < length lent.now.frames.lemmas }
    requires below { level_of lent.now.frames.lemmas id < lent.now.level }
    requires some { 0 < nodes }
    ensures { IfOk result (IsLiftFound lent.now nodes id) }
{
    let mut work = Workspace::new(lent.alloc);
    lift_in(lent, id, nodes, &mut work)
}
