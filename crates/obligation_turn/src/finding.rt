//! What is found of a lemma, where an instance that was found before is looked at first.

ghost use Rattle.std.specs.Prelude.{◌≡◌, ◌↔◌, ◌<◌, true, length, IfOk, IfSome, IsTrue};
ghost use Rattle.chc_tokens.specs.Tokens.{is_seen};
ghost use Rattle.obligation_turn.specs.Turns.{GoesOn};
ghost use Rattle.obligation_turn.specs.Workspaces.{IsFoundOf, IsHitOf, IsWorkspaceFor};

use crate::hitting::is_hit;
use crate::workspace::Workspace;
use base::{Copied, Memory};
use chc_tokens::{Goal, Seen};
use clause_queries::{Found, ask_all};
use step_rules::Lent;

/// Asks whether the frame of its level implies the lemma through every clause.
fn ask_lemma(lent: &Lent, id: u32, nodes: u32) -> Result<Found, Memory>
    requires goes_on { GoesOn lent.now }
    requires there { id < length lent.now.frames.lemmas }
    requires some { 0 < nodes }
    ensures { IfOk result (IsFoundOf lent.now nodes id) }
{
    let level = lent.frames.level_of(id);
    let pred = lent.frames.pred_of(id);
    let lemma = lent.frames.lemma(id).copy(lent.alloc)?;
    let goal = Goal::Holds(lemma);
    let found = ask_all(
        lent.alloc,
        lent.system,
        lent.frames,
        Some(pred),
        &goal,
        level,
        nodes,
    )?;
    Ok(found)
}

/// Whether the instance breaks the lemma of that number, with its body in the frame of its level.
fn is_hit_of(lent: &Lent, id: u32, seen: &Seen) -> Result<bool, Memory>
    requires there { id < length lent.now.frames.lemmas }
    requires seen { is_seen lent.now.system seen.now ≡ true }
    ensures { IfOk result (λ hit. IsTrue hit ↔ IsHitOf lent.now id seen.now) }
{
    let pred = lent.frames.pred_of(id);
    let level = lent.frames.level_of(id);
    let lemma = lent.frames.lemma(id);
    let hit = is_hit(
        lent.alloc,
        lent.system,
        lent.frames,
        pred,
        lemma,
        level,
        seen,
    )?;
    Ok(hit)
}

/// The instance that is kept for the lemma, if it still breaks it so.
fn kept_hit(lent: &Lent, work: &Workspace, id: u32) -> Result<Option<Seen>, Memory>
    requires there { id < length lent.now.frames.lemmas }
    requires work { IsWorkspaceFor lent.now.system work.now }
    ensures { IfOk result (λ found. IfSome found (IsHitOf lent.now id)) }
{
    match work.seen_of(id) {
        Some(seen) => {
            let hit = is_hit_of(lent, id, seen)?;
            if !hit {
                return Ok(None);
            }
            let seen = seen.copy(lent.alloc)?;
            Ok(Some(seen))
        }
        None => Ok(None),
    }
}

/// Asks of the lemma, and keeps an instance that is found.
fn ask_anew(lent: &Lent, id: u32, nodes: u32, work: &mut Workspace) -> Result<Found, Memory>
    requires goes_on { GoesOn lent.now }
    requires there { id < length lent.now.frames.lemmas }
    requires some { 0 < nodes }
    requires work { IsWorkspaceFor lent.now.system work.old }
    ensures found { IfOk result (IsFoundOf lent.now nodes id) }
    ensures work { IsWorkspaceFor lent.now.system work.new }
{
    let found = ask_lemma(lent, id, nodes)?;
    match found {
        Found::Instance(seen) => {
            let copy = seen.copy(lent.alloc)?;
            work.keep(lent, id, copy)?;
            Ok(Found::Instance(seen))
        }
        found => Ok(found),
    }
}

/// What is found of the lemma of that number under the frame of its level. Where the instance that the
/// workspace keeps for it still breaks it, with its body in that frame, no query is asked.
pub fn found_of_lemma(
    lent: &Lent,
    id: u32,
    nodes: u32,
    work: &mut Workspace,
) -> Result<Found, Memory>
    requires goes_on { GoesOn lent.now }
    requires there { id < length lent.now.frames.lemmas }
    requires some { 0 < nodes }
    requires work { IsWorkspaceFor lent.now.system work.old }
    ensures found { IfOk result (IsFoundOf lent.now nodes id) }
    ensures work { IsWorkspaceFor lent.now.system work.new }
{
    match kept_hit(lent, work, id)? {
        Some(seen) => Ok(Found::Instance(seen)),
        None => ask_anew(lent, id, nodes, work),
    }
}
