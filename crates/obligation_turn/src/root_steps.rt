//! Lifts and raises: what is done for the root when no clause has an instance.

ghost use Rattle.std.specs.Prelude.{◌≡◌, ◌<◌, ℕ, None, length, IfOk};
ghost use Rattle.lemma_frames.specs.Frames.{level_of};
ghost use Rattle.chc_tokens.specs.Kept.{kept_lemma, kept_why};
ghost use Rattle.chc_tokens.specs.Tokens.{IsKept, IsNoLift};
ghost use Rattle.obligation_turn.specs.Turns.{GoesOn, IsOpenLeaf, IsTurn};
ghost use Rattle.obligation_turn.specs.machinery.Jobs.{AreJobProofs, job_of};
ghost use Rattle.obligation_turn.specs.Workspaces.{IsHitOf, IsWorkspaceFor};
ghost use Rattle.obligation_turn.specs.machinery.Lifts.{AreKept, AreProofsOf, IsKeptAt, IsLegalLift, IsLifted, IsLostOf, IsNext};

use crate::finding::found_of_lemma;
use crate::workspace::Workspace;
use base::{Copied, Items, Memory};
use chc_tokens::{NoLift, Seen, Shown, Why};
use clause_index::IndexedSystem;
use clause_queries::{Found, Lost};
use cube_forms::Lemma;
use step_rules::{Lent, LiftPart, RaisePart, Step};

/// What was found of a lemma.
#[derive(Drop)]
pub(crate) enum Lifted {
    /// The frame of its level implies it.
    Lift(LiftPart),
    /// What keeps it where it is.
    Kept(NoLift),
}

/// What keeps the lemma where it is, over the clauses that a book lends.
fn no_lift_by(sys: &IndexedSystem, lemma: Lemma, why: Why) -> NoLift
    requires { IsKept sys.now lemma why }
    ensures lemma { kept_lemma result ≡ lemma }
    ensures why { kept_why result ≡ why }
    ensures no_lift { IsNoLift sys.now result }
{
    chc_tokens::no_lift_by(sys.plain(), lemma, why)
}

/// What keeps the lemma where it is: this instance breaks it.
fn broken(lent: &Lent, id: u32, seen: Seen) -> Result<NoLift, Memory>
    requires goes_on { GoesOn lent.now }
    requires there { id < length lent.now.frames.lemmas }
    requires hit { IsHitOf lent.now id seen }
    ensures { (nodes : ℕ) → IfOk result (IsKeptAt lent.now nodes id) }
{
    let lemma = lent.frames.lemma(id).copy(lent.alloc)?;
    let kept = no_lift_by(lent.system, lemma, Why::Broken(seen));
    Ok(kept)
}

/// What keeps the lemma where it is: this query was given up.
fn unknown(lent: &Lent, id: u32, lost: Lost, nodes: u32) -> Result<NoLift, Memory>
    requires goes_on { GoesOn lent.now }
    requires there { id < length lent.now.frames.lemmas }
    requires lost { IsLostOf lent.now nodes id lost }
    ensures { IfOk result (IsKeptAt lent.now nodes id) }
{
    let _nodes = nodes;
    let lemma = lent.frames.lemma(id).copy(lent.alloc)?;
    let why = Why::Unknown {
        clause: lost.clause,
        used: lost.used,
        evidence: lost.evidence,
    };
    let kept = no_lift_by(lent.system, lemma, why);
    Ok(kept)
}

/// The Lift of a lemma that the frame of its level implies.
fn lift(lent: &Lent, id: u32, proofs: Items<Shown>) -> LiftPart
    requires goes_on { GoesOn lent.now }
    requires there { id < length lent.now.frames.lemmas }
    requires below { level_of lent.now.frames.lemmas id < lent.now.level }
    requires proofs { AreProofsOf lent.now id proofs }
    ensures { IsLegalLift lent.now result }
{
    let from = lent.frames.level_of(id);
    LiftPart {
        lemma: id,
        from,
        proofs,
    }
}

/// A lift of the lemma, or what keeps it where it is.
fn lift_of(lent: &Lent, id: u32, nodes: u32, work: &mut Workspace) -> Result<Lifted, Memory>
    requires goes_on { GoesOn lent.now }
    requires there { id < length lent.now.frames.lemmas }
    requires below { level_of lent.now.frames.lemmas id < lent.now.level }
    requires some { 0 < nodes }
    requires work { IsWorkspaceFor lent.now.system work.old }
    ensures lifted { IfOk result (IsLifted lent.now nodes id) }
    ensures work { IsWorkspaceFor lent.now.system work.new }
{
    let found = found_of_lemma(lent, id, nodes, work)?;
    match found {
        Found::Instance(seen) => Ok(Lifted::Kept(broken(lent, id, seen)?)),
        Found::GivenUp(lost) => Ok(Lifted::Kept(unknown(lent, id, lost, nodes)?)),
        Found::Refuted(proofs) => Ok(Lifted::Lift(lift(lent, id, proofs))),
    }
}

/// The next lemma: a lift of it, or what keeps it is added. One that isn't below the closed level stays
/// as it is.
fn next(
    lent: &Lent,
    id: u32,
    kept: &mut Items<NoLift>,
    nodes: u32,
    work: &mut Workspace,
) -> Result<Option<LiftPart>, Memory>
    requires goes_on { GoesOn lent.now }
    requires there { id < length lent.now.frames.lemmas }
    requires some { 0 < nodes }
    requires kept { AreKept lent.now nodes id kept.old }
    requires work { IsWorkspaceFor lent.now.system work.old }
    ensures next { IfOk result (IsNext lent.now nodes id kept.new) }
    ensures work { IsWorkspaceFor lent.now.system work.new }
{
    if lent.frames.level_of(id) >= lent.level {
        return Ok(None);
    }
    let lifted = lift_of(lent, id, nodes, work)?;
    match lifted {
        Lifted::Lift(lift) => Ok(Some(lift)),
        Lifted::Kept(no_lift) => {
            kept.push(no_lift)?;
            Ok(None)
        }
    }
}

/// The step for the root whose queries are refuted: a lemma below the closed level that can be lifted
/// is; where none can, the level is raised.
pub(crate) fn root_step(
    lent: &Lent,
    job: u32,
    closed: Items<Shown>,
    nodes: u32,
    work: &mut Workspace,
) -> Result<Step, Memory>
    requires goes_on { GoesOn lent.now }
    requires leaf { IsOpenLeaf lent.now job }
    requires root { (job_of lent.now job).pred ≡ None }
    requires proofs { AreJobProofs lent.now job closed }
    requires some { 0 < nodes }
    requires work { IsWorkspaceFor lent.now.system work.old }
    ensures turn { IfOk result (IsTurn lent.now job nodes) }
    ensures work { IsWorkspaceFor lent.now.system work.new }
{
    let _job = job;
    let mut kept = Items::new(lent.alloc);
    for id in 0..lent.frames.count() {
        if let Some(lift) = next(lent, id, &mut kept, nodes, work)? {
            return Ok(Step::LiftStep(lift));
        }
    }
    Ok(Step::RaiseStep(RaisePart { closed, kept }))
}
