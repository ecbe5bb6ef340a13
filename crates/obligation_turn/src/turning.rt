//! One turn.

ghost use Rattle.std.specs.Prelude.{◌<◌, ◌≡◌, ℕ, IfOk};
ghost use Rattle.obligation_turn.specs.Turns.{GoesOn, IsOpenLeaf, IsTurn};
ghost use Rattle.obligation_turn.specs.Workspaces.{IsWorkspaceFor};
ghost use Rattle.obligation_turn.specs.machinery.Jobs.{AreJobProofs, IsJobHit, goal_for};

use crate::opening::opened;
use crate::premises::{Premises, premises_at};
use crate::root_steps::root_step;
use crate::workspace::Workspace;
use base::{Items, Memory};
use chc_tokens::{Goal, Seen, Shown};
use clause_queries::{Found, ask_all};
use cube_forms::negate;
use obligation_tree::Obligation;
use std::alloc::Global;
use step_rules::{FactPart, LemmaPart, Lent, StallPart, Step};

/// What is asked of the clauses for an obligation: that the head lies in its cube.
fn goal_of(alloc: Global, obligation: &Obligation) -> Result<Goal, Memory>
    ensures { IfOk result (λ goal. goal ≡ goal_for obligation.now) }
{
    match obligation.pred {
        Some(_) => Ok(Goal::Holds(negate(alloc, &obligation.cube)?)),
        None => Ok(Goal::Query),
    }
}

/// The step that an instance calls for: its head is a fact where its body is recorded, and else the
/// first body atom whose tuple isn't recorded is asked.
fn step_at(lent: &Lent, job: u32, seen: Seen) -> Result<Step, Memory>
    requires goes_on { GoesOn lent.now }
    requires leaf { IsOpenLeaf lent.now job }
    requires hit { IsJobHit lent.now job seen }
    ensures { (nodes : ℕ) → IfOk result (IsTurn lent.now job nodes) }
{
    let clause = lent.system.clause(seen.clause() as usize);
    let premises = premises_at(
        lent.alloc,
        lent.facts,
        clause.atoms.as_slice(),
        seen.point(),
    )?;
    match premises {
        Premises::Recorded(premises) => Ok(Step::FactStep(FactPart {
            target: Some(job),
            seen,
            premises,
        })),
        Premises::Missing(atom) => {
            let part = opened(lent, job, seen, atom)?;
            Ok(Step::OpenStep(part))
        }
    }
}

/// The step where every clause is refuted: a lemma that excludes the obligation's cube, and for the
/// root a lift or a raise.
fn refuted(
    lent: &Lent,
    job: u32,
    proofs: Items<Shown>,
    nodes: u32,
    work: &mut Workspace,
) -> Result<Step, Memory>
    requires goes_on { GoesOn lent.now }
    requires leaf { IsOpenLeaf lent.now job }
    requires proofs { AreJobProofs lent.now job proofs }
    requires some { 0 < nodes }
    requires work { IsWorkspaceFor lent.now.system work.old }
    ensures turn { IfOk result (IsTurn lent.now job nodes) }
    ensures work { IsWorkspaceFor lent.now.system work.new }
{
    let obligation = lent.tree.obligation(job);
    match obligation.pred {
        Some(pred) => {
            let lemma = negate(lent.alloc, &obligation.cube)?;
            Ok(Step::LemmaStep(LemmaPart {
                target: job,
                pred,
                lemma,
                level: obligation.level,
                proofs,
            }))
        }
        None => root_step(lent, job, proofs, nodes, work),
    }
}

/// A step that the book takes, for a live obligation without live children that isn't stalled, as
/// `turn` finds it, with what earlier turns of the book kept.
pub fn turn_in(lent: &Lent, job: u32, nodes: u32, work: &mut Workspace) -> Result<Step, Memory>
    requires goes_on { GoesOn lent.now }
    requires leaf { IsOpenLeaf lent.now job }
    requires some { 0 < nodes }
    requires work { IsWorkspaceFor lent.now.system work.old }
    ensures turn { IfOk result (IsTurn lent.now job nodes) }
    ensures work { IsWorkspaceFor lent.now.system work.new }
{
    let obligation = lent.tree.obligation(job);
    let goal = goal_of(lent.alloc, obligation)?;
    let k = obligation.level.saturating_sub(1);
    let found = ask_all(
        lent.alloc,
        lent.system,
        lent.frames,
        obligation.pred,
        &goal,
        k,
        nodes,
    )?;
    match found {
        Found::Instance(seen) => step_at(lent, job, seen),
        Found::Refuted(proofs) => refuted(lent, job, proofs, nodes, work),
        Found::GivenUp(lost) => Ok(Step::StallStep(StallPart {
            target: job,
            clause: lost.clause,
            used: lost.used,
            evidence: lost.evidence,
        })),
    }
}

/// A step that the book takes, for a live obligation without live children that isn't stalled. An
/// instance of its cube is recorded or asked for further; where there is none, the cube is excluded
/// by a lemma, and for the root a lemma is lifted or the level raised; where a query is given up, with
/// `nodes` inner nodes, and no other has an instance, the obligation is stalled.
pub fn turn(lent: &Lent, job: u32, nodes: u32) -> Result<Step, Memory>
    requires goes_on { GoesOn lent.now }
    requires leaf { IsOpenLeaf lent.now job }
    requires some { 0 < nodes }
    ensures { IfOk result (IsTurn lent.now job nodes) }
{
    let mut work = Workspace::new(lent.alloc);
    turn_in(lent, job, nodes, &mut work)
}
