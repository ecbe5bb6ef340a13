//! Lemmas that are lifted after a step for the root.

ghost use Rattle.std.specs.Prelude.{◌≡◌, ◌<◌, ◌↔◌, length, min, IfOk, IfSome, IsTrue, MatchOption};
ghost use Rattle.obligation_turn.specs.Turns.{GoesOn};
ghost use Rattle.obligation_turn.specs.Workspaces.{IsWorkspaceFor};
ghost use Rattle.search_strategy.specs.Lifts.{AllStay, IsFirstLift, IsNextLift, MayLift};
ghost use Rattle.search_strategy.specs.machinery.Passes.{IsLiftAt, pass_of};
ghost use Rattle.search_strategy.specs.machinery.Steps.{IsTaken};

use base::Memory;
use lemma_general::lift_in;
use obligation_turn::Workspace;
use step_rules::{Lent, Step};

/// The most inner nodes of a query that asks whether a cube may take a lemma's place: what needs more is
/// left, since the lemma stands without it.
const GUESS_NODES: u32 = 200;

/// Which lemmas are lifted: those from a number on, of at least a level.
#[derive(Clone, Copy)]
pub struct Pass {
    pub next: u32,
    pub least: u32,
}

/// The lemmas that are lifted after the step in a book of this level: after a Raise those of the level
/// that was the highest, after a Lift the later ones.
pub fn pass_of(level: u32, step: &Step) -> Option<Pass>
    ensures { result ≡ pass_of level step.now }
{
    match step {
        Step::RaiseStep(_) => Some(Pass {
            next: 0,
            least: level,
        }),
        Step::LiftStep(part) => Some(Pass {
            next: part.lemma,
            least: 1,
        }),
        _ => None,
    }
}

/// How many inner nodes a guess is worth, or a lift after a step.
pub fn few(nodes: u32) -> u32
    requires { 0 < nodes }
    ensures is { result ≡ min nodes 200 }
    ensures some { 0 < result }
{
    if nodes < GUESS_NODES {
        nodes
    } else {
        GUESS_NODES
    }
}

/// Whether the lemma of that number is of at least a level, and below that of the book.
fn is_below(lent: &Lent, id: u32, least: u32) -> bool
    requires { id < length lent.now.frames.lemmas }
    ensures { IsTrue result ↔ MayLift lent.now least id }
{
    let level = lent.frames.level_of(id);
    least <= level && level < lent.level
}

/// The Lift of the lemma by one level, if it is of at least a level, below that of the book, and the
/// frame of its own implies it.
fn lift_of(
    lent: &Lent,
    id: u32,
    least: u32,
    nodes: u32,
    work: &mut Workspace,
) -> Result<Option<Step>, Memory>
    requires goes_on { GoesOn lent.now }
    requires some { 0 < nodes }
    requires there { id < length lent.now.frames.lemmas }
    requires work { IsWorkspaceFor lent.now.system work.old }
    ensures lifted { IfOk result (IsLiftAt lent.now (min nodes 200) least id) }
    ensures taken { IfOk result (λ found. IfSome found (IsTaken lent.now nodes)) }
    ensures work { IsWorkspaceFor lent.now.system work.new }
{
    if !is_below(lent, id, least) {
        return Ok(None);
    }
    let most = few(nodes);
    match lift_in(lent, id, most, work)? {
        Some(part) => Ok(Some(Step::LiftStep(part))),
        None => Ok(None),
    }
}

/// The first Lift from a number on, and the lemma's number.
fn first_lift(
    lent: &Lent,
    pass: Pass,
    nodes: u32,
    work: &mut Workspace,
) -> Result<Option<(u32, Step)>, Memory>
    requires goes_on { GoesOn lent.now }
    requires some { 0 < nodes }
    requires work { IsWorkspaceFor lent.now.system work.old }
    ensures first { IfOk result (λ found. MatchOption found (AllStay lent.now (min nodes 200) pass) (λ lift. IsFirstLift lent.now (min nodes 200) pass lift.0 lift.1)) }
    ensures taken { IfOk result (λ found. IfSome found (λ lift. IsTaken lent.now nodes lift.1)) }
    ensures work { IsWorkspaceFor lent.now.system work.new }
{
    for id in pass.next..lent.frames.count() {
        if let Some(step) = lift_of(lent, id, pass.least, nodes, work)? {
            return Ok(Some((id, step)));
        }
    }
    Ok(None)
}

/// The next Lift of the pass, which stays at its lemma, as that may go higher. Where there is none the
/// pass is over.
pub fn next_lift(
    lent: &Lent,
    pass: &mut Option<Pass>,
    nodes: u32,
    work: &mut Workspace,
) -> Result<Option<Step>, Memory>
    requires goes_on { GoesOn lent.now }
    requires some { 0 < nodes }
    requires work { IsWorkspaceFor lent.now.system work.old }
    ensures next { IfOk result (IsNextLift lent.now (min nodes 200) pass.old pass.new) }
    ensures taken { IfOk result (λ found. IfSome found (IsTaken lent.now nodes)) }
    ensures work { IsWorkspaceFor lent.now.system work.new }
{
    let Some(now) = *pass else {
        return Ok(None);
    };
    match first_lift(lent, now, nodes, work)? {
        Some((next, step)) => {
            *pass = Some(Pass {
                next,
                least: now.least,
            });
            Ok(Some(step))
        }
        None => {
            *pass = None;
            Ok(None)
        }
    }
}
