//! What a frame says of a cube.

ghost use Rattle.std.specs.Prelude.{◌≡◌, ◌-◌, ◌<◌, IfOk, Some};
ghost use Rattle.chc_tokens.specs.declared.goal.Goal.TheVariants.{Holds};
ghost use Rattle.clause_queries.specs.Answers.{IsFound, MayAskAll};
ghost use Rattle.obligation_turn.specs.Turns.{GoesOn};
ghost use Rattle.lemma_general.specs.machinery.Passes.{IsAnswerOf, IsCubeOf, IsFoundByOwn, IsFoundOf, IsShownOf, refuted_of};

use crate::own::with_own;
use base::{Items, Memory};
use chc_tokens::{Goal, Shown};
use clause_queries::{Found, ask_all_by};
use cube_forms::{Cube, negate};
use lemma_frames::Frames;
use step_rules::{LemmaPart, Lent};

/// Asks for an instance whose head, of the predicate, lies in the cube, and whose body is in F(k) of these
/// frames. Proofs for another cube may be given: what of them says the same of this one isn't looked for
/// anew.
fn ask_in(
    lent: &Lent,
    frames: &Frames,
    pred: u32,
    cube: &Cube,
    k: u32,
    nodes: u32,
    old: &[Shown],
) -> Result<Found, Memory>
    requires asks { MayAskAll lent.now.system frames.now.lemmas (Some pred) (Holds cube.now) }
    requires some { 0 < nodes }
    ensures { IfOk result (IsFound lent.now.system frames.now.lemmas (Some pred) (Holds cube.now) k nodes) }
{
    let lemma = negate(lent.alloc, cube)?;
    let goal = Goal::Holds(lemma);
    let found = ask_all_by(
        lent.alloc,
        lent.system,
        frames,
        Some(pred),
        &goal,
        k,
        nodes,
        old,
    )?;
    Ok(found)
}

/// Asks so of what is lent.
fn ask_lent(
    lent: &Lent,
    pred: u32,
    cube: &Cube,
    k: u32,
    nodes: u32,
    old: &[Shown],
) -> Result<Found, Memory>
    requires goes_on { GoesOn lent.now }
    requires cube { IsCubeOf lent.now pred cube.now }
    requires some { 0 < nodes }
    ensures { IfOk result (IsFoundOf lent.now pred cube.now k nodes) }
{
    let found = ask_in(lent, lent.frames, pred, cube, k, nodes, old)?;
    Ok(found)
}

/// Asks so of the frames with the lemma itself; none where there is no room for it.
fn ask_own(
    lent: &Lent,
    pred: u32,
    cube: &Cube,
    k: u32,
    nodes: u32,
    old: &[Shown],
) -> Result<Option<Found>, Memory>
    requires goes_on { GoesOn lent.now }
    requires cube { IsCubeOf lent.now pred cube.now }
    requires some { 0 < nodes }
    ensures { IfOk result (IsFoundByOwn lent.now pred cube.now k nodes) }
{
    match with_own(lent, pred, cube, k)? {
        Some(frames) => {
            let found = ask_in(lent, &frames, pred, cube, k, nodes, old)?;
            Ok(Some(found))
        }
        None => Ok(None),
    }
}

/// Asks so, first of the frames with the lemma itself, whose proof may use it on the body. An instance that
/// is found there is one of what is lent, too.
fn ask_by(
    lent: &Lent,
    pred: u32,
    cube: &Cube,
    k: u32,
    nodes: u32,
    old: &[Shown],
) -> Result<Found, Memory>
    requires goes_on { GoesOn lent.now }
    requires cube { IsCubeOf lent.now pred cube.now }
    requires some { 0 < nodes }
    ensures { IfOk result (IsAnswerOf lent.now pred cube.now k nodes) }
{
    if k == 0 {
        return ask_lent(lent, pred, cube, k, nodes, old);
    }
    let asked = ask_own(lent, pred, cube, k, nodes, old)?;
    match asked {
        Some(Found::Refuted(proofs)) => Ok(Found::Refuted(proofs)),
        Some(Found::Instance(seen)) => Ok(Found::Instance(seen)),
        _ => ask_lent(lent, pred, cube, k, nodes, old),
    }
}

/// The refutations that were found; none where there is an instance, or the search was given up.
pub(crate) fn refuted(found: Found) -> Option<Items<Shown>>
    ensures { result ≡ refuted_of found }
{
    match found {
        Found::Refuted(proofs) => Some(proofs),
        Found::Instance(seen) => {
            let _seen = seen;
            None
        }
        Found::GivenUp(lost) => {
            let _lost = lost;
            None
        }
    }
}

/// The refutations of a cube of the predicate under the frame of level k, through each clause; none
/// where there is an instance, or the search was given up.
pub(crate) fn show(
    lent: &Lent,
    pred: u32,
    cube: &Cube,
    k: u32,
    nodes: u32,
) -> Result<Option<Items<Shown>>, Memory>
    requires goes_on { GoesOn lent.now }
    requires cube { IsCubeOf lent.now pred cube.now }
    requires some { 0 < nodes }
    ensures { IfOk result (IsShownOf lent.now pred cube.now k nodes) }
{
    let found = ask_by(lent, pred, cube, k, nodes, &[])?;
    let shown = refuted(found);
    Ok(shown)
}

/// Asks for an instance of the cube on a lemma's predicate under the frame below its level, with the
/// lemma's own proofs.
pub(crate) fn ask_below(
    lent: &Lent,
    part: &LemmaPart,
    cube: &Cube,
    nodes: u32,
) -> Result<Found, Memory>
    requires goes_on { GoesOn lent.now }
    requires cube { IsCubeOf lent.now part.now.pred cube.now }
    requires some { 0 < nodes }
    ensures { IfOk result (IsAnswerOf lent.now part.now.pred cube.now (part.now.level - 1) nodes) }
{
    let k = part.level.saturating_sub(1);
    let found = ask_by(lent, part.pred, cube, k, nodes, part.proofs.as_slice())?;
    Ok(found)
}
