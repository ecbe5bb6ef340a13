//! The work on a lemma before the book takes it.

ghost use Rattle.std.specs.Prelude.{◌<◌, IfOk, OnOk};
ghost use Rattle.obligation_turn.specs.Turns.{GoesOn};
ghost use Rattle.lemma_general.specs.Generals.{IsLearnt};
ghost use Rattle.lemma_general.specs.Tries.{IsTrying};
ghost use Rattle.search_strategy.specs.machinery.Steps.{IsTaken};

use crate::excluding::{narrow, try_bounds};
use crate::proposing::{propose, propose_alike, propose_hulls};
use crate::tidying::tidy;
use crate::widening::widen;
use base::Memory;
use guess_all::Hints;
use lemma_general::{Tries, generalise, raise};
use search_strategy::{
    RAISES_LEMMAS, Strategy, TRIES_BOUNDS, TRIES_HULLS, TRIES_OLD, TRIES_SUMS, WIDENS_BOUNDS,
    excluding, few, with_core, with_turned,
};
use step_rules::{LemmaPart, Lent, Step};

/// From this level of the book on all guesses are tried: few systems that end below it need more than
/// parts of a lemma's cube, and their lemmas stay as they were found.
const GUESS_LEVEL: u32 = 5;

/// Guesses are tried at each level for a cube of at least this number of literals.
const MANY_LITERALS: usize = 4;

/// Whether an old lemma that excludes the obligation's point holds at the part's level, too, and so
/// stands in its place. One is tried: the newest of the highest level.
fn again(lent: &Lent, tries: &mut Tries, nodes: u32) -> Result<bool, Memory>
    requires goes_on { GoesOn lent.now }
    requires some { 0 < nodes }
    requires trying { IsTrying lent.now tries.old }
    ensures { OnOk result (IsTrying lent.now tries.new) }
{
    if !TRIES_OLD {
        return Ok(false);
    }
    let part = tries.part();
    let obligation = lent.tree.obligation(part.target);
    let point = obligation.point.as_slice();
    match excluding(lent.frames, part, point) {
        Some(id) => tries.try_cube(lent, lent.frames.lemma(id).cube(), nodes),
        None => Ok(false),
    }
}

/// Whether a cube that is known holds at the part's level, and so stands in its place: that of an old
/// lemma, or one that bounds exclude.
fn ready(lent: &Lent, tries: &mut Tries, hints: Option<&Hints>, nodes: u32) -> Result<bool, Memory>
    requires goes_on { GoesOn lent.now }
    requires some { 0 < nodes }
    requires trying { IsTrying lent.now tries.old }
    ensures { OnOk result (IsTrying lent.now tries.new) }
{
    if again(lent, tries, nodes)? {
        return Ok(true);
    }
    match hints {
        Some(hints) if TRIES_BOUNDS => {
            let shown = try_bounds(lent, tries, hints, nodes)?;
            Ok(shown)
        }
        _ => Ok(false),
    }
}

/// The lemma with what its proofs use of its cube, where cores come first.
fn cored(lent: &Lent, part: LemmaPart, nodes: u32, strategy: Strategy) -> Result<LemmaPart, Memory>
    requires goes_on { GoesOn lent.now }
    requires some { 0 < nodes }
    requires learnt { IsLearnt lent.now part }
    ensures { IfOk result (IsLearnt lent.now) }
{
    if !strategy.cores_first {
        return Ok(part);
    }
    let core = with_core(lent, part, nodes)?;
    Ok(core)
}

/// The lemma with its literals in the order in which they are brought into their simplest form, which
/// turns it round.
fn ordered(
    lent: &Lent,
    part: LemmaPart,
    nodes: u32,
    strategy: Strategy,
) -> Result<LemmaPart, Memory>
    requires goes_on { GoesOn lent.now }
    requires some { 0 < nodes }
    requires learnt { IsLearnt lent.now part }
    ensures { IfOk result (IsLearnt lent.now) }
{
    if strategy.reversed {
        return Ok(part);
    }
    let turned = with_turned(lent, part, nodes)?;
    Ok(turned)
}

/// A lemma of a cube that the hulls shut out in its place.
fn by_hulls(lent: &Lent, part: LemmaPart, hints: &Hints, nodes: u32) -> Result<LemmaPart, Memory>
    requires goes_on { GoesOn lent.now }
    requires some { 0 < nodes }
    requires learnt { IsLearnt lent.now part }
    ensures { IfOk result (IsLearnt lent.now) }
{
    let proposed = propose_hulls(lent, part, hints, nodes)?;
    Ok(proposed)
}

/// A lemma of a cube that the hulls shut out in the lemma's place, where hulls are tried; else the
/// lemma as it is.
fn hulled(
    lent: &Lent,
    part: LemmaPart,
    hints: Option<&Hints>,
    nodes: u32,
) -> Result<LemmaPart, Memory>
    requires goes_on { GoesOn lent.now }
    requires some { 0 < nodes }
    requires learnt { IsLearnt lent.now part }
    ensures { IfOk result (IsLearnt lent.now) }
{
    match hints {
        Some(hints) if TRIES_HULLS => by_hulls(lent, part, hints, nodes),
        _ => Ok(part),
    }
}

/// The lemma with the literals of a bound behind its own, where one may be what is missing.
fn by_bounds(lent: &Lent, part: LemmaPart, hints: &Hints, nodes: u32) -> Result<LemmaPart, Memory>
    requires goes_on { GoesOn lent.now }
    requires some { 0 < nodes }
    requires learnt { IsLearnt lent.now part }
    ensures { IfOk result (IsLearnt lent.now) }
{
    let narrower = narrow(lent, part, hints, nodes)?;
    Ok(narrower)
}

/// The lemma with the literals of a bound behind its own, where bounds are tried and one may be what is
/// missing; else the lemma as it is.
fn bounded(
    lent: &Lent,
    part: LemmaPart,
    hints: Option<&Hints>,
    nodes: u32,
) -> Result<LemmaPart, Memory>
    requires goes_on { GoesOn lent.now }
    requires some { 0 < nodes }
    requires learnt { IsLearnt lent.now part }
    ensures { IfOk result (IsLearnt lent.now) }
{
    match hints {
        Some(hints) if TRIES_BOUNDS => by_bounds(lent, part, hints, nodes),
        _ => Ok(part),
    }
}

/// A lemma of one of the fewer such cubes that are tried at low levels.
fn by_hulls_alike(
    lent: &Lent,
    part: LemmaPart,
    hints: &Hints,
    nodes: u32,
) -> Result<LemmaPart, Memory>
    requires goes_on { GoesOn lent.now }
    requires some { 0 < nodes }
    requires learnt { IsLearnt lent.now part }
    ensures { IfOk result (IsLearnt lent.now) }
{
    let proposed = propose_alike(lent, part, hints, nodes)?;
    Ok(proposed)
}

/// A lemma of one of the fewer cubes that are tried at low levels, in the lemma's place, where hulls
/// are tried; else the lemma as it is.
fn hulled_alike(
    lent: &Lent,
    part: LemmaPart,
    hints: Option<&Hints>,
    nodes: u32,
) -> Result<LemmaPart, Memory>
    requires goes_on { GoesOn lent.now }
    requires some { 0 < nodes }
    requires learnt { IsLearnt lent.now part }
    ensures { IfOk result (IsLearnt lent.now) }
{
    match hints {
        Some(hints) if TRIES_HULLS => by_hulls_alike(lent, part, hints, nodes),
        _ => Ok(part),
    }
}

/// A lemma of a sum of two bounds in its place.
fn summed(lent: &Lent, part: LemmaPart, nodes: u32) -> Result<LemmaPart, Memory>
    requires goes_on { GoesOn lent.now }
    requires some { 0 < nodes }
    requires learnt { IsLearnt lent.now part }
    ensures { IfOk result (IsLearnt lent.now) }
{
    if !TRIES_SUMS {
        return Ok(part);
    }
    let proposed = propose(lent, part, nodes)?;
    Ok(proposed)
}

/// The lemma with wider bounds.
fn widened(lent: &Lent, part: LemmaPart, nodes: u32) -> Result<LemmaPart, Memory>
    requires goes_on { GoesOn lent.now }
    requires some { 0 < nodes }
    requires learnt { IsLearnt lent.now part }
    ensures { IfOk result (IsLearnt lent.now) }
{
    if !WIDENS_BOUNDS {
        return Ok(part);
    }
    let wider = widen(lent, part, nodes)?;
    Ok(wider)
}

/// The lemma at the highest level to which the frames carry it.
fn raised(lent: &Lent, part: LemmaPart, nodes: u32) -> Result<LemmaPart, Memory>
    requires goes_on { GoesOn lent.now }
    requires some { 0 < nodes }
    requires learnt { IsLearnt lent.now part }
    ensures { IfOk result (IsLearnt lent.now) }
{
    if !RAISES_LEMMAS {
        return Ok(part);
    }
    let higher = raise(lent, part, nodes)?;
    Ok(higher)
}

/// A more general lemma in its place: its literals are brought into their simplest form, what was guessed
/// of the predicate is tried, literals that it needn't have are dropped, and sums of two bounds and wider
/// bounds are tried.
fn guessed(
    lent: &Lent,
    part: LemmaPart,
    hints: Option<&Hints>,
    nodes: u32,
    strategy: Strategy,
) -> Result<LemmaPart, Memory>
    requires goes_on { GoesOn lent.now }
    requires some { 0 < nodes }
    requires learnt { IsLearnt lent.now part }
    ensures { IfOk result (IsLearnt lent.now) }
{
    let ordered = ordered(lent, part, nodes, strategy)?;
    let tidied = tidy(lent, ordered, nodes)?;
    let hulled = hulled(lent, tidied, hints, nodes)?;
    let bounded = bounded(lent, hulled, hints, nodes)?;
    let general = generalise(lent, bounded, nodes)?;
    let summed = summed(lent, general, nodes)?;
    let widened = widened(lent, summed, nodes)?;
    Ok(widened)
}

/// A more general lemma in its place: of what was guessed of the predicate only what is of the cube's
/// kind is tried, and literals that it needn't have are dropped.
fn plain(
    lent: &Lent,
    part: LemmaPart,
    hints: Option<&Hints>,
    nodes: u32,
) -> Result<LemmaPart, Memory>
    requires goes_on { GoesOn lent.now }
    requires some { 0 < nodes }
    requires learnt { IsLearnt lent.now part }
    ensures { IfOk result (IsLearnt lent.now) }
{
    let hulled = hulled_alike(lent, part, hints, nodes)?;
    let general = generalise(lent, hulled, nodes)?;
    Ok(general)
}

/// A more general lemma in its place. At low levels of the book less is tried for short cubes.
fn general(
    lent: &Lent,
    part: LemmaPart,
    hints: Option<&Hints>,
    nodes: u32,
    strategy: Strategy,
) -> Result<LemmaPart, Memory>
    requires goes_on { GoesOn lent.now }
    requires some { 0 < nodes }
    requires learnt { IsLearnt lent.now part }
    ensures { IfOk result (IsLearnt lent.now) }
{
    let cored = cored(lent, part, nodes, strategy)?;
    if lent.level < GUESS_LEVEL && cored.lemma.cube().lits().len() < MANY_LITERALS {
        let plain = plain(lent, cored, hints, nodes)?;
        Ok(plain)
    } else {
        let guessed = guessed(lent, cored, hints, nodes, strategy)?;
        Ok(guessed)
    }
}

/// An old lemma or a bound in the lemma's place, if one holds at its level, and else a more general one.
fn served(
    lent: &Lent,
    part: LemmaPart,
    hints: Option<&Hints>,
    nodes: u32,
    strategy: Strategy,
) -> Result<LemmaPart, Memory>
    requires goes_on { GoesOn lent.now }
    requires some { 0 < nodes }
    requires learnt { IsLearnt lent.now part }
    ensures { IfOk result (IsLearnt lent.now) }
{
    let mut tries = Tries::new(lent.alloc, part);
    let shown = ready(lent, &mut tries, hints, nodes)?;
    let part = tries.into_part();
    if shown {
        return Ok(part);
    }
    let general = general(lent, part, hints, nodes, strategy)?;
    Ok(general)
}

/// The lemma that is learnt in the end: an old one or a more general one, at the highest level.
fn learnt(
    lent: &Lent,
    part: LemmaPart,
    hints: Option<&Hints>,
    nodes: u32,
    strategy: Strategy,
) -> Result<LemmaPart, Memory>
    requires goes_on { GoesOn lent.now }
    requires some { 0 < nodes }
    requires learnt { IsLearnt lent.now part }
    ensures { IfOk result (IsLearnt lent.now) }
{
    let served = served(lent, part, hints, nodes, strategy)?;
    let raised = raised(lent, served, nodes)?;
    Ok(raised)
}

/// The step with the lemma that is learnt in the end, by this strategy, in place of its own; any other
/// step as it is.
pub fn improved(
    lent: &Lent,
    step: Step,
    hints: Option<&Hints>,
    nodes: u32,
    strategy: Strategy,
) -> Result<Step, Memory>
    requires goes_on { GoesOn lent.now }
    requires some { 0 < nodes }
    requires taken { IsTaken lent.now nodes step }
    ensures { IfOk result (IsTaken lent.now nodes) }
{
    match step {
        Step::LemmaStep(part) => {
            let made = learnt(lent, part, hints, few(nodes), strategy)?;
            Ok(Step::LemmaStep(made))
        }
        step => Ok(step),
    }
}
