//! The lemmas of a frame, as uses on body atoms, but those that others imply.

ghost use Rattle.std.specs.Prelude.{◌≡◌, ◌++◌, ◌<◌, ◌^◌, length, IfOk, OnOk};
ghost use Rattle.clause_queries.specs.Uses.{uses_from, uses_on};
ghost use Rattle.clause_queries.specs.machinery.Choices.{use_at};
ghost use Rattle.clause_queries.specs.machinery.Needs.{AreEnough};

use crate::needing::Needed;
use base::{Copied, Memory};
use chc_tokens::Used;
use clause_form::Atom;
use lemma_frames::Frames;
use std::alloc::Global;

/// Adds a use of the lemma, if it is of level k or more and on the predicate.
fn push_use(
    alloc: Global,
    used: &mut Vec<Used>,
    frames: &Frames,
    id: u32,
    k: u32,
    number: u32,
    pred: u32,
) -> Result<(), Memory>
    requires { id < length frames.now.lemmas }
    ensures { OnOk result (used.new.items ≡ used.old.items ++ use_at k number pred frames.now.lemmas id) }
{
    if frames.level_of(id) < k || frames.pred_of(id) != pred {
        return Ok(());
    }
    let lemma = frames.lemma(id).copy(alloc)?;
    let one = Used {
        atom: number,
        lemma,
    };
    used.push(one)?;
    Ok(())
}

/// Adds a use of each such lemma.
fn push_on(
    alloc: Global,
    used: &mut Vec<Used>,
    frames: &Frames,
    k: u32,
    number: u32,
    pred: u32,
) -> Result<(), Memory>
    ensures { OnOk result (used.new.items ≡ used.old.items ++ uses_on k number pred frames.now.lemmas) }
{
    for id in 0..frames.count() {
        push_use(alloc, used, frames, id, k, number, pred)?;
    }
    Ok(())
}

/// Adds a use of each such lemma, but those that a newer one implies, and then those that an older one
/// does. They stand in the order of their numbers. The newest of all may be one that is only tried, so
/// for its sake none is left out: what stands before it is then the same whichever is tried, and so are
/// the numbers of literals in proofs.
fn push_needed(
    alloc: Global,
    needed: &mut Needed,
    frames: &Frames,
    k: u32,
    number: u32,
    pred: u32,
) -> Result<(), Memory>
    ensures { OnOk result (AreEnough (needed.old.used.items ++ uses_on k number pred frames.now.lemmas) needed.new.used.items) }
{
    let mut all = Vec::new(alloc);
    push_on(alloc, &mut all, frames, k, number, pred)?;
    let mut newest = Needed::new(alloc);
    newest.take_all(Needed::of(alloc, all), 1)?;
    needed.take_all(newest, 0)?;
    Ok(())
}

/// The lemmas of level k or more, on each body atom of their predicate, but those that others imply.
pub(crate) fn frame_used(
    alloc: Global,
    frames: &Frames,
    k: u32,
    atoms: &[Atom],
) -> Result<Vec<Used>, Memory>
    requires { length atoms.now < 2 ^ 32 }
    ensures { IfOk result (λ used. AreEnough (uses_from k frames.now.lemmas 0 atoms.now) used.items) }
{
    let mut needed = Needed::new(alloc);
    for (number, atom) in atoms.iter().enumerate() {
        push_needed(alloc, &mut needed, frames, k, number as u32, atom.pred)?;
    }
    Ok(needed.used)
}
