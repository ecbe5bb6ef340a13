//! Literals of the lemmas of a frame on body atoms that are true at a point.

ghost use Rattle.std.specs.Prelude.{◌≡◌, ◌<◌, length, true, OnOk};
ghost use Rattle.std.specs.List.{list_all};
ghost use Rattle.cube_rules.specs.Views.{framed_at, lemmas_of};
ghost use Rattle.area_literals.specs.Areas.{accepts_on, all_accept_on, fits_on, all_fit_on};
ghost use Rattle.area_literals.specs.machinery.Growing.{AreFramesGathered, IsFrameGathered, IsLemmaGathered};

use crate::gathering::gather;
use base::Memory;
use clause_form::Atom;
use lemma_frames::Frames;
use lin_atoms::Lit;
use std::alloc::Global;

/// Adds what covers the lemma on the atom, if it is of level k or more and on the atom's predicate.
fn gather_lemma(
    alloc: Global,
    lits: &mut Vec<Lit>,
    frames: &Frames,
    id: u32,
    k: u32,
    atom: &Atom,
    point: &[i64],
) -> Result<(), Memory>
    requires there { id < length frames.now.lemmas }
    requires room { fits_on k atom.now (framed_at frames.now.lemmas id) ≡ true }
    requires holds { accepts_on k point.now atom.now (framed_at frames.now.lemmas id) ≡ true }
    ensures { OnOk result (IsLemmaGathered point.now k atom.now (framed_at frames.now.lemmas id) lits.old.items lits.new.items) }
{
    if frames.level_of(id) < k || frames.pred_of(id) != atom.pred {
        return Ok(());
    }
    let form = frames.lemma(id).form(alloc, atom.args.as_slice())?;
    gather(alloc, lits, &form, point)
}

/// Adds what covers the lemmas of level k or more on the atom.
fn gather_frame(
    alloc: Global,
    lits: &mut Vec<Lit>,
    frames: &Frames,
    k: u32,
    atom: &Atom,
    point: &[i64],
) -> Result<(), Memory>
    requires room { list_all (fits_on k atom.now) (lemmas_of frames.now.lemmas) ≡ true }
    requires holds { list_all (accepts_on k point.now atom.now) (lemmas_of frames.now.lemmas) ≡ true }
    ensures { OnOk result (IsFrameGathered point.now k (lemmas_of frames.now.lemmas) atom.now lits.old.items lits.new.items) }
{
    for id in 0..frames.count() {
        gather_lemma(alloc, lits, frames, id, k, atom, point)?;
    }
    Ok(())
}

/// Adds what covers the lemmas of level k or more on each of these atoms, atom by atom.
pub(crate) fn gather_frames(
    alloc: Global,
    lits: &mut Vec<Lit>,
    frames: &Frames,
    k: u32,
    atoms: &[Atom],
    point: &[i64],
) -> Result<(), Memory>
    requires room { list_all (all_fit_on k (lemmas_of frames.now.lemmas)) atoms.now ≡ true }
    requires holds { list_all (all_accept_on k point.now (lemmas_of frames.now.lemmas)) atoms.now ≡ true }
    ensures { OnOk result (AreFramesGathered point.now k (lemmas_of frames.now.lemmas) atoms.now lits.old.items lits.new.items) }
{
    for atom in atoms {
        gather_frame(alloc, lits, frames, k, atom, point)?;
    }
    Ok(())
}
