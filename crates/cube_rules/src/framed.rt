ghost use Rattle.std.specs.Prelude.{◌≡◌, ◌<◌, ◌&&◌, ◌==◌, length, nat_le, true, false, None, IfOk};
ghost use Rattle.std.specs.List.{list_any};
ghost use Rattle.book_rules.specs.Frames.{excludes, frame_has, same_lemma};
ghost use Rattle.book_rules.specs.Instances.{body_at};
ghost use Rattle.book_rules.specs.OpenRules.{shut_out};
ghost use Rattle.book_rules.specs.Walks.{first_told};
ghost use Rattle.cube_rules.specs.Views.{framed_at, lemmas_of};
ghost use Rattle.cube_rules.specs.machinery.Walks.{equals, is_on, passes_at, shuts};

use crate::instances::atom_at;
use crate::same::same_lemma;
use base::Memory;
use book_rules::By;
use clause_form::Clause;
use cube_forms::{Lemma, Tuple};
use lemma_frames::Frames;
use std::alloc::Global;

/// Whether a lemma is of this level or more and shuts the tuple out.
fn shuts_out(frames: &Frames, id: u32, k: u32, pair: &(u32, Tuple)) -> bool
    requires { id < length frames.now.lemmas }
    ensures { result ≡ (nat_le k (framed_at frames.now.lemmas id).level && excludes (framed_at frames.now.lemmas id).lemma pair.now) }
{
    frames.level_of(id) >= k
        && frames.pred_of(id) == pair.0
        && frames.lemma(id).excludes(pair.1.as_slice())
}

/// Whether one of the lemmas of these numbers is there and does.
fn any_shuts(frames: &Frames, numbers: &[u32], k: u32, pair: &(u32, Tuple)) -> bool
    ensures { result ≡ list_any (passes_at (shuts k pair.now) frames.now.lemmas) numbers.now }
{
    for id in numbers {
        if *id < frames.count() && shuts_out(frames, *id, k, pair) {
            return true;
        }
    }
    false
}

/// Whether no lemma of this level or more shuts the tuple out, by a look at those on its predicate. It
/// is false, too, of level 0 and of a predicate that isn't there.
fn none_shuts(frames: &Frames, k: u32, pair: &(u32, Tuple)) -> bool
    ensures { result ≡ true → shut_out (lemmas_of frames.now.lemmas) k pair.now ≡ None }
{
    if k == 0 || pair.0 as usize >= frames.preds() {
        return false;
    }
    let numbers = frames.upper(pair.0, k);
    !any_shuts(frames, numbers, k, pair)
}

/// The first lemma of this level or more that shuts the tuple out.
pub(crate) fn shut_out(frames: &Frames, k: u32, pair: &(u32, Tuple)) -> Option<By>
    ensures { result ≡ shut_out (lemmas_of frames.now.lemmas) k pair.now }
{
    if none_shuts(frames, k, pair) {
        return None;
    }
    for id in 0..frames.count() {
        if shuts_out(frames, id, k, pair) {
            return Some(By::Lemma(id));
        }
    }
    None
}

/// The first lemma of this level or more that shuts a body tuple of the instance out, of those on the
/// first such tuple.
pub fn body_shut_out(
    alloc: Global,
    frames: &Frames,
    k: u32,
    point: &[i64],
    clause: &Clause,
) -> Result<Option<By>, Memory>
    ensures { IfOk result (λ by. by ≡ first_told (shut_out (lemmas_of frames.now.lemmas) k) (body_at point.now clause.now)) }
{
    for atom in clause.atoms.as_slice() {
        let pair = atom_at(alloc, point, atom)?;
        match shut_out(frames, k, &pair) {
            Some(by) => return Ok(Some(by)),
            None => {}
        }
    }
    Ok(None)
}

/// Whether a lemma is of this level or more, and equal to this one on this predicate.
fn is_same(frames: &Frames, id: u32, k: u32, pred: u32, lemma: &Lemma) -> bool
    requires { id < length frames.now.lemmas }
    ensures { result ≡ (nat_le k (framed_at frames.now.lemmas id).level && same_lemma (framed_at frames.now.lemmas id).lemma (record { pred = pred; cube = lemma.now })) }
{
    frames.level_of(id) >= k && frames.pred_of(id) == pred && same_lemma(frames.lemma(id), lemma)
}

/// Whether one of the lemmas of these numbers is there and is such a one.
fn any_same(frames: &Frames, numbers: &[u32], k: u32, pred: u32, lemma: &Lemma) -> bool
    ensures { result ≡ list_any (passes_at (equals k (record { pred = pred; cube = lemma.now })) frames.now.lemmas) numbers.now }
{
    for id in numbers {
        if *id < frames.count() && is_same(frames, *id, k, pred, lemma) {
            return true;
        }
    }
    false
}

/// Whether any lemma is.
fn is_anywhere(frames: &Frames, k: u32, pred: u32, lemma: &Lemma) -> bool
    ensures { result ≡ frame_has (lemmas_of frames.now.lemmas) k (record { pred = pred; cube = lemma.now }) }
{
    for id in 0..frames.count() {
        if is_same(frames, id, k, pred, lemma) {
            return true;
        }
    }
    false
}

/// Whether the lemma, on this predicate, is among those of this level or more. It looks at those on the
/// predicate alone, where the level isn't 0 and the predicate is there.
pub fn frame_has(frames: &Frames, k: u32, pred: u32, lemma: &Lemma) -> bool
    ensures { result ≡ frame_has (lemmas_of frames.now.lemmas) k (record { pred = pred; cube = lemma.now }) }
{
    if k == 0 || pred as usize >= frames.preds() {
        return is_anywhere(frames, k, pred, lemma);
    }
    let numbers = frames.upper(pred, k);
    any_same(frames, numbers, k, pred, lemma)
}

/// Whether no lemma of this level or more is on the predicate. It is false, too, of level 0 and of a
/// predicate that isn't there.
pub(crate) fn is_free(frames: &Frames, k: u32, pred: u32) -> bool
    ensures { result ≡ true → list_any (is_on k pred) (lemmas_of frames.now.lemmas) ≡ false }
{
    if k == 0 || pred as usize >= frames.preds() {
        return false;
    }
    frames.upper(pred, k).is_empty()
}
