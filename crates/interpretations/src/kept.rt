//! The lemmas of a frame on a predicate, each cube once.

ghost use Rattle.std.specs.Prelude.{◌≡◌, ◌<◌, true, IfOk, OnOk, if◌then◌else◌, ◌++◌, [], ◌∷◌};
ghost use Rattle.std.specs.List.{list_any};
ghost use Rattle.book_rules.specs.Same.{same_cube};
ghost use Rattle.interpretations.specs.Kept.{AreKept};
ghost use Rattle.interpretations.specs.machinery.Cubes.{cubes_of};

use base::Memory;
use cube_forms::Lemma;
use cube_rules::same_lemma;
use lemma_frames::Frames;
use std::alloc::Global;

/// Whether a lemma's cube is among those.
fn is_among(kept: &[&Lemma], lemma: &Lemma) -> bool
    ensures { result ≡ list_any (same_cube lemma.now) (cubes_of kept.now) }
{
    for one in kept {
        if same_lemma(lemma, one) {
            return true;
        }
    }
    false
}

/// Adds a lemma, unless its cube is there.
fn note<'a>(kept: &mut Vec<&'a Lemma>, lemma: &'a Lemma) -> Result<(), Memory>
    ensures { OnOk result (cubes_of kept.new.items ≡ (if list_any (same_cube lemma.now) (cubes_of kept.old.items) then cubes_of kept.old.items else (cubes_of kept.old.items ++ lemma.now ∷ []))) }
{
    if is_among(kept.as_slice(), lemma) {
        return Ok(());
    }
    kept.push(lemma)?;
    Ok(())
}

/// The lemmas of the level's frame on the predicate, in order of number, each cube once.
pub(crate) fn kept_lemmas<'a>(
    alloc: Global,
    frames: &'a Frames,
    pred: u32,
    level: u32,
) -> Result<Vec<&'a Lemma>, Memory>
    requires { pred < frames.now.preds }
    ensures { IfOk result (λ kept. AreKept frames.now.lemmas pred level (cubes_of kept.items)) }
{
    let numbers = frames.at_level(pred, level)?;
    let mut kept = Vec::new(alloc);
    for number in numbers.iter() {
        let id = *number;
        note(&mut kept, frames.lemma(id))?;
    }
    Ok(kept)
}
