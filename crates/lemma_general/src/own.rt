//! A lemma that uses itself.

ghost use Rattle.std.specs.Prelude.{IfOk};
ghost use Rattle.lemma_general.specs.machinery.Passes.{IsWithOwn};

use base::Memory;
use cube_forms::{Cube, negate};
use lemma_frames::Frames;
use step_rules::Lent;

/// The frames with the lemma that denies the cube, at the level k, as the last one; none where there is
/// no room for it.
pub(crate) fn with_own(
    lent: &Lent,
    pred: u32,
    cube: &Cube,
    k: u32,
) -> Result<Option<Frames>, Memory>
    ensures { IfOk result (IsWithOwn lent.now pred cube.now k) }
{
    if lent.frames.count() == u32::MAX || pred as usize >= lent.frames.preds() {
        return Ok(None);
    }
    let lemma = negate(lent.alloc, cube)?;
    let mut frames = lent.frames.share()?;
    frames.add(pred, lemma, k)?;
    Ok(Some(frames))
}
