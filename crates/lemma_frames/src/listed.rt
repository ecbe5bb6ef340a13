ghost use Rattle.std.specs.Prelude.{◌+◌, ◌<◌, ◌↔◌, IfOk, IsTrue, OnOk, length};
ghost use Rattle.lemma_frames.specs.Frames.{IsFrame, IsInFrame};
ghost use Rattle.lemma_frames.specs.machinery.Listing.{IsListed};

use crate::framed::{Framed, level_at, pred_at};
use base::Memory;
use cube_forms::Table;
use std::alloc::Global;

/// Whether a lemma is of a predicate and of a level or more.
fn is_in_frame(lemmas: &Table<Framed>, pred: u32, level: u32, id: u32) -> bool
    requires { id < length lemmas.now }
    ensures { IsTrue result ↔ IsInFrame lemmas.now pred level id }
{
    pred_at(lemmas, id) == pred && level_at(lemmas, id) >= level
}

/// Adds a lemma to those that are listed, where it is one of them.
fn note(
    lemmas: &Table<Framed>,
    pred: u32,
    level: u32,
    id: u32,
    numbers: &mut Vec<u32>,
) -> Result<(), Memory>
    requires there { id < length lemmas.now }
    requires listed { IsListed lemmas.now pred level id numbers.old.items }
    ensures { OnOk result (IsListed lemmas.now pred level (id + 1) numbers.new.items) }
{
    if is_in_frame(lemmas, pred, level, id) {
        numbers.push(id)?;
        return Ok(());
    }
    Ok(())
}

/// The lemmas of a predicate and of a level or more, in order of number.
pub(crate) fn listed(
    alloc: Global,
    lemmas: &Table<Framed>,
    pred: u32,
    level: u32,
) -> Result<Vec<u32>, Memory>
    ensures { IfOk result (λ numbers. IsFrame lemmas.now pred level numbers.items) }
{
    let mut numbers = Vec::new(alloc);
    for id in 0..lemmas.count() {
        note(lemmas, pred, level, id, &mut numbers)?;
    }
    Ok(numbers)
}
