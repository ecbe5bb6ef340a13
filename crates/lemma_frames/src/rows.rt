ghost use Rattle.std.specs.Prelude.{◌≡◌, [], ◌∷◌, ◌++◌, ◌<◌, ◌+◌, ◌-◌, ◌^◌, length, slice_index_or, slice_set, IfOk, OnOk, OnErr};
ghost use Rattle.std.specs.List.{All, AllPairs, Contains};
ghost use Rattle.lemma_frames.specs.Frames.{Precedes, level_of, lifted};
ghost use Rattle.lemma_frames.specs.machinery.Index.{IsIndexed};
ghost use Rattle.lemma_frames.specs.machinery.Rows.{IsPlaced, IsWithout};

use crate::framed::{Framed, lemma_at, level_at, pred_at};
use crate::rank::rank;
use base::{Items, Memory};
use cube_forms::{Held, Table};
use std::alloc::Global;

/// The numbers of one predicate's lemmas, by level downwards and by number upwards.
pub(crate) type Row = Held<Items<u32>>;

/// The row of a predicate.
pub(crate) fn row_of(rows: &Vec<Row>, pred: u32) -> &[u32]
    requires { pred < length rows.now.items }
    ensures { result.now ≡ slice_index_or rows.now.items pred [] }
{
    rows[pred as usize].get().as_slice()
}

/// A copy of a row, with room for one more.
fn copied(alloc: Global, row: &[u32]) -> Result<Vec<u32>, Memory>
    ensures { IfOk result (λ copied. copied.items ≡ row.now) }
{
    let mut copied = Vec::with_capacity(alloc, row.len() + 1)?;
    copied.extend_from_slice(row)?;
    Ok(copied)
}

/// Puts a number at the place of its level.
fn placed(
    alloc: Global,
    lemmas: &Table<Framed>,
    row: Vec<u32>,
    level: u32,
    id: u32,
) -> Result<Row, Memory>
    requires order { AllPairs (Precedes lemmas.now) row.items }
    requires there { All (λ n. n < length lemmas.now) row.items }
    ensures { IfOk result (λ longer. IsPlaced (level_of lemmas.now) row.items level id longer) }
{
    let at = rank(lemmas, row.as_slice(), level, id);
    let mut longer = row;
    longer.insert(at, id)?;
    Ok(Held::new(alloc, Items::from_vec(longer))?)
}

/// A copy of a row without one of its numbers.
fn without(alloc: Global, lemmas: &Table<Framed>, row: &[u32], id: u32) -> Result<Vec<u32>, Memory>
    requires order { AllPairs (Precedes lemmas.now) row.now }
    requires there { All (λ n. n < length lemmas.now) row.now }
    requires has { Contains row.now id }
    ensures { IfOk result (λ shorter. IsWithout row.now id shorter.items) }
{
    let at = rank(lemmas, row, level_at(lemmas, id), id);
    let mut shorter = copied(alloc, row)?;
    shorter.remove(at);
    Ok(shorter)
}

/// Puts a row in the place of one.
fn put(rows: &mut Vec<Row>, pred: u32, row: Row)
    requires { pred < length rows.old.items }
    ensures { rows.new.items ≡ slice_set rows.old.items pred row }
{
    rows[pred as usize] = row;
}

/// Adds a lemma, and its number to the row of its predicate. What can be refused comes before any
/// change.
pub(crate) fn add_in(
    alloc: Global,
    lemmas: &mut Table<Framed>,
    rows: &mut Vec<Row>,
    framed: Framed,
) -> Result<(), Memory>
    requires index { IsIndexed rows.old.items lemmas.old }
    requires pred { framed.pred < length rows.old.items }
    requires room { length lemmas.old < 2 ^ 32 - 1 }
    ensures lemmas { OnOk result (lemmas.new ≡ lemmas.old ++ framed ∷ []) }
    ensures index { OnOk result (IsIndexed rows.new.items lemmas.new) }
    ensures preds { OnOk result (length rows.new.items ≡ length rows.old.items) }
    ensures err { OnErr result ((lemmas.new ≡ lemmas.old) × (rows.new.items ≡ rows.old.items)) }
{
    let pred = framed.pred;
    let id = lemmas.count();
    let row = copied(alloc, row_of(rows, pred))?;
    let row = placed(alloc, lemmas, row, framed.level, id)?;
    lemmas.push(framed)?;
    put(rows, pred, row);
    Ok(())
}

/// Raises a lemma by one level. What can be refused comes before any change.
pub(crate) fn lift_in(
    alloc: Global,
    lemmas: &mut Table<Framed>,
    rows: &mut Vec<Row>,
    id: u32,
) -> Result<(), Memory>
    requires index { IsIndexed rows.old.items lemmas.old }
    requires there { id < length lemmas.old }
    requires room { level_of lemmas.old id < 2 ^ 32 - 1 }
    ensures lemmas { OnOk result (lemmas.new ≡ lifted lemmas.old id) }
    ensures index { OnOk result (IsIndexed rows.new.items lemmas.new) }
    ensures preds { OnOk result (length rows.new.items ≡ length rows.old.items) }
    ensures err { OnErr result ((lemmas.new ≡ lemmas.old) × (rows.new.items ≡ rows.old.items)) }
{
    let pred = pred_at(lemmas, id);
    let level = level_at(lemmas, id) + 1;
    let row = without(alloc, lemmas, row_of(rows, pred), id)?;
    let row = placed(alloc, lemmas, row, level, id)?;
    let lemma = lemma_at(lemmas, id).share()?;
    lemmas.set(id, Framed { pred, level, lemma })?;
    put(rows, pred, row);
    Ok(())
}
