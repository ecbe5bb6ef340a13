ghost use Rattle.std.specs.Prelude.{◌≡◌, ◌∷◌, ◌++◌, [], ◌<◌, ◌+◌, ◌-◌, ◌^◌, ℕ, length, slice_index_or, slice_set, OnOk, OnErr};
ghost use Rattle.std.specs.List.{All};
ghost use Rattle.derivations.specs.Facts.{Concludes, IsBare};
ghost use Rattle.derivations.specs.machinery.Index.{IsIndexed, empty};

use crate::fact::Fact;
use crate::notes::Notes;
use crate::part::Part;
use crate::parts::grown;
use crate::row::{Row, empty_row, with};
use crate::search::{key_of, rank};
use base::Memory;
use cube_forms::Held;
use std::alloc::Global;

/// The rows of the predicates. A predicate past the last one has no fact.
pub(crate) type Rows = Vec<Held<Row>>;

/// The numbers of a predicate's facts, in order of number.
pub(crate) fn by_number(rows: &Rows, pred: u32) -> &[u32]
    ensures { result.now ≡ (slice_index_or rows.now.items pred empty).by_number }
{
    let pred = pred as usize;
    if pred < rows.len() {
        return rows[pred].get().by_number.as_slice();
    }
    &[]
}

/// The numbers of a predicate's facts, in order of tuple.
pub(crate) fn by_tuple(rows: &Rows, pred: u32) -> &[u32]
    ensures { result.now ≡ (slice_index_or rows.now.items pred empty).by_tuple }
{
    let pred = pred as usize;
    if pred < rows.len() {
        return rows[pred].get().by_tuple.as_slice();
    }
    &[]
}

/// The keys of a predicate's facts, in order of tuple.
pub(crate) fn keys_by_tuple(rows: &Rows, pred: u32) -> &[i64]
    ensures { result.now ≡ (slice_index_or rows.now.items pred empty).keys }
{
    let pred = pred as usize;
    if pred < rows.len() {
        return rows[pred].get().keys.as_slice();
    }
    &[]
}

/// The parts in which a predicate's tuples are found.
pub(crate) fn parts_of(rows: &Rows, pred: u32) -> &[Held<Part>]
    ensures { result.now ≡ (slice_index_or rows.now.items pred empty).parts }
{
    let pred = pred as usize;
    if pred < rows.len() {
        return rows[pred].get().parts.as_slice();
    }
    &[]
}

/// The row of a predicate that has one.
fn row_of(rows: &Rows, pred: u32) -> &Row
    requires { pred < length rows.now.items }
    ensures { result.now ≡ slice_index_or rows.now.items pred empty }
{
    rows[pred as usize].get()
}

/// Adds an empty row.
fn more(alloc: Global, rows: &mut Rows) -> Result<(), Memory>
    ensures same { (k : ℕ) → slice_index_or rows.new.items k empty ≡ slice_index_or rows.old.items k empty }
    ensures long { OnOk result (length rows.new.items ≡ length rows.old.items + 1) }
{
    let row = Held::new(alloc, empty_row(alloc))?;
    rows.push(row)?;
    Ok(())
}

/// Makes rows up to a predicate's.
fn grow(alloc: Global, rows: &mut Rows, pred: u32) -> Result<(), Memory>
    ensures same { (k : ℕ) → slice_index_or rows.new.items k empty ≡ slice_index_or rows.old.items k empty }
    ensures there { OnOk result (pred < length rows.new.items) }
{
    while rows.len() <= pred as usize {
        more(alloc, rows)?;
    }
    Ok(())
}

/// Puts a row in the place of one.
fn put(rows: &mut Rows, pred: u32, row: Held<Row>)
    requires { pred < length rows.old.items }
    ensures { rows.new.items ≡ slice_set rows.old.items pred row }
{
    rows[pred as usize] = row;
}

/// Adds a fact of a predicate, and its number to the predicate's row. What can be refused comes
/// before any change but of how many empty rows there are.
pub(crate) fn add_of(
    alloc: Global,
    notes: &mut Notes,
    rows: &mut Rows,
    pred: u32,
    fact: Fact,
) -> Result<(), Memory>
    requires index { IsIndexed rows.old.items notes.old }
    requires pred { fact.pred ≡ Some pred }
    requires there { All (λ p. p < length notes.old) fact.premises }
    requires fresh { (n : ℕ) → Concludes notes.old n fact.pred fact.tuple → ⊥ }
    requires room { length notes.old < 2 ^ 32 - 1 }
    ensures facts { OnOk result (notes.new ≡ notes.old ++ fact ∷ []) }
    ensures index { IsIndexed rows.new.items notes.new }
    ensures err { OnErr result (notes.new ≡ notes.old) }
{
    grow(alloc, rows, pred)?;
    let id = notes.count();
    let old = row_of(rows, pred);
    let tuple = fact.tuple.as_slice();
    let at = rank(notes, old.by_tuple.as_slice(), old.keys.as_slice(), tuple);
    let parts = grown(alloc, old.parts.as_slice(), tuple, id)?;
    let row = with(alloc, old, at, id, key_of(tuple), parts)?;
    let row = Held::new(alloc, row)?;
    notes.add(fact)?;
    put(rows, pred, row);
    Ok(())
}

/// Adds a fact. One of false stands in no row.
pub(crate) fn add_in(
    alloc: Global,
    notes: &mut Notes,
    rows: &mut Rows,
    fact: Fact,
) -> Result<(), Memory>
    requires index { IsIndexed rows.old.items notes.old }
    requires there { All (λ p. p < length notes.old) fact.premises }
    requires fresh { (n : ℕ) → Concludes notes.old n fact.pred fact.tuple → ⊥ }
    requires bare { IsBare fact }
    requires room { length notes.old < 2 ^ 32 - 1 }
    ensures facts { OnOk result (notes.new ≡ notes.old ++ fact ∷ []) }
    ensures index { IsIndexed rows.new.items notes.new }
    ensures err { OnErr result (notes.new ≡ notes.old) }
{
    match fact.pred {
        Some(pred) => add_of(alloc, notes, rows, pred, fact),
        None => {
            notes.add(fact)?;
            Ok(())
        }
    }
}
