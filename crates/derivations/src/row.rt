ghost use Rattle.std.specs.Prelude.{◌≡◌, [], ◌∷◌, ◌++◌, ◌≤◌, length, IfOk};
ghost use Rattle.std.specs.List.{insert};

use crate::parts::Parts;
use base::{Items, Memory};
use std::alloc::Global;

/// The numbers of one predicate's facts, in order of number and in order of tuple, and the keys of
/// the tuples in that order.
pub(crate) struct Row {
    pub(crate) by_number: Items<u32>,
    pub(crate) by_tuple: Items<u32>,
    pub(crate) keys: Items<i64>,
    pub(crate) parts: Parts,
}

impl Drop for Row {
    fn drop(self) {
        let Row {
            by_number: _,
            by_tuple: _,
            keys: _,
            parts: _,
        } = self;
    }
}

/// A row without facts.
pub(crate) fn empty_row(alloc: Global) -> Row
    ensures numbers { result.by_number ≡ [] }
    ensures tuples { result.by_tuple ≡ [] }
    ensures keys { result.keys ≡ [] }
    ensures parts { result.parts ≡ [] }
{
    Row {
        by_number: Items::new(alloc),
        by_tuple: Items::new(alloc),
        keys: Items::new(alloc),
        parts: Items::new(alloc),
    }
}

/// A copy with one number more at a place.
fn inserted(alloc: Global, numbers: &[u32], at: usize, id: u32) -> Result<Items<u32>, Memory>
    requires { at ≤ length numbers.now }
    ensures { IfOk result (λ longer. longer ≡ insert numbers.now at id) }
{
    let mut longer = Vec::with_capacity(alloc, numbers.len() + 1)?;
    longer.extend_from_slice(numbers)?;
    longer.insert(at, id)?;
    Ok(Items::from_vec(longer))
}

/// A copy with one key more at a place.
fn key_inserted(alloc: Global, keys: &[i64], at: usize, key: i64) -> Result<Items<i64>, Memory>
    requires { at ≤ length keys.now }
    ensures { IfOk result (λ longer. longer ≡ insert keys.now at key) }
{
    let mut longer = Vec::with_capacity(alloc, keys.len() + 1)?;
    longer.extend_from_slice(keys)?;
    longer.insert(at, key)?;
    Ok(Items::from_vec(longer))
}

/// A copy with one number more at the end.
fn extended(alloc: Global, numbers: &[u32], id: u32) -> Result<Items<u32>, Memory>
    ensures { IfOk result (λ longer. longer ≡ numbers.now ++ id ∷ []) }
{
    let mut longer = Vec::with_capacity(alloc, numbers.len() + 1)?;
    longer.extend_from_slice(numbers)?;
    longer.push(id)?;
    Ok(Items::from_vec(longer))
}

/// A copy of a row with one fact more, which is the last by number and stands at a place by tuple.
pub(crate) fn with(
    alloc: Global,
    row: &Row,
    at: usize,
    id: u32,
    key: i64,
    parts: Parts,
) -> Result<Row, Memory>
    requires tuples { at ≤ length row.now.by_tuple }
    requires keys { at ≤ length row.now.keys }
    ensures { IfOk result (λ longer. longer ≡ record { by_number = row.now.by_number ++ id ∷ []; by_tuple = insert row.now.by_tuple at id; keys = insert row.now.keys at key; parts = parts }) }
{
    let by_number = extended(alloc, row.by_number.as_slice(), id)?;
    let by_tuple = inserted(alloc, row.by_tuple.as_slice(), at, id)?;
    let keys = key_inserted(alloc, row.keys.as_slice(), at, key)?;
    Ok(Row {
        by_number,
        by_tuple,
        keys,
        parts,
    })
}
