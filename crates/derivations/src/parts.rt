ghost use Rattle.std.specs.Prelude.{◌≡◌, ◌↔◌, ◌<◌, ◌≤◌, ℕ, [], Some, length, slice_index_or, IfOk};
ghost use Rattle.derivations.specs.machinery.Index.{joined, AreGrown, AreSingle, Holds};

use crate::key::Key;
use crate::part::Part;
use base::{Items, Memory};
use cube_forms::{Held, Tuple, share_all};
use keyed_hash::KeyedState;
use std::alloc::Global;
use std::hash::BuildHasher;

/// How many times as large as the next one a part has to be.
const TIMES: usize = 8;

/// The tuples of a predicate with their numbers, the newest of them in the last part.
pub(crate) type Parts = Items<Held<Part>>;

/// The part at a place.
fn part_at(parts: &[Held<Part>], at: usize) -> &Part
    requires { at < length parts.now }
    ensures { result.now ≡ slice_index_or parts.now at [] }
{
    parts[at].get()
}

/// The number that a tuple has in the parts, of which the last is looked into first.
pub(crate) fn sought(parts: &[Held<Part>], tuple: &[i64]) -> Option<u32>
    requires { AreSingle parts.now }
    ensures { (n : ℕ) → (result ≡ Some n) ↔ Holds parts.now tuple.now n }
{
    let mut left = parts.len();
    while left > 0 {
        left -= 1;
        match part_at(parts, left).get(tuple) {
            Some(number) => return Some(number),
            None => {}
        }
    }
    None
}

/// How many parts stay as they are where a tuple comes.
fn staying(parts: &[Held<Part>]) -> usize
    ensures { result ≤ length parts.now }
{
    let mut left = parts.len();
    let mut size = 1usize;
    while left > 0 && parts[left - 1].get().len() / TIMES < size {
        left -= 1;
        size = size.saturating_add(parts[left].get().len());
    }
    left
}

/// The key of the part that a tuple comes into: it depends on all tuples before it, and on this one.
fn key_for(parts: &[Held<Part>], tuple: &[i64], number: u32) -> KeyedState {
    let before = match parts.last() {
        Some(part) => part.get().key(),
        None => KeyedState::new(0, 0),
    };
    KeyedState::new(before.hash_one(tuple), u64::from(number))
}

/// A part with one tuple and all of others.
fn joined(
    alloc: Global,
    key: KeyedState,
    tuple: &[i64],
    number: u32,
    others: &[Held<Part>],
) -> Result<Part, Memory>
    ensures { IfOk result (λ part. part ≡ joined others.now tuple.now number) }
{
    let mut part = Part::new(alloc, key);
    let tuple = Held::new(alloc, Tuple::from_slice(alloc, tuple)?)?;
    part.put(Key { tuple }, number)?;
    for other in others {
        part.pour(other.get())?;
    }
    Ok(part)
}

/// The parts with one tuple more. The last part is made anew, and with it go those that aren't large
/// enough beside it.
pub(crate) fn grown(
    alloc: Global,
    parts: &[Held<Part>],
    tuple: &[i64],
    number: u32,
) -> Result<Parts, Memory>
    ensures { IfOk result (λ longer. AreGrown parts.now tuple.now number longer) }
{
    let left = staying(parts);
    let key = key_for(parts, tuple, number);
    let part = joined(alloc, key, tuple, number, &parts[left..])?;
    let mut longer = share_all(alloc, &parts[..left])?;
    longer.push(Held::new(alloc, part)?)?;
    Ok(Items::from_vec(longer))
}
