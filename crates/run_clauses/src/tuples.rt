//! Tuples that were derived, each with the instance that gave it.

use base::Memory;
use std::alloc::Global;

/// How many lists the tuples are kept in, by their hashes.
const LISTS: usize = 1 << 14;

/// The end of a list.
const NONE: u32 = u32::MAX;

/// A tuple of a predicate with the instance of a clause that gave it.
#[derive(Drop)]
pub struct Derived {
    pub pred: u32,
    pub tuple: Vec<i64>,
    pub clause: u32,
    /// The values of the clause's variables.
    pub point: Vec<i64>,
    /// For each body atom the number of its tuple.
    pub premises: Vec<u32>,
}

/// Tuples by number, no two of a predicate the same.
#[derive(Drop)]
pub struct Tuples {
    all: Vec<Derived>,
    /// The last number of each list.
    lists: Vec<u32>,
    /// For each number the one before it in its list.
    before: Vec<u32>,
    /// For each predicate its numbers.
    of: Vec<Vec<u32>>,
}

/// The hash of a tuple.
fn hash_of(pred: u32, tuple: &[i64]) -> u64 {
    let mut hash = u64::from(pred).wrapping_add(0x9e37);
    for value in tuple {
        let own = value
            .unsigned_abs()
            .wrapping_mul(2)
            .wrapping_add(if *value < 0 { 1 } else { 0 });
        hash = hash.wrapping_mul(0x2545_f491_4f6c_dd1d).wrapping_add(own);
        hash = hash ^ (hash >> 29);
    }
    hash
}

/// The list of a tuple.
fn list_of(pred: u32, tuple: &[i64]) -> usize {
    (hash_of(pred, tuple) >> 7) as usize & (LISTS - 1)
}

impl Tuples {
    /// No tuples of so many predicates.
    pub fn new(alloc: Global, preds: usize) -> Result<Tuples, Memory> {
        let lists = vec![in alloc; NONE; LISTS]?;
        let mut of = Vec::with_capacity(alloc, preds)?;
        for _ in 0..preds {
            of.push(Vec::new(alloc))?;
        }
        Ok(Tuples {
            all: Vec::new(alloc),
            lists,
            before: Vec::new(alloc),
            of,
        })
    }

    /// How many there are.
    pub fn len(&self) -> usize {
        self.all.len()
    }

    /// The one of that number.
    pub fn get(&self, number: u32) -> Option<&Derived> {
        self.all.as_slice().get(number as usize)
    }

    /// The numbers of a predicate's tuples, in order.
    pub fn of(&self, pred: u32) -> &[u32] {
        match self.of.as_slice().get(pred as usize) {
            Some(numbers) => numbers.as_slice(),
            None => &[],
        }
    }

    /// Whether the tuple of that number is this.
    fn is(&self, number: u32, pred: u32, tuple: &[i64]) -> bool {
        match self.get(number) {
            Some(one) => one.pred == pred && one.tuple.as_slice() == tuple,
            None => false,
        }
    }

    /// The number of a tuple, if it is there.
    pub fn find(&self, pred: u32, tuple: &[i64]) -> Option<u32> {
        let mut next = match self.lists.as_slice().get(list_of(pred, tuple)) {
            Some(last) => *last,
            None => return None,
        };
        for _ in 0..self.all.len() {
            if self.is(next, pred, tuple) {
                return Some(next);
            }
            next = match self.before.as_slice().get(next as usize) {
                Some(before) => *before,
                None => return None,
            };
        }
        None
    }

    /// Adds a tuple that isn't there, and answers its number.
    pub fn add(&mut self, one: Derived) -> Result<Option<u32>, Memory> {
        let number = match u32::try_from(self.all.len()) {
            Ok(number) => number,
            Err(_) => return Ok(None),
        };
        let list = list_of(one.pred, one.tuple.as_slice());
        let pred = one.pred as usize;
        if let Some(numbers) = self.of.as_mut_slice().get_mut(pred) {
            numbers.push(number)?;
        }
        let last = match self.lists.as_slice().get(list) {
            Some(last) => *last,
            None => NONE,
        };
        self.before.push(last)?;
        if let Some(own) = self.lists.as_mut_slice().get_mut(list) {
            *own = number;
        }
        self.all.push(one)?;
        Ok(Some(number))
    }
}
