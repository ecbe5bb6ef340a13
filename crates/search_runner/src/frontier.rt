//! Which tuple is followed next.

use base::Memory;
use std::alloc::Global;
use std::collections::BTreeSet;

/// A tuple's number behind what it is sorted by.
#[derive(Clone, Copy, PartialEq, Eq, PartialOrd, Ord)]
struct Ranked {
    rank: u32,
    further: u32,
    number: u32,
}

/// Tuples that wait to be followed, in several orders.
#[derive(Drop)]
pub(crate) struct Frontier {
    is_followed: Vec<bool>,
    newest: Vec<u32>,
    oldest: u32,
    rarest: BTreeSet<Ranked>,
    turn: u32,
}

impl Frontier {
    /// None waits.
    pub(crate) fn new(alloc: Global) -> Frontier {
        Frontier {
            is_followed: Vec::new(alloc),
            newest: Vec::new(alloc),
            oldest: 0,
            rarest: BTreeSet::new(alloc),
            turn: 0,
        }
    }

    /// The tuple of the next number waits: how often its pattern came up before it, and by how many clauses a
    /// query rests on its predicate.
    pub(crate) fn push(&mut self, number: u32, rank: u32, further: u32) -> Result<(), Memory> {
        self.is_followed.push(false)?;
        self.newest.push(number)?;
        self.rarest.insert(Ranked {
            rank,
            further,
            number,
        })?;
        Ok(())
    }

    /// Whether the tuple waits.
    fn waits(&self, number: u32) -> bool {
        match self.is_followed.as_slice().get(number as usize) {
            Some(done) => !*done,
            None => false,
        }
    }

    fn take_newest(&mut self) -> Option<u32> {
        for _ in 0..self.is_followed.len() {
            let number = self.newest.pop()?;
            if self.waits(number) {
                return Some(number);
            }
        }
        None
    }

    fn take_oldest(&mut self) -> Option<u32> {
        for _ in 0..self.is_followed.len() {
            let number = self.oldest;
            if number as usize >= self.is_followed.len() {
                return None;
            }
            self.oldest = number.saturating_add(1);
            if self.waits(number) {
                return Some(number);
            }
        }
        None
    }

    fn take_rarest(&mut self) -> Option<u32> {
        for _ in 0..self.is_followed.len() {
            let first = self.rarest.pop_first()?;
            if self.waits(first.number) {
                return Some(first.number);
            }
        }
        None
    }

    /// The tuple of this turn.
    fn next(&mut self) -> Option<u32> {
        self.turn = self.turn.wrapping_add(1);
        match self.turn % 5 {
            0 => self.take_oldest(),
            1 => self.take_rarest(),
            2 => self.take_newest(),
            3 => self.take_rarest(),
            _ => self.take_newest(),
        }
    }

    /// The tuple that is followed next, if one waits.
    pub(crate) fn take(&mut self) -> Option<u32> {
        let found = match self.next() {
            Some(number) => Some(number),
            None => self.take_newest(),
        };
        if let Some(number) = found {
            if let Some(own) = self.is_followed.as_mut_slice().get_mut(number as usize) {
                *own = true;
            }
        }
        found
    }
}
