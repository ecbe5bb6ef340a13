//! Facts of the book as tuples.

use base::Memory;
use derivations::{Fact, Facts};
use run_clauses::{Derived, Tuples};
use std::alloc::Global;

/// The numbers of the tuples that the book's facts are.
#[derive(Drop)]
pub(crate) struct Known {
    numbers: Vec<Option<u32>>,
}

impl Known {
    /// No facts.
    pub(crate) fn new(alloc: Global) -> Known {
        Known {
            numbers: Vec::new(alloc),
        }
    }

    /// How many of the facts were looked at.
    pub(crate) fn count(&self) -> u32 {
        match u32::try_from(self.numbers.len()) {
            Ok(count) => count,
            Err(_) => u32::MAX,
        }
    }

    /// The next fact is the tuple of that number, if it is one.
    pub(crate) fn push(&mut self, number: Option<u32>) -> Result<(), Memory> {
        self.numbers.push(number)?;
        Ok(())
    }

    /// The numbers of the tuples on which a fact rests, where each is there.
    fn premises(&self, alloc: Global, fact: &Fact) -> Result<Option<Vec<u32>>, Memory> {
        let mut made = Vec::with_capacity(alloc, fact.premises.len())?;
        for premise in fact.premises.as_slice() {
            match self.numbers.as_slice().get(*premise as usize) {
                Some(Some(number)) => made.push(*number)?,
                _ => return Ok(None),
            }
        }
        Ok(Some(made))
    }

    /// The fact as a tuple with its instance, where it is none of false and what it rests on is there.
    pub(crate) fn derived(&self, alloc: Global, fact: &Fact) -> Result<Option<Derived>, Memory> {
        let pred = match fact.pred {
            Some(pred) => pred,
            None => return Ok(None),
        };
        let premises = match self.premises(alloc, fact)? {
            Some(premises) => premises,
            None => return Ok(None),
        };
        let tuple = Vec::from_slice(alloc, fact.tuple.as_slice())?;
        let point = Vec::from_slice(alloc, fact.point.as_slice())?;
        Ok(Some(Derived {
            pred,
            tuple,
            clause: fact.clause,
            point,
            premises,
        }))
    }
}

/// The fact of that number, if there is one.
pub(crate) fn fact_of(facts: &Facts, number: u32) -> Option<&Fact> {
    if number < facts.count() {
        Some(facts.fact(number))
    } else {
        None
    }
}
