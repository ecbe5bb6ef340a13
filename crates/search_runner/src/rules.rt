//! Which clauses a tuple is handed to.

use base::Memory;
use clause_form::System;
use std::alloc::Global;

/// A body atom of a clause.
#[derive(Clone, Copy)]
pub(crate) struct Use {
    pub(crate) clause: usize,
    pub(crate) atom: usize,
}

/// The clauses by what they start from.
#[derive(Drop)]
pub(crate) struct Rules {
    /// Clauses without body atoms.
    starts: Vec<usize>,
    /// For each predicate its body atoms in clauses with a head.
    steps: Vec<Vec<Use>>,
    /// For each predicate its body atoms in clauses without one.
    queries: Vec<Vec<Use>>,
}

fn no_uses(alloc: Global, preds: usize) -> Result<Vec<Vec<Use>>, Memory> {
    let mut made = Vec::with_capacity(alloc, preds)?;
    for _ in 0..preds {
        made.push(Vec::new(alloc))?;
    }
    Ok(made)
}

fn push_use(uses: &mut Vec<Vec<Use>>, pred: u32, one: Use) -> Result<(), Memory> {
    if let Some(own) = uses.as_mut_slice().get_mut(pred as usize) {
        own.push(one)?;
    }
    Ok(())
}

fn uses_of(uses: &[Vec<Use>], pred: u32) -> &[Use] {
    match uses.get(pred as usize) {
        Some(own) => own.as_slice(),
        None => &[],
    }
}

fn use_at(uses: &[Use], place: usize) -> Option<Use> {
    match uses.get(place) {
        Some(one) => Some(*one),
        None => None,
    }
}

impl Rules {
    /// Takes in the body atoms of the clause of that number.
    fn push(&mut self, sys: &System, number: usize) -> Result<(), Memory> {
        if let Some(clause) = sys.clauses().get(number) {
            if clause.atoms.len() == 0 {
                self.starts.push(number)?;
            }
            for (at, atom) in clause.atoms.as_slice().iter().enumerate() {
                let one = Use {
                    clause: number,
                    atom: at,
                };
                if clause.head.is_some() {
                    push_use(&mut self.steps, atom.pred, one)?;
                } else {
                    push_use(&mut self.queries, atom.pred, one)?;
                }
            }
        }
        Ok(())
    }

    /// The clauses of a system.
    pub(crate) fn of(alloc: Global, sys: &System) -> Result<Rules, Memory> {
        let preds = sys.preds().len();
        let mut rules = Rules {
            starts: Vec::new(alloc),
            steps: no_uses(alloc, preds)?,
            queries: no_uses(alloc, preds)?,
        };
        for number in 0..sys.clauses().len() {
            rules.push(sys, number)?;
        }
        Ok(rules)
    }

    /// How many clauses have no body atoms.
    pub(crate) fn starts(&self) -> usize {
        self.starts.len()
    }

    /// The clause without body atoms at a place.
    pub(crate) fn start(&self, place: usize) -> Option<usize> {
        match self.starts.as_slice().get(place) {
            Some(number) => Some(*number),
            None => None,
        }
    }

    /// How many body atoms of the predicate there are in clauses with a head.
    pub(crate) fn steps(&self, pred: u32) -> usize {
        uses_of(self.steps.as_slice(), pred).len()
    }

    /// The one at a place.
    pub(crate) fn step(&self, pred: u32, place: usize) -> Option<Use> {
        use_at(uses_of(self.steps.as_slice(), pred), place)
    }

    /// How many body atoms of the predicate there are in clauses without one.
    pub(crate) fn queries(&self, pred: u32) -> usize {
        uses_of(self.queries.as_slice(), pred).len()
    }

    /// The one at a place.
    pub(crate) fn query(&self, pred: u32, place: usize) -> Option<Use> {
        use_at(uses_of(self.queries.as_slice(), pred), place)
    }
}
