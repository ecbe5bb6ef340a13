//! How often tuples came up for which the same literals of guards hold.

use crate::placing::{names_of, push_placed};
use base::{Memory, Same};
use clause_form::System;
use lin_atoms::Lit;
use std::alloc::Global;
use std::collections::BTreeMap;

/// How many literals of a predicate are told apart.
const MOST_MARKS: usize = 60;

/// How many are looked at.
const MOST_LOOKED: usize = 400;

/// Which literals hold for a tuple of a predicate.
#[derive(Clone, Copy, PartialEq, Eq, PartialOrd, Ord)]
struct Pattern {
    pred: u32,
    bits: u64,
}

/// The literals of each predicate, and how often each pattern came up.
#[derive(Drop)]
pub(crate) struct Patterns {
    marks: Vec<Vec<Lit>>,
    counts: BTreeMap<Pattern, u32>,
}

fn has(lits: &[Lit], lit: &Lit) -> bool {
    for one in lits {
        if one.equals(lit) {
            return true;
        }
    }
    false
}

/// The literals, each once, and so many at most.
fn different(alloc: Global, lits: Vec<Lit>) -> Result<Vec<Lit>, Memory> {
    let mut made = Vec::new(alloc);
    for lit in lits {
        if made.len() < MOST_MARKS && !has(made.as_slice(), &lit) {
            made.push(lit)?;
        }
    }
    Ok(made)
}

/// The literals of guards over the places of a predicate.
fn marks_of(alloc: Global, sys: &System, pred: u32) -> Result<Vec<Lit>, Memory> {
    let mut made = Vec::new(alloc);
    for clause in sys.clauses() {
        for atom in clause.atoms.as_slice() {
            if atom.pred == pred {
                let names = names_of(alloc, clause, atom)?;
                push_placed(
                    alloc,
                    &mut made,
                    &clause.guard,
                    names.as_slice(),
                    MOST_LOOKED,
                    true,
                )?;
            }
        }
    }
    different(alloc, made)
}

/// Which of the literals hold, as bits.
fn bits_of(lits: &[Lit], tuple: &[i64]) -> u64 {
    let mut bits: u64 = 0;
    for lit in lits {
        bits = bits.wrapping_mul(2);
        if lit.holds(tuple) {
            bits = bits | 1;
        }
    }
    bits
}

impl Patterns {
    /// No tuple came up yet.
    pub(crate) fn of(alloc: Global, sys: &System) -> Result<Patterns, Memory> {
        let mut marks = Vec::new(alloc);
        for pred in 0..sys.preds().len() {
            if let Ok(pred) = u32::try_from(pred) {
                marks.push(marks_of(alloc, sys, pred)?)?;
            }
        }
        Ok(Patterns {
            marks,
            counts: BTreeMap::new(alloc),
        })
    }

    /// How often the tuple's pattern came up before. It is counted.
    pub(crate) fn count(
        &mut self,
        pred: u32,
        tuple: &[i64],
        work: &mut u64,
    ) -> Result<u32, Memory> {
        let bits = match self.marks.as_slice().get(pred as usize) {
            Some(lits) => {
                *work = work.saturating_add(lits.len() as u64);
                bits_of(lits.as_slice(), tuple)
            }
            None => 0,
        };
        let own = self.counts.entry(Pattern { pred, bits })?.or_insert(0);
        let before = *own;
        *own = before.saturating_add(1);
        Ok(before)
    }
}
