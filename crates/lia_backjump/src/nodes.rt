//! The nodes of the search.

use crate::numbering::{Case, Flat, Numbered, put_replaced};
use base::{Copied, Items, Memory};
use lin_atoms::Lit;
use std::alloc::Global;

/// A node: the literals that have joined, each with the number of the first literal that gives its bounds, its
/// own one or that of its quotient; the literals of the form that are left out; and the open disjunctions.
#[derive(Drop)]
pub struct Node<'a> {
    /// The literals that have joined.
    pub lits: Items<Lit>,
    /// For each of them the number of the first literal that gives its bounds.
    pub reasons: Vec<u32>,
    /// The literals of the form that are left out.
    pub left_out: Vec<Numbered<'a>>,
    /// The open disjunctions.
    pub cases: Vec<Case<'a>>,
}

/// Whether the literal has a quotient: 0 where it has none, and else how many literals are known of it.
pub(crate) fn known_of_quotient(lit: &Lit) -> u32 {
    match lit {
        Lit::Le(_) => 0,
        Lit::Eq(_) => 0,
        Lit::Div(_, lin) => { if lin.terms().is_empty() { 0 } else { 1 } }
        Lit::NDiv(_, lin) => { if lin.terms().is_empty() { 0 } else { 2 } }
    }
}

/// The number of the literal whose bounds are first given by the one with that number.
pub(crate) fn number_of(lit: &Lit, reason: u32) -> u32 {
    if known_of_quotient(lit) == 0 {
        reason
    } else {
        reason.saturating_sub(1)
    }
}

/// The number of the first literal that gives the bounds of the literal with the number.
pub(crate) fn reason(lit: &Lit, number: u32) -> u32 {
    if known_of_quotient(lit) == 0 {
        number
    } else {
        number.saturating_add(1)
    }
}

impl<'a> Node<'a> {
    /// A node without anything.
    pub fn new(alloc: Global) -> Node<'a> {
        Node {
            lits: Items::new(alloc),
            reasons: Vec::new(alloc),
            left_out: Vec::new(alloc),
            cases: Vec::new(alloc),
        }
    }

    /// A literal joins.
    fn join(&mut self, lit: Lit, number: u32) -> Result<(), Memory> {
        let reason = reason(&lit, number);
        self.lits.push(lit)?;
        self.reasons.push(reason)?;
        Ok(())
    }

    /// Copies of the literals join.
    fn join_all(&mut self, alloc: Global, lits: &[Numbered]) -> Result<(), Memory> {
        for (lit, number) in lits {
            self.join(lit.copy(alloc)?, *number)?;
        }
        Ok(())
    }

    /// What the form gives: the first `taken` literals join, and the others are left out.
    pub fn begin(&mut self, alloc: Global, flat: &Flat<'a>, taken: usize) -> Result<(), Memory> {
        let lits = flat.lits.as_slice();
        let count = taken.min(lits.len());
        self.left_out.extend_from_slice(&lits[count..])?;
        self.cases.extend_from_slice(flat.cases.as_slice())?;
        self.join_all(alloc, &lits[..count])
    }

    /// The one at the place among those that were left out joins. Past their end nothing joins.
    pub fn take_in(&mut self, alloc: Global, at: usize) -> Result<(), Memory> {
        if at < self.left_out.len() {
            let (lit, number) = self.left_out.remove(at);
            self.join(lit.copy(alloc)?, number)?;
        }
        Ok(())
    }

    /// The other node becomes a copy, but for its disjunctions.
    fn put_literals(&self, alloc: Global, to: &mut Node<'a>) -> Result<(), Memory> {
        to.lits = self.lits.copy(alloc)?;
        to.reasons.clear();
        to.reasons.extend_from_slice(self.reasons.as_slice())?;
        to.left_out.clear();
        to.left_out.extend_from_slice(self.left_out.as_slice())?;
        to.cases.clear();
        Ok(())
    }

    /// The other node becomes the one below where a literal joins.
    pub(crate) fn put_with(
        &self,
        alloc: Global,
        lit: &Lit,
        number: u32,
        to: &mut Node<'a>,
    ) -> Result<(), Memory> {
        self.put_literals(alloc, to)?;
        to.cases.extend_from_slice(self.cases.as_slice())?;
        to.join(lit.copy(alloc)?, number)
    }

    /// The other node becomes the one below where the disjunction at `at` is split, for what a part of it gives.
    pub(crate) fn put_part(
        &self,
        alloc: Global,
        at: usize,
        part: &Flat<'a>,
        to: &mut Node<'a>,
    ) -> Result<(), Memory> {
        self.put_literals(alloc, to)?;
        put_replaced(
            &mut to.cases,
            self.cases.as_slice(),
            at,
            part.cases.as_slice(),
        )?;
        to.join_all(alloc, part.lits.as_slice())
    }
}
