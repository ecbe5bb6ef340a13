//! The nodes of a search that aren't closed yet.

ghost use Rattle.std.specs.Prelude.{◌≡◌, ◌<◌, length, IfOk, OnOk};
ghost use Rattle.lia_stack.specs.machinery.Opened.{with_left_out, with_lit};

use crate::lent::Lent;
use base::{Copied, Items, Memory};
use lia_close::numbered;
use lin_atoms::{Form, Lit};
use std::alloc::Global;

/// A literal of the form that is left out, and its number in the refutation.
#[derive(Drop)]
pub struct LeftOut<'a> {
    pub lit: Lent<'a, Lit>,
    pub number: u32,
}

impl<'a> Copied for LeftOut<'a> {
    fn copy(&self, alloc: Global) -> Result<LeftOut<'a>, Memory> {
        Ok(LeftOut {
            lit: self.lit.copy(alloc)?,
            number: self.number,
        })
    }
}

/// A node that isn't closed, and how its literals are numbered in the refutation.
#[derive(Drop)]
pub struct Open<'a> {
    /// The literals, in the order in which they joined the node or one above it.
    pub lits: Items<Lit>,
    /// For each literal its number.
    pub numbers: Items<u32>,
    /// For each of the first literals the number of the first of those that give its bounds. The
    /// quotients of these literals have their names.
    pub reasons: Items<u32>,
    /// How many literals are known where the node's tree stands.
    pub known: usize,
    /// The literals of the form that are left out.
    pub left_out: Items<LeftOut<'a>>,
    /// The open disjunctions, each as its parts.
    pub cases: Items<Lent<'a, Items<Form>>>,
}

impl<'a> Copied for Open<'a> {
    fn copy(&self, alloc: Global) -> Result<Open<'a>, Memory> {
        let cases = self.cases.copy(alloc)?;
        let copy = self.with_cases(alloc, cases)?;
        Ok(copy)
    }
}

impl<'a> Open<'a> {
    /// A copy with other disjunctions.
    pub(crate) fn with_cases(
        &self,
        alloc: Global,
        cases: Items<Lent<'a, Items<Form>>>,
    ) -> Result<Open<'a>, Memory>
        ensures { IfOk result (λ made. made ≡ record self.now { cases = cases.entry }) }
    {
        Ok(Open {
            lits: self.lits.copy(alloc)?,
            numbers: self.numbers.copy(alloc)?,
            reasons: self.reasons.copy(alloc)?,
            known: self.known,
            left_out: self.left_out.copy(alloc)?,
            cases,
        })
    }

    /// A literal that becomes known joins as the last.
    pub(crate) fn add(&mut self, lit: Lit) -> Result<(), Memory>
        ensures { OnOk result (self.new ≡ with_lit self.old lit) }
    {
        let number = numbered(self.known)?;
        self.lits.push(lit)?;
        self.numbers.push(number)?;
        self.known += 1;
        Ok(())
    }

    /// A literal that was left out joins as the last.
    pub(crate) fn take_in(&mut self, alloc: Global, at: usize) -> Result<(), Memory>
        requires { at < length self.old.left_out }
        ensures { OnOk result (self.new ≡ with_left_out self.old at) }
    {
        let LeftOut { lit, number } = self.left_out.remove(at);
        self.lits.push(lit.get().copy(alloc)?)?;
        self.numbers.push(number)?;
        Ok(())
    }
}
