//! Trees as lists of their nodes, of plain numbers: what is below a node stands behind it, in order. What such a list
//! is kept for is copied and put together without going down a tree.

use crate::used::put;
use base::Memory;
use lin_atoms::Lin;
use refutation_trees::Refutation;
use std::alloc::Global;

/// A node of a tree.
#[derive(Clone, Copy)]
pub enum Step {
    /// A combination of so many literals.
    Leaf(usize),
    /// A combination of so many literals, divided by the number and rounded up.
    Round(usize, i64),
    /// A form of so many terms, with the constant, is at most 0, or at least 1.
    Split(usize, i128),
    /// The branch with the number: its split comes next.
    Branch(u32),
    /// So many parts of the disjunction with the number.
    Cases(u32, usize),
    /// The quotient of the literal with the number gets a name.
    Quotient(u32),
}

/// A tree: its nodes, and the multipliers and the terms of all of them in the same order.
#[derive(Drop)]
pub struct Tree {
    pub steps: Vec<Step>,
    pub multipliers: Vec<(u32, i64)>,
    pub terms: Vec<(u32, i64)>,
}

/// Puts the number of the literal whose quotient the node names behind the others.
fn put_named(used: &mut Vec<u32>, step: Step) -> Result<(), Memory> {
    match step {
        Step::Leaf(_) => Ok(()),
        Step::Round(_, _) => Ok(()),
        Step::Split(_, _) => Ok(()),
        Step::Branch(_) => Ok(()),
        Step::Cases(_, _) => Ok(()),
        Step::Quotient(number) => put(used, number),
    }
}

impl Tree {
    /// A tree without nodes.
    pub fn new(alloc: Global) -> Tree {
        Tree {
            steps: Vec::new(alloc),
            multipliers: Vec::new(alloc),
            terms: Vec::new(alloc),
        }
    }

    /// The nodes of the refutation, as it is given.
    pub fn of(alloc: Global, tree: Refutation) -> Result<Tree, Memory> {
        let mut made = Tree::new(alloc);
        made.put(&tree)?;
        Ok(made)
    }

    /// The nodes of the refutation come behind the others.
    #[cycle(reading)]
    fn put(&mut self, tree: &Refutation) -> Result<(), Memory> {
        match tree {
            Refutation::Leaf { multipliers } => {
                self.steps.push(Step::Leaf(multipliers.len()))?;
                self.multipliers.extend_from_slice(multipliers.as_slice())?;
                Ok(())
            }
            Refutation::Round {
                multipliers,
                divisor,
                sub,
            } => {
                self.steps.push(Step::Round(multipliers.len(), *divisor))?;
                self.multipliers.extend_from_slice(multipliers.as_slice())?;
                self.put(sub.get())
            }
            Refutation::Split { lin, below, above } => {
                self.put_split(lin)?;
                self.put(below.get())?;
                self.put(above.get())
            }
            Refutation::Cases { which, subs } => {
                self.steps.push(Step::Cases(*which, subs.len()))?;
                self.put_all(subs.as_slice())
            }
            Refutation::Quotient { lit, sub } => {
                self.steps.push(Step::Quotient(*lit))?;
                self.put(sub.get())
            }
        }
    }

    #[cycle(reading)]
    fn put_all(&mut self, subs: &[Refutation]) -> Result<(), Memory> {
        for sub in subs {
            self.put(sub)?;
        }
        Ok(())
    }

    /// A split by the form comes behind the others.
    pub(crate) fn put_split(&mut self, lin: &Lin) -> Result<(), Memory> {
        let terms = lin.terms();
        self.steps.push(Step::Split(terms.len(), lin.constant()))?;
        self.terms.extend_from_slice(terms)?;
        Ok(())
    }

    /// The nodes of the other tree come behind the others.
    pub(crate) fn append(&mut self, other: &Tree) -> Result<(), Memory> {
        self.steps.extend_from_slice(other.steps.as_slice())?;
        self.multipliers
            .extend_from_slice(other.multipliers.as_slice())?;
        self.terms.extend_from_slice(other.terms.as_slice())?;
        Ok(())
    }

    /// Puts the numbers of the literals that the tree uses behind the others.
    pub(crate) fn put_used(&self, used: &mut Vec<u32>) -> Result<(), Memory> {
        for (number, _) in self.multipliers.as_slice() {
            put(used, *number)?;
        }
        for step in self.steps.as_slice() {
            put_named(used, *step)?;
        }
        Ok(())
    }
}
