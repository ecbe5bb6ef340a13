//! Trees of what was closed, which close other nodes, too: own numbers are the same wherever a literal or a disjunction
//! of the form is.

use crate::frames::{BRANCHES, Closed};
use crate::nodes::{Node, known_of_quotient, number_of};
use crate::numbering::{Case, size};
use crate::tree::Tree;
use base::Memory;
use lin_atoms::Lit;
use refutation_trees::Refutation;
use std::alloc::Global;

/// So many trees are kept, the last ones.
const MOST_KEPT: usize = 256;

/// So many things a tree uses at most that is kept.
const MOST_USED: usize = 16;

/// So many nodes it has at most.
const MOST_NODES: usize = 120;

/// Forms that take more numbers keep no trees.
const MOST_NUMBERS: u32 = 1 << 12;

/// Trees of what was closed, and what they use; and what is seen at the node that was looked at last.
#[derive(Drop)]
pub struct Nogoods {
    /// How many numbers the form takes, or 0 where these are too many and no trees are kept.
    pub numbers: u32,
    pub kept: Vec<Closed>,
    /// Where the next one is kept.
    pub next: usize,
    pub seen: Seen,
}

/// What is there at a node, and the parts that a tree closes.
#[derive(Drop)]
pub struct Seen {
    /// Whether what has the number is there.
    pub there: Vec<bool>,
    /// The first numbers of the parts.
    pub shut: Vec<u32>,
}

/// Whether a number is one of a branch.
fn has_branch(used: &[u32]) -> bool {
    for number in used {
        if *number >= BRANCHES {
            return true;
        }
    }
    false
}

/// The other one becomes a copy.
fn put_copy(alloc: Global, closed: &Closed, to: &mut Closed) -> Result<(), Memory> {
    to.used.clear();
    to.used.extend_from_slice(closed.used.as_slice())?;
    to.tree = Tree::new(alloc);
    to.tree.append(&closed.tree)
}

/// The part of an open disjunction that has the number: the numbers from the first one to before the second.
fn part_with(cases: &[Case], number: u32) -> Option<(u32, u32)> {
    for (parts, own) in cases {
        let mut first = own.saturating_add(1);
        for part in parts.as_slice() {
            let end = first.saturating_add(size(part));
            if number >= first && number < end {
                return Some((first, end));
            }
            first = end;
        }
    }
    None
}

impl Seen {
    fn mark(&mut self, number: u32) {
        if let Some(there) = self.there.get_mut(number as usize) {
            *there = true;
        }
    }

    /// A literal is there, and with it what is known of its quotient.
    fn mark_literal(&mut self, lit: &Lit, number: u32) {
        self.mark(number);
        if known_of_quotient(lit) > 0 {
            self.mark(number.saturating_add(1));
            self.mark(number.saturating_add(2));
        }
    }

    /// What is there at the node, and nothing else.
    fn see(&mut self, node: &Node) {
        self.shut.clear();
        for there in self.there.iter_mut() {
            *there = false;
        }
        for (at, lit) in node.lits.as_slice().iter().enumerate() {
            if let Some(reason) = node.reasons.get(at) {
                self.mark_literal(lit, number_of(lit, *reason));
            }
        }
        for (lit, number) in node.left_out.as_slice() {
            self.mark_literal(lit, *number);
        }
        for (_, number) in node.cases.as_slice() {
            self.mark(*number);
        }
    }

    fn has(&self, number: u32) -> bool {
        match self.there.get(number as usize) {
            Some(there) => *there,
            None => false,
        }
    }

    /// The part that lacks, or nothing where all that is used is there, or is lacking in more than one part.
    fn lacking(&self, used: &[u32], cases: &[Case]) -> Lacking {
        let mut found = Lacking::Nothing;
        for number in used {
            if !self.has(*number) {
                found = match found {
                    Lacking::Nothing => match part_with(cases, *number) {
                        Some((first, end)) => Lacking::Part(first, end),
                        None => Lacking::More,
                    },
                    Lacking::Part(first, end) => {
                        if *number >= first && *number < end {
                            Lacking::Part(first, end)
                        } else {
                            Lacking::More
                        }
                    }
                    Lacking::More => Lacking::More,
                };
                if matches!(found, Lacking::More) {
                    return found;
                }
            }
        }
        found
    }

    /// Whether the part whose numbers begin there is closed by a tree.
    pub(crate) fn is_shut(&self, first: u32) -> bool {
        self.shut.contains(&first)
    }
}

/// What a tree uses that isn't there.
#[derive(Clone, Copy)]
enum Lacking {
    Nothing,
    /// All of it is in one part of an open disjunction, which has these numbers.
    Part(u32, u32),
    More,
}

/// So many that aren't there.
fn nothing(alloc: Global, numbers: u32) -> Result<Vec<bool>, Memory> {
    let mut there = Vec::with_capacity(alloc, numbers as usize)?;
    'there: for _ in 0..numbers {
        there.push(false)?;
    }
    Ok(there)
}

impl Nogoods {
    /// Nothing was closed yet. The form takes so many numbers.
    pub fn new(alloc: Global, numbers: u32) -> Result<Nogoods, Memory> {
        let numbers = if numbers > MOST_NUMBERS { 0 } else { numbers };
        Ok(Nogoods {
            numbers,
            kept: Vec::new(alloc),
            next: 0,
            seen: Seen {
                there: nothing(alloc, numbers)?,
                shut: Vec::new(alloc),
            },
        })
    }

    /// What was seen at the node that was looked at last.
    pub fn seen(&self) -> &Seen {
        &self.seen
    }

    /// Keeps the tree, where it is small, in place of the one that was kept longest, where there are many.
    pub fn keep(&mut self, alloc: Global, closed: &Closed) -> Result<(), Memory> {
        let used = closed.used.as_slice();
        if self.numbers == 0 || used.len() > MOST_USED || has_branch(used) {
            return Ok(());
        }
        if closed.tree.steps.len() > MOST_NODES {
            return Ok(());
        }
        if self.kept.len() < MOST_KEPT {
            self.kept.push(Closed::new(alloc))?;
        }
        if let Some(old) = self.kept.get_mut(self.next) {
            put_copy(alloc, closed, old)?;
        }
        let next = self.next.saturating_add(1);
        self.next = if next < MOST_KEPT { next } else { 0 };
        Ok(())
    }

    /// Looks at the node. Whether a tree that was kept closes it: then `closed` becomes a copy of that.
    pub fn look(
        &mut self,
        alloc: Global,
        node: &Node,
        closed: &mut Closed,
    ) -> Result<bool, Memory> {
        self.seen.see(node);
        for kept in self.kept.as_slice() {
            match self
                .seen
                .lacking(kept.used.as_slice(), node.cases.as_slice())
            {
                Lacking::Nothing => {
                    put_copy(alloc, kept, closed)?;
                    return Ok(true);
                }
                Lacking::Part(first, _) => self.seen.shut.push(first)?,
                Lacking::More => {}
            }
        }
        Ok(false)
    }
}
