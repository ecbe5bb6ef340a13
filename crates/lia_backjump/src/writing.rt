//! A tree with own numbers is written as a refutation of the form: with the numbers that literals and disjunctions
//! have where each node stands, and with names for the quotients that it uses.

use crate::frames::{BRANCHES, Closed};
use crate::joining::joined;
use crate::names::NAMED;
use crate::nodes::known_of_quotient;
use crate::numbering::{Case, Flat, Numbered, PER_LITERAL, flat_of, put_replaced, size, sizes};
use crate::tree::{Step, Tree};
use crate::used::DERIVED;
use base::Memory;
use lin_atoms::{Form, Lit};
use refutation_trees::Refutation;
use std::alloc::Global;

/// Where a node stands: how many literals are known, and the next variable; how many lists of open disjunctions
/// there are up to its own one, and how many branches were put above it.
#[derive(Clone, Copy)]
struct Place {
    known: u32,
    end: u32,
    open: usize,
    branches: usize,
}

/// A node that is written later.
#[derive(Clone, Copy)]
struct Later<'a> {
    place: Place,
    /// The part of which it is the tree: where the disjunction stands, and the part with the first of its numbers.
    part: Option<(usize, &'a Form, u32)>,
}

/// What is known of own numbers where a node stands.
#[derive(Drop)]
struct Writing<'a> {
    falsehood: &'a Lit,
    /// For each own number of a literal the number where the node stands.
    numbers: Vec<u32>,
    /// For each own number of a branch the number where the node stands.
    branches: Vec<u32>,
    /// For each branch that was put above the node the number that it had before.
    before: Vec<(u32, u32)>,
    /// For each own number by which a quotient is known first its variable.
    names: Vec<u32>,
    /// The own numbers that the tree uses.
    used: Vec<u32>,
    /// The open disjunctions of the nodes above.
    open: Vec<Vec<Case<'a>>>,
    /// The nodes that come, the next one last.
    later: Vec<Later<'a>>,
    /// The nodes that are written.
    steps: Vec<Step>,
    /// The tree, of which so many multipliers and terms are written.
    tree: Tree,
    multipliers: usize,
    terms: usize,
}

fn set(numbers: &mut Vec<u32>, at: u32, number: u32) -> Result<(), Memory> {
    let at = at as usize;
    'fill: for _ in numbers.len()..at.saturating_add(1) {
        numbers.push(0)?;
    }
    if let Some(own) = numbers.get_mut(at) {
        *own = number;
    }
    Ok(())
}

fn at(numbers: &[u32], own: u32) -> u32 {
    match numbers.get(own as usize) {
        Some(number) => *number,
        None => u32::MAX,
    }
}

/// Where the disjunction with the number stands among the open ones.
fn place_of(open: &[Case], number: u32) -> Option<usize> {
    for (at, (_, own)) in open.iter().enumerate() {
        if *own == number {
            return Some(at);
        }
    }
    None
}

impl<'a> Writing<'a> {
    /// The number of a literal, where `known` ones were known above the tree that closes the node.
    fn number(&self, own: u32, known: u32) -> u32 {
        if let Some(derived) = own.checked_sub(DERIVED) {
            return known.saturating_add(derived);
        }
        if let Some(branch) = own.checked_sub(BRANCHES) {
            return at(self.branches.as_slice(), branch / PER_LITERAL);
        }
        at(self.numbers.as_slice(), own)
    }

    /// The variable of that name.
    fn variable(&self, name: u32) -> u32 {
        match name.checked_sub(NAMED) {
            Some(own) => at(self.names.as_slice(), own),
            None => name,
        }
    }

    /// The next multipliers are written.
    fn put_multipliers(&mut self, count: usize, known: u32) {
        let end = self.multipliers.saturating_add(count);
        'next: for at in self.multipliers..end {
            if let Some((own, multiplier)) = self.tree.multipliers.get(at) {
                let written = (self.number(*own, known), *multiplier);
                if let Some(place) = self.tree.multipliers.get_mut(at) {
                    *place = written;
                }
            }
        }
        self.multipliers = end;
    }

    /// The next terms are written.
    fn put_terms(&mut self, count: usize) {
        let end = self.terms.saturating_add(count);
        'next: for at in self.terms..end {
            if let Some((name, coefficient)) = self.tree.terms.get(at) {
                let written = (self.variable(*name), *coefficient);
                if let Some(place) = self.tree.terms.get_mut(at) {
                    *place = written;
                }
            }
        }
        self.terms = end;
    }

    /// The literals get the next numbers.
    fn open(&mut self, lits: &[Numbered], place: &mut Place) -> Result<(), Memory> {
        for (_, own) in lits {
            set(&mut self.numbers, *own, place.known)?;
            place.known = place.known.saturating_add(1);
        }
        Ok(())
    }

    /// The quotient of a literal gets its name, where it has one that is used.
    fn name(&mut self, lit: &Lit, own: u32, place: &mut Place) -> Result<(), Memory> {
        let count = known_of_quotient(lit);
        let first = own.saturating_add(1);
        let second = own.saturating_add(2);
        if count == 0 || !(self.used.contains(&first) || self.used.contains(&second)) {
            return Ok(());
        }
        set(&mut self.numbers, first, place.known)?;
        set(&mut self.numbers, second, place.known.saturating_add(1))?;
        set(&mut self.names, first, place.end)?;
        let lit = at(self.numbers.as_slice(), own);
        self.steps.push(Step::Quotient(lit))?;
        place.known = place.known.saturating_add(count);
        place.end = place.end.saturating_add(1);
        Ok(())
    }

    /// The literals get the next numbers, and their quotients names.
    fn enter(&mut self, lits: &[Numbered], place: &mut Place) -> Result<(), Memory> {
        self.open(lits, place)?;
        for (lit, own) in lits {
            self.name(lit, *own, place)?;
        }
        Ok(())
    }

    /// The part is gone into, whose disjunction stands at the place.
    fn go_into(
        &mut self,
        alloc: Global,
        at: usize,
        part: &'a Form,
        first: u32,
        place: &mut Place,
    ) -> Result<(), Memory> {
        let flat = flat_of(alloc, part, self.falsehood, first)?;
        let mut below = Vec::new(alloc);
        if let Some(open) = self.open.last() {
            put_replaced(&mut below, open.as_slice(), at, flat.cases.as_slice())?;
        }
        self.open.push(below)?;
        place.open = place.open.saturating_add(1);
        self.enter(flat.lits.as_slice(), place)
    }

    /// Where the next node stands.
    fn next(&mut self, alloc: Global) -> Result<Place, Memory> {
        let Some(later) = self.later.pop() else {
            return Ok(Place {
                known: 0,
                end: 0,
                open: 0,
                branches: 0,
            });
        };
        let mut place = later.place;
        self.open.truncate(place.open);
        'back: for _ in place.branches..self.before.len() {
            if let Some((branch, number)) = self.before.pop() {
                set(&mut self.branches, branch, number)?;
            }
        }
        if let Some((at, part, first)) = later.part {
            self.go_into(alloc, at, part, first, &mut place)?;
        }
        Ok(place)
    }

    /// A node that stands there comes.
    fn put_later(&mut self, place: Place) -> Result<(), Memory> {
        self.later.push(Later { place, part: None })?;
        Ok(())
    }

    /// A branch, whose literal has the next number on both sides.
    fn put_branch(&mut self, number: u32, place: Place) -> Result<(), Memory> {
        let branch = number.saturating_sub(BRANCHES) / PER_LITERAL;
        let before = at(self.branches.as_slice(), branch);
        self.before.push((branch, before))?;
        set(&mut self.branches, branch, place.known)?;
        self.put_later(Place {
            known: place.known.saturating_add(1),
            branches: place.branches.saturating_add(1),
            ..place
        })
    }

    /// A split of the disjunction with the number into so many parts.
    fn put_cases(&mut self, number: u32, count: usize, place: Place) -> Result<(), Memory> {
        let Some(open) = self.open.last() else {
            return Ok(());
        };
        let at = place_of(open.as_slice(), number).unwrap_or(0);
        let Some((parts, _)) = open.get(at) else {
            return Ok(());
        };
        let parts = parts.as_slice();
        let mut first = number.saturating_add(1).saturating_add(sizes(parts));
        'parts: for behind in 0..parts.len() {
            let part = &parts[parts.len() - 1 - behind];
            first = first.saturating_sub(size(part));
            let part = Some((at, part, first));
            self.later.push(Later { place, part })?;
        }
        let which = u32::try_from(at).unwrap_or(0);
        self.steps.push(Step::Cases(which, count))?;
        Ok(())
    }

    /// The next node is written.
    fn write(&mut self, alloc: Global, step: Step) -> Result<(), Memory> {
        let place = self.next(alloc)?;
        let (written, below) = match step {
            Step::Leaf(count) => {
                self.put_multipliers(count, place.known);
                (step, 0_usize)
            }
            Step::Round(count, _) => {
                self.put_multipliers(count, place.known);
                (step, 1)
            }
            Step::Split(count, _) => {
                self.put_terms(count);
                (step, 2)
            }
            Step::Branch(number) => return self.put_branch(number, place),
            Step::Cases(number, count) => return self.put_cases(number, count, place),
            Step::Quotient(own) => (Step::Quotient(self.number(own, place.known)), 1),
        };
        self.steps.push(written)?;
        'below: for _ in 0..below {
            self.put_later(place)?;
        }
        Ok(())
    }

    /// The whole tree is written, where the form gives that.
    fn write_all(&mut self, alloc: Global, flat: Flat<'a>, place: Place) -> Result<(), Memory> {
        let Flat { lits, cases } = flat;
        let mut place = place;
        self.open.push(cases)?;
        self.enter(lits.as_slice(), &mut place)?;
        self.put_later(place)?;
        'nodes: for at in 0..self.tree.steps.len() {
            if let Some(step) = self.tree.steps.get(at) {
                let step = *step;
                self.write(alloc, step)?;
            }
        }
        Ok(())
    }
}

/// The tree as one of the form, whose variables are below `end`. It is taken out of what is closed.
pub fn written<'a>(
    alloc: Global,
    form: &'a Form,
    falsehood: &'a Lit,
    closed: &mut Closed,
    end: u32,
) -> Result<Refutation, Memory> {
    let mut used = Vec::new(alloc);
    closed.tree.put_used(&mut used)?;
    let flat = flat_of(alloc, form, falsehood, 0)?;
    let mut writing = Writing {
        falsehood,
        numbers: Vec::new(alloc),
        branches: Vec::new(alloc),
        before: Vec::new(alloc),
        names: Vec::new(alloc),
        used,
        open: Vec::new(alloc),
        later: Vec::new(alloc),
        steps: Vec::new(alloc),
        tree: std::mem::replace(&mut closed.tree, Tree::new(alloc)),
        multipliers: 0,
        terms: 0,
    };
    let place = Place {
        known: 0,
        end,
        open: 1,
        branches: 0,
    };
    writing.write_all(alloc, flat, place)?;
    let mut tree = std::mem::replace(&mut writing.tree, Tree::new(alloc));
    tree.steps = std::mem::replace(&mut writing.steps, Vec::new(alloc));
    joined(alloc, &mut tree)
}
