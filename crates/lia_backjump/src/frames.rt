//! What is split above the node that is looked at.

use crate::names::name_terms;
use crate::near::{Part, nearest_first};
use crate::nodes::Node;
use crate::numbering::{Case, PER_LITERAL, flat_of, size};
use crate::tree::{Step, Tree};
use crate::used::{is_used, put, put_others};
use base::{Items, Memory};
use lin_atoms::{Form, Lit};
use std::alloc::Global;

/// Branches have numbers from here on.
pub const BRANCHES: u32 = 1 << 29;

/// How a node is split.
#[derive(Drop)]
pub struct Way<'a> {
    /// Where the disjunction stands among the node's open ones.
    pub at: usize,
    /// The parts of the disjunction; none of a branch.
    pub parts: &'a [Form],
    /// The literals of the two sides of a branch; none of a disjunction.
    pub sides: Vec<Lit>,
    /// The number of the disjunction or of the branch.
    pub number: u32,
    /// The parts or sides, in the order in which they are looked at.
    pub order: Vec<Part>,
    /// What stands above the trees of what is below.
    pub above: Tree,
}

/// A node that is split; how many nodes below it were looked at, and the numbers of what the last of them has
/// alone, from one on to before the other; the trees of what is closed, and what these use of the node.
#[derive(Drop)]
pub struct Frame<'a> {
    pub node: Node<'a>,
    pub way: Way<'a>,
    pub next: usize,
    pub range: (u32, u32),
    pub trees: Vec<Tree>,
    pub used: Vec<u32>,
}

/// What is closed: a tree, and what it uses.
#[derive(Drop)]
pub struct Closed {
    pub tree: Tree,
    pub used: Vec<u32>,
}

impl Closed {
    /// A tree without nodes, which uses nothing.
    pub fn new(alloc: Global) -> Closed {
        Closed {
            tree: Tree::new(alloc),
            used: Vec::new(alloc),
        }
    }

    /// The tree is closed, and what it uses.
    pub fn put(&mut self, tree: Tree) -> Result<(), Memory> {
        self.tree = tree;
        self.used.clear();
        self.tree.put_used(&mut self.used)
    }
}

/// Where the part at the place stands in the order.
fn place_of(order: &[Part], part: usize) -> Option<usize> {
    for (at, (own, _)) in order.iter().enumerate() {
        if *own == part {
            return Some(at);
        }
    }
    None
}

/// Puts the trees behind the others, in the order of the parts.
fn put_in_order(tree: &mut Tree, order: &[Part], trees: &[Tree]) -> Result<(), Memory> {
    'parts: for part in 0..trees.len() {
        if let Some(at) = place_of(order, part) {
            if let Some(sub) = trees.get(at) {
                tree.append(sub)?;
            }
        }
    }
    Ok(())
}

/// The split by the form of a literal that says that the form is at most 0.
fn put_split(above: &mut Tree, side: &Lit) -> Result<(), Memory> {
    match side {
        Lit::Le(lin) => above.put_split(lin),
        Lit::Eq(_) => Ok(()),
        Lit::Div(_, _) => Ok(()),
        Lit::NDiv(_, _) => Ok(()),
    }
}

/// The branch with the number, and the split by the form of the first of its sides.
fn put_branch(above: &mut Tree, number: u32, sides: &[Lit]) -> Result<(), Memory> {
    above.steps.push(Step::Branch(number))?;
    match sides.first() {
        Some(side) => put_split(above, side),
        None => Ok(()),
    }
}

impl<'a> Way<'a> {
    /// By the disjunction at the place among the node's open ones, the part that is nearest to the point first.
    pub fn by_cases(
        alloc: Global,
        at: usize,
        case: Case<'a>,
        point: &[i64],
    ) -> Result<Way<'a>, Memory> {
        let (parts, number) = case;
        let order = nearest_first(alloc, parts.as_slice(), number, point)?;
        let mut above = Tree::new(alloc);
        above.steps.push(Step::Cases(number, order.len()))?;
        Ok(Way {
            at,
            parts: parts.as_slice(),
            sides: Vec::new(alloc),
            number,
            order,
            above,
        })
    }

    /// By the two literals, the first of which says that a form is at most 0. Variables of the form that is searched
    /// are below `end`.
    pub fn by_sides(
        alloc: Global,
        sides: Vec<Lit>,
        number: u32,
        node: &Node,
        end: u32,
    ) -> Result<Way<'a>, Memory> {
        let mut above = Tree::new(alloc);
        put_branch(&mut above, number, sides.as_slice())?;
        name_terms(
            above.terms.as_mut_slice(),
            end,
            node.lits.as_slice(),
            node.reasons.as_slice(),
        );
        let order = Vec::from_array(alloc, [(0, number), (1, number)])?;
        Ok(Way {
            at: 0,
            parts: &[],
            sides,
            number,
            order,
            above,
        })
    }

    /// The node below for the part or side at the place, whose numbers begin with the first. Its numbers.
    fn put_below(
        &self,
        alloc: Global,
        node: &Node<'a>,
        part: Part,
        falsehood: &'a Lit,
        below: &mut Node<'a>,
    ) -> Result<Option<u32>, Memory> {
        let (part, first) = part;
        let sides = self.sides.as_slice();
        if part < sides.len() {
            node.put_with(alloc, &sides[part], first, below)?;
            return Ok(Some(PER_LITERAL));
        }
        let parts = self.parts;
        if part < parts.len() {
            let form = &parts[part];
            let flat = flat_of(alloc, form, falsehood, first)?;
            node.put_part(alloc, self.at, &flat, below)?;
            return Ok(Some(size(form)));
        }
        Ok(None)
    }
}

impl<'a> Frame<'a> {
    /// A node that is split.
    pub fn new(alloc: Global, node: Node<'a>, way: Way<'a>) -> Frame<'a> {
        let number = way.number;
        Frame {
            node,
            way,
            next: 0,
            range: (number, number.saturating_add(1)),
            trees: Vec::new(alloc),
            used: Vec::new(alloc),
        }
    }

    /// The number of the disjunction or of the branch.
    pub fn number(&self) -> u32 {
        self.way.number
    }

    /// Whether the tree of what was looked at doesn't use what that has alone.
    pub fn is_idle(&self, closed: &Closed) -> bool {
        !is_used(closed.used.as_slice(), self.range)
    }

    /// One more is closed. Its tree is taken out.
    pub fn add(&mut self, alloc: Global, closed: &mut Closed) -> Result<(), Memory> {
        put_others(&mut self.used, closed.used.as_slice(), self.range)?;
        let tree = std::mem::replace(&mut closed.tree, Tree::new(alloc));
        self.trees.push(tree)?;
        Ok(())
    }

    /// `below` becomes the next node below that is to be looked at. False where there is none.
    pub fn go_on(
        &mut self,
        alloc: Global,
        falsehood: &'a Lit,
        below: &mut Node<'a>,
    ) -> Result<bool, Memory> {
        let order = self.way.order.as_slice();
        if self.next >= order.len() {
            return Ok(false);
        }
        let part = order[self.next];
        let found = self
            .way
            .put_below(alloc, &self.node, part, falsehood, below)?;
        match found {
            Some(count) => {
                self.range = (part.1, part.1.saturating_add(count));
                self.next = self.next.saturating_add(1);
                Ok(true)
            }
            None => Ok(false),
        }
    }

    /// All below is closed, so what was closed last is the node.
    pub fn close(&mut self, alloc: Global, closed: &mut Closed) -> Result<(), Memory> {
        if self.way.sides.is_empty() {
            put(&mut self.used, self.way.number)?;
        }
        closed.used.clear();
        closed.used.extend_from_slice(self.used.as_slice())?;
        closed.tree = std::mem::replace(&mut self.way.above, Tree::new(alloc));
        put_in_order(
            &mut closed.tree,
            self.way.order.as_slice(),
            self.trees.as_slice(),
        )
    }
}
