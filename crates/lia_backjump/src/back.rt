//! The search: depth first, over a stack of the nodes that are split. Where a node is closed by a tree that
//! doesn't use what the node has alone, the tree closes the node above it, too, and what else is below that one
//! isn't looked at. Small trees are kept, and close each later node at which what they use is there.

use crate::frames::{BRANCHES, Closed, Frame, Way};
use crate::nodes::Node;
use crate::nogoods::{Nogoods, Seen};
use crate::numbering::{Case, Numbered, PER_LITERAL, flat_of, size};
use crate::ranges::Ranges;
use crate::telling::{Told, tell};
use crate::tree::Tree;
use crate::writing::written;
use base::Memory;
use lia_node::{above, at_most};
use lin_atoms::{Form, Lin, Lit, holds};
use refutation_trees::Refutation;
use std::alloc::Global;

/// So many splits are above one another at most.
const MOST_DEEP: usize = 400;

/// So many nodes are looked at for each that is split, at most.
const TURNS: u32 = 16;

/// A bound on how many parts a node with a fraction is split into.
const MOST_PARTS: u32 = 400;

/// A form that takes more numbers isn't searched.
const MOST_NUMBERS: u32 = 1 << 20;

/// How a search ends.
#[derive(Drop)]
pub enum End {
    /// A point at which the form may be true.
    Point(Vec<i64>),
    /// A tree that may refute the form.
    Refuted(Refutation),
    /// Nothing is found.
    Nothing,
}

/// What comes next.
#[derive(Drop)]
enum Next {
    /// The search's node is looked at.
    Node,
    /// The literals of the node are true at a point, and so may the form be.
    Point(Vec<i64>),
    /// What was closed last closes the first node.
    Refuted,
    /// The search is over.
    Nothing,
}

/// A search, and how far it has come.
#[derive(Drop)]
struct Search<'a> {
    falsehood: &'a Lit,
    /// Variables of the form are below it.
    end: u32,
    /// The node that is looked at.
    node: Node<'a>,
    /// What was closed last.
    closed: Closed,
    /// The nodes that are split above it.
    frames: Vec<Frame<'a>>,
    /// How many nodes were split.
    count: u32,
    /// For each disjunction, by its number, how often it was used.
    weights: Vec<u32>,
    nogoods: Nogoods,
}

/// How many parts a node with a fraction is split into at most, after `count` splits.
fn parts_after(count: u32) -> u32 {
    if count.is_power_of_two() {
        return MOST_PARTS;
    }
    match count.checked_rem((count / 16).saturating_add(1)) {
        Some(0) => 1,
        _ => 0,
    }
}

/// The first of the literals that is false at the point.
fn first_broken(left_out: &[Numbered], point: &[i64]) -> Option<usize> {
    for (at, (lit, _)) in left_out.iter().enumerate() {
        if !lit.holds(point) {
            return Some(at);
        }
    }
    None
}

/// Whether one of the parts is true at the point.
fn any_holds(parts: &[Form], point: &[i64]) -> bool {
    for part in parts {
        if holds(part, point) {
            return true;
        }
    }
    false
}

/// Of the disjunctions that are false at the point one of which the fewest parts are left; of these one that was
/// used most often.
fn fewest_left(
    cases: &[Case],
    point: &[i64],
    ranges: &Ranges,
    seen: &Seen,
    weights: &[u32],
) -> Option<usize> {
    let mut least = (usize::MAX, 0);
    let mut found = None;
    for (at, case) in cases.iter().enumerate() {
        let (parts, number) = case;
        if !any_holds(parts.as_slice(), point) {
            let own = (ranges.left(case, seen), weight(weights, *number));
            if own.0 < least.0 || own.0 == least.0 && own.1 > least.1 || found.is_none() {
                least = own;
                found = Some(at);
            }
        }
    }
    found
}

/// How often the disjunction was used.
fn weight(weights: &[u32], number: u32) -> u32 {
    match weights.get(number as usize) {
        Some(weight) => *weight,
        None => 0,
    }
}

/// The disjunction is used once more.
fn count_use(weights: &mut Vec<u32>, number: u32) {
    if let Some(weight) = weights.get_mut(number as usize) {
        *weight = weight.saturating_add(1);
    }
}

/// So many disjunctions or literals that weren't used yet.
fn zeros(alloc: Global, count: u32) -> Result<Vec<u32>, Memory> {
    let mut made = Vec::with_capacity(alloc, count as usize)?;
    'zeros: for _ in 0..count {
        made.push(0)?;
    }
    Ok(made)
}

impl<'a> Search<'a> {
    /// Where what was closed last leads from the last frame: whether to a node beside it. Otherwise the frame goes,
    /// and what was closed last closes the node above it.
    fn up(&mut self, alloc: Global) -> Result<bool, Memory> {
        let top = self.frames.len().saturating_sub(1);
        let Some(frame) = self.frames.get_mut(top) else {
            return Ok(false);
        };
        if !frame.is_idle(&self.closed) {
            count_use(&mut self.weights, frame.number());
            frame.add(alloc, &mut self.closed)?;
            if frame.go_on(alloc, self.falsehood, &mut self.node)? {
                return Ok(true);
            }
            frame.close(alloc, &mut self.closed)?;
            self.nogoods.keep(alloc, &self.closed)?;
        }
        self.frames.truncate(top);
        Ok(false)
    }

    /// The node is closed by what was closed last.
    fn close(&mut self, alloc: Global) -> Result<Next, Memory> {
        'up: for _ in 0..self.frames.len() {
            if self.up(alloc)? {
                return Ok(Next::Node);
            }
        }
        Ok(Next::Refuted)
    }

    /// The node is closed by the tree.
    fn close_by(&mut self, alloc: Global, tree: Tree) -> Result<Next, Memory> {
        self.closed.put(tree)?;
        self.nogoods.keep(alloc, &self.closed)?;
        self.close(alloc)
    }

    /// The node is split.
    fn split(&mut self, alloc: Global, way: Way<'a>) -> Result<Next, Memory> {
        let top = self.frames.len();
        if top >= MOST_DEEP {
            return Ok(Next::Nothing);
        }
        let node = std::mem::replace(&mut self.node, Node::new(alloc));
        self.frames.push(Frame::new(alloc, node, way))?;
        let Some(frame) = self.frames.get_mut(top) else {
            return Ok(Next::Nothing);
        };
        if frame.go_on(alloc, self.falsehood, &mut self.node)? {
            self.count = self.count.saturating_add(1);
            return Ok(Next::Node);
        }
        frame.close(alloc, &mut self.closed)?;
        self.frames.truncate(top);
        self.close(alloc)
    }

    /// The literals of the node are true at the point.
    fn meet(&mut self, alloc: Global, point: Vec<i64>) -> Result<Next, Memory> {
        if let Some(at) = first_broken(self.node.left_out.as_slice(), point.as_slice()) {
            self.node.take_in(alloc, at)?;
            return Ok(Next::Node);
        }
        let ranges = Ranges::new(alloc, self.node.lits.as_slice(), self.end)?;
        let found = fewest_left(
            self.node.cases.as_slice(),
            point.as_slice(),
            &ranges,
            self.nogoods.seen(),
            self.weights.as_slice(),
        );
        let Some(at) = found else {
            return Ok(Next::Point(point));
        };
        let Some(case) = self.node.cases.get(at) else {
            return Ok(Next::Nothing);
        };
        let way = Way::by_cases(alloc, at, *case, point.as_slice())?;
        self.split(alloc, way)
    }

    /// A variable or quotient lies between two numbers at a vertex of the node.
    fn branch(&mut self, alloc: Global, variable: u32, floor: i64) -> Result<Next, Memory> {
        let mut sides = Vec::new(alloc);
        sides.push(at_most(alloc, variable, floor)?)?;
        sides.push(above(alloc, variable, floor)?)?;
        let deep = u32::try_from(self.frames.len()).unwrap_or(0);
        let number = BRANCHES.saturating_add(deep.saturating_mul(PER_LITERAL));
        let way = Way::by_sides(alloc, sides, number, &self.node, self.end)?;
        self.split(alloc, way)
    }

    /// The node is looked at.
    fn turn(&mut self, alloc: Global) -> Result<Next, Memory> {
        if self.nogoods.look(alloc, &self.node, &mut self.closed)? {
            return self.close(alloc);
        }
        match tell(alloc, &self.node, self.end, parts_after(self.count))? {
            Told::Closed(tree) => self.close_by(alloc, tree),
            Told::Point(point) => self.meet(alloc, point),
            Told::Fraction(variable, floor) => self.branch(alloc, variable, floor),
            Told::Nothing => Ok(Next::Nothing),
        }
    }

    /// The search goes on from the node until it is over, or has split as many nodes as are allowed.
    fn run(&mut self, alloc: Global, nodes: u32) -> Result<Next, Memory> {
        'turns: for _ in 0..nodes.saturating_mul(TURNS) {
            if self.count >= nodes {
                return Ok(Next::Nothing);
            }
            match self.turn(alloc)? {
                Next::Node => {}
                Next::Point(point) => return Ok(Next::Point(point)),
                Next::Refuted => return Ok(Next::Refuted),
                Next::Nothing => return Ok(Next::Nothing),
            }
        }
        Ok(Next::Nothing)
    }
}

/// How a search of the form ends, whose falsehood is lent.
fn searched(
    alloc: Global,
    form: &Form,
    falsehood: &Lit,
    taken: usize,
    end: u32,
    nodes: u32,
) -> Result<End, Memory> {
    let mut search = Search {
        falsehood,
        end,
        node: Node::new(alloc),
        closed: Closed::new(alloc),
        frames: Vec::new(alloc),
        count: 0,
        weights: zeros(alloc, size(form))?,
        nogoods: Nogoods::new(alloc, size(form))?,
    };
    let flat = flat_of(alloc, form, falsehood, 0)?;
    search.node.begin(alloc, &flat, taken)?;
    match search.run(alloc, nodes)? {
        Next::Point(point) => Ok(End::Point(point)),
        Next::Refuted => {
            let tree = written(alloc, form, falsehood, &mut search.closed, end)?;
            Ok(End::Refuted(tree))
        }
        Next::Node => Ok(End::Nothing),
        Next::Nothing => Ok(End::Nothing),
    }
}

/// Searches for a point of the form or a refutation, with at most `nodes` splits. Variables of the form are below
/// `end`, and the first `taken` literals of the flattened form join at once. What is found is a guess. A form isn't
/// searched where three for each literal and one for each disjunction are more than 2^20.
pub fn search_back(
    alloc: Global,
    form: &Form,
    taken: usize,
    end: u32,
    nodes: u32,
) -> Result<End, Memory> {
    if size(form) > MOST_NUMBERS {
        return Ok(End::Nothing);
    }
    let falsehood = Lit::Le(Lin::of_constant(alloc, 1));
    searched(alloc, form, &falsehood, taken, end, nodes)
}
