//! A search, and what closing, splitting or filling up a node makes of it: its stack of open nodes, with
//! the tree that is written beside it.

ghost use Rattle.std.specs.Prelude.{◌≡◌, ◌+◌, ◌<◌, ◌≤◌, [], Ok, IfOk, OnOk, length, slice_get, true, false};
ghost use Rattle.std.specs.List.{list_all};
ghost use Rattle.std.specs.Option.{option_map_or};
ghost use Rattle.base.specs.Limits.{most_rows};
ghost use Rattle.lin_atoms.specs.Linear.{is_short};
ghost use Rattle.lin_atoms.specs.Truth.{lit_truth};
ghost use Rattle.int_rows.specs.Node.{end_of_quotients, system};
ghost use Rattle.refutation_trees.specs.Split.{HasSolution, HasVertexBetween, is_no_falsehood};
ghost use Rattle.lia_node.specs.Nodes.{node_table};
ghost use Rattle.simplex_core.specs.Meaning.{IsConflict};
ghost use Rattle.lia_node.specs.Tells.{IsEvidenceAt, is_of_node};
ghost use Rattle.lia_stack.specs.machinery.Opened.{left_lits};
ghost use Rattle.lia_stack.specs.machinery.Searched.{Closes, Ends, Goes, IsSearch, Named, Splits, Turns, Waits};

use crate::broken::{fewest_parts, first_disjunction, first_literal};
use crate::closing::by_literal;
use crate::names::name_all;
use crate::parts::{push_parts, push_sides, side};
use crate::waiting::Open;
use base::Memory;
use lia_close::{Step, close, numbered, tree_of};
use lia_node::are_legal;
use lin_atoms::Form;
use refutation_trees::{Evidence, Refutation};
use std::alloc::Global;

/// A search of a form, and how far it has come.
#[derive(Drop)]
pub struct Search<'a> {
    /// The form, whose variables are below `end`.
    pub form: &'a Form,
    pub end: u32,
    /// How many inner nodes are allowed (`nodes`), and how many were made (`count`).
    pub nodes: u32,
    pub count: u32,
    /// Whether no node was examined yet.
    pub is_first: bool,
    /// The nodes that aren't closed, the next at the end.
    pub stack: Vec<Open<'a>>,
    /// The tree so far.
    pub steps: Vec<Step>,
    /// The first evidence of a node that couldn't be closed.
    pub kept: Option<Evidence>,
}

/// How a search ends.
#[derive(Drop)]
pub enum End {
    /// Values of all variables and quotients of a node at which the form is true.
    Model(Vec<i64>),
    /// A tree that refutes the form.
    Refuted(Refutation),
    GivenUp(Evidence),
}

/// What one turn comes to.
#[derive(Drop)]
pub enum Turn {
    /// A node is closed, or has one literal more.
    WentOn,
    /// A node is split.
    Split,
    Over(End),
}

impl<'a> Search<'a> {
    /// The node is closed by a literal that is false by itself.
    pub fn close_by_literal(
        &mut self,
        alloc: Global,
        waiting: &Open,
        at: usize,
    ) -> Result<(), Memory>
        requires is { Waits self.old waiting.now }
        requires is_false { option_map_or is_no_falsehood (slice_get waiting.now.lits at) true ≡ false }
        ensures { OnOk result (Closes self.old self.new) }
    {
        let tree = by_literal(alloc, waiting, at)?;
        self.steps.push(Step::Closed(tree))?;
        Ok(())
    }

    /// Each literal of the node gets its reason, and each quotient its name.
    pub fn name(&mut self, waiting: &mut Open) -> Result<(), Memory>
        requires is { Waits self.old waiting.old }
        requires few { end_of_quotients self.old.end waiting.old.lits ≤ self.old.end + most_rows }
        ensures { OnOk result (Named self.old waiting.old self.new waiting.new) }
    {
        are_legal(waiting.lits.as_slice());
        name_all(waiting, &mut self.steps)?;
        Ok(())
    }

    /// The node is closed by bounds that contradict.
    pub fn close_by_bounds(
        &mut self,
        alloc: Global,
        waiting: &mut Open,
        multipliers: &[i64],
    ) -> Result<(), Memory>
        requires is { Waits self.old waiting.old }
        requires conflict { IsConflict (node_table self.old.end waiting.old.lits) multipliers.now }
        requires few { end_of_quotients self.old.end waiting.old.lits ≤ self.old.end + most_rows }
        ensures { OnOk result (Closes self.old self.new) }
    {
        self.name(waiting)?;
        let tree = close(
            alloc,
            waiting.lits.as_slice(),
            waiting.reasons.as_slice(),
            waiting.known,
            self.end,
            multipliers,
        )?;
        self.steps.push(Step::Closed(tree))?;
        Ok(())
    }

    /// The node, of which each literal has its reason, is split by a branch.
    pub fn split_sides(
        &mut self,
        alloc: Global,
        waiting: Open<'a>,
        variable: u32,
        floor: i64,
    ) -> Result<(), Memory>
        requires is { Waits self.old waiting }
        requires full { length waiting.reasons ≡ length waiting.lits }
        requires solution { HasSolution self.old.end waiting.lits }
        requires vertex { HasVertexBetween (system self.old.end waiting.lits) variable floor }
        requires room { self.old.count < self.old.nodes }
        ensures { OnOk result (Splits self.old self.new) }
    {
        let lin = side(alloc, variable, floor)?;
        self.steps.push(Step::Split(lin))?;
        push_sides(alloc, &mut self.stack, waiting, variable, floor)?;
        self.count += 1;
        Ok(())
    }

    /// The node is split by the parts of an open disjunction.
    fn split(&mut self, alloc: Global, waiting: &mut Open<'a>, which: usize) -> Result<(), Memory>
        requires is { Waits self.old waiting.old }
        requires solution { HasSolution self.old.end waiting.old.lits }
        requires there { which < length waiting.old.cases }
        requires few { end_of_quotients self.old.end waiting.old.lits ≤ self.old.end + most_rows }
        requires room { self.old.count < self.old.nodes }
        ensures { OnOk result (Splits self.old self.new) }
    {
        self.name(waiting)?;
        let number = numbered(which)?;
        let count = push_parts(alloc, &mut self.stack, waiting, which)?;
        self.steps.push(Step::Cases {
            which: number,
            count,
        })?;
        self.count += 1;
        Ok(())
    }

    /// A literal of the node that was left out joins.
    fn take_in(&mut self, alloc: Global, waiting: Open<'a>, at: usize) -> Result<(), Memory>
        requires is { Waits self.old waiting }
        requires there { at < length waiting.left_out }
        ensures { OnOk result (Goes self.old waiting.entry self.new) }
    {
        let mut waiting = waiting;
        waiting.take_in(alloc, at)?;
        self.stack.push(waiting)?;
        Ok(())
    }

    /// All literals are true at a point, also those that are left out. Of the disjunctions that are false
    /// there one with the fewest parts is split; without one the form is true.
    fn meet_cases(
        &mut self,
        alloc: Global,
        waiting: Open<'a>,
        point: Vec<i64>,
    ) -> Result<Turn, Memory>
        requires is { Waits self.old waiting }
        requires solution { HasSolution self.old.end waiting.lits }
        requires each { length point.items ≡ end_of_quotients self.old.end waiting.lits }
        requires short { list_all is_short point.items ≡ true }
        requires holds { list_all (lit_truth point.items) waiting.lits ≡ true }
        requires left { list_all (lit_truth point.items) (left_lits waiting.left_out) ≡ true }
        requires few { end_of_quotients self.old.end waiting.lits ≤ self.old.end + most_rows }
        requires room { self.old.count < self.old.nodes }
        ensures { Turns self.old waiting.entry self.new result }
    {
        match first_disjunction(waiting.cases.as_slice(), point.as_slice()) {
            Some(first) => {
                let which = fewest_parts(waiting.cases.as_slice(), point.as_slice(), first);
                let mut waiting = waiting;
                self.split(alloc, &mut waiting, which)?;
                Ok(Turn::Split)
            }
            None => Ok(Turn::Over(End::Model(point))),
        }
    }

    /// The literals of the node are true at a point. The first literal that is left out and false there
    /// joins, if there is one.
    pub fn meet(
        &mut self,
        alloc: Global,
        waiting: Open<'a>,
        point: Vec<i64>,
    ) -> Result<Turn, Memory>
        requires is { Waits self.old waiting }
        requires solution { HasSolution self.old.end waiting.lits }
        requires each { length point.items ≡ end_of_quotients self.old.end waiting.lits }
        requires short { list_all is_short point.items ≡ true }
        requires holds { list_all (lit_truth point.items) waiting.lits ≡ true }
        requires few { end_of_quotients self.old.end waiting.lits ≤ self.old.end + most_rows }
        requires room { self.old.count < self.old.nodes }
        ensures { Turns self.old waiting.entry self.new result }
    {
        match first_literal(waiting.left_out.as_slice(), point.as_slice()) {
            Some(at) => {
                self.take_in(alloc, waiting, at)?;
                Ok(Turn::WentOn)
            }
            None => self.meet_cases(alloc, waiting, point),
        }
    }

    /// A number of the node has no room. At the first node the form is given up at once; at a later one
    /// the evidence is kept, and the search goes on elsewhere.
    pub fn give_up(&mut self, waiting: &Open, evidence: Evidence, is_first: bool) -> Turn
        requires is { Waits self.old waiting.now }
        requires evidence { IsEvidenceAt self.old.end waiting.now.lits evidence }
        requires of_node { is_of_node evidence ≡ true }
        ensures { Turns self.old waiting.now self.new (Ok result) }
    {
        if is_first {
            return Turn::Over(End::GivenUp(evidence));
        }
        if self.kept.is_none() {
            self.kept = Some(evidence);
            return Turn::WentOn;
        }
        Turn::WentOn
    }

    /// No node is left: the form is refuted, or a node couldn't be closed.
    pub fn finished(self, alloc: Global) -> Result<End, Memory>
        requires is { IsSearch self }
        requires none { self.stack.items ≡ [] }
        ensures { IfOk result (Ends self.entry.form.now self.entry.nodes) }
    {
        let Search { steps, kept, .. } = self;
        match kept {
            Some(evidence) => Ok(End::GivenUp(evidence)),
            None => {
                let tree = tree_of(alloc, steps)?;
                Ok(End::Refuted(tree))
            }
        }
    }
}
