//! The loop of the search: a stack of nodes, depth first, with the tree that is written beside it.

ghost use Rattle.std.specs.Prelude.{◌≡◌, ◌+◌, ◌<◌, ◌≤◌, IfOk};
ghost use Rattle.base.specs.Limits.{most_rows};
ghost use Rattle.int_rows.specs.Node.{end_of_quotients, system};
ghost use Rattle.refutation_trees.specs.Split.{HasSolution, HasVertexBetween};
ghost use Rattle.lia_stack.specs.machinery.Searched.{Ends, IsSearch, StopsAt, Turns, Waits};

use base::Memory;
use lia_close::Step;
use lia_divisors::close_by_parts;
use lia_guesses::point_near;
use lia_node::{Examined, examine};
use lia_stack::{End, Open, Search, Turn};
use refutation_trees::Evidence;
use std::alloc::Global;

/// A bound on how many parts a node is split into.
const MOST_PARTS: u32 = 400;

/// Below this number of inner nodes no tree of parts is looked for.
const FEW_NODES: u32 = 4;

/// How many parts a node with a fraction is split into at most, after `count` inner nodes. Each time
/// that the inner nodes have doubled, a tree of parts is looked for; in between the node is looked at
/// whole, at fewer nodes the more there are.
fn parts_at(count: u32) -> u32 {
    if count >= FEW_NODES && count.is_power_of_two() {
        return MOST_PARTS;
    }
    match count.checked_rem((count / 16).saturating_add(1)) {
        Some(0) => 1,
        _ => 0,
    }
}

/// The node is closed by common divisors of rows and by parts, where such a tree is found, and
/// otherwise split by a branch.
fn branch<'a>(
    alloc: Global,
    search: &mut Search<'a>,
    waiting: Open<'a>,
    variable: u32,
    floor: i64,
) -> Result<Turn, Memory>
    requires is { Waits search.old waiting }
    requires solution { HasSolution search.old.end waiting.lits }
    requires vertex { HasVertexBetween (system search.old.end waiting.lits) variable floor }
    requires few { end_of_quotients search.old.end waiting.lits ≤ search.old.end + most_rows }
    requires room { search.old.count < search.old.nodes }
    ensures { Turns search.old waiting.entry search.new result }
{
    let mut waiting = waiting;
    search.name(&mut waiting)?;
    let found = close_by_parts(
        alloc,
        waiting.lits.as_slice(),
        waiting.reasons.as_slice(),
        waiting.known,
        search.end,
        parts_at(search.count),
    )?;
    if let Some(tree) = found {
        search.steps.push(Step::Closed(tree))?;
        return Ok(Turn::WentOn);
    }
    search.split_sides(alloc, waiting, variable, floor)?;
    Ok(Turn::Split)
}

/// At a vertex with a fraction the node is met at a point near it, where one is looked for and found,
/// and otherwise closed or split.
fn near<'a>(
    alloc: Global,
    search: &mut Search<'a>,
    waiting: Open<'a>,
    variable: u32,
    floor: i64,
) -> Result<Turn, Memory>
    requires is { Waits search.old waiting }
    requires solution { HasSolution search.old.end waiting.lits }
    requires vertex { HasVertexBetween (system search.old.end waiting.lits) variable floor }
    requires few { end_of_quotients search.old.end waiting.lits ≤ search.old.end + most_rows }
    requires room { search.old.count < search.old.nodes }
    ensures { Turns search.old waiting.entry search.new result }
{
    if parts_at(search.count) == 0 {
        return branch(alloc, search, waiting, variable, floor);
    }
    let found = point_near(alloc, waiting.lits.as_slice(), search.end)?;
    match found {
        Some(point) => search.meet(alloc, waiting, point),
        None => branch(alloc, search, waiting, variable, floor),
    }
}

/// One node is examined, and closed, split or left with one literal more.
fn turn<'a>(alloc: Global, search: &mut Search<'a>, waiting: Open<'a>) -> Result<Turn, Memory>
    requires is { Waits search.old waiting }
    requires room { search.old.count < search.old.nodes }
    ensures { Turns search.old waiting.entry search.new result }
{
    let is_first = search.is_first;
    search.is_first = false;
    let examined = examine(alloc, waiting.lits.as_slice(), search.end)?;
    match examined {
        Examined::False(at) => {
            search.close_by_literal(alloc, &waiting, at)?;
            Ok(Turn::WentOn)
        }
        Examined::Conflict(multipliers) => {
            let mut waiting = waiting;
            search.close_by_bounds(alloc, &mut waiting, multipliers.as_slice())?;
            Ok(Turn::WentOn)
        }
        Examined::Model(point) => search.meet(alloc, waiting, point),
        Examined::Fraction { variable, floor } => near(alloc, search, waiting, variable, floor),
        Examined::Wide(evidence) => Ok(search.give_up(&waiting, evidence, is_first)),
    }
}

/// Nodes are closed until one is split, none is left, or the search is over.
fn until_split(alloc: Global, search: &mut Search) -> Result<Turn, Memory>
    requires is { IsSearch search.old }
    requires room { search.old.count < search.old.nodes }
    ensures { StopsAt search.old search.new result }
{
    'close: while let Some(waiting) = search.stack.pop() {
        let next = turn(alloc, search, waiting)?;
        match next {
            Turn::WentOn => {}
            Turn::Split => return Ok(Turn::Split),
            Turn::Over(end) => return Ok(Turn::Over(end)),
        }
    }
    Ok(Turn::WentOn)
}

/// The search goes on until it is over, or has made as many inner nodes as are allowed. The evidence
/// then has the number that was made, which is exactly the one that is allowed.
pub(crate) fn run(alloc: Global, search: Search) -> Result<End, Memory>
    requires is { IsSearch search }
    requires none { search.count ≡ 0 }
    requires some { 0 < search.nodes }
    ensures { IfOk result (Ends search.entry.form.now search.entry.nodes) }
{
    let mut search = search;
    'splits: while search.count < search.nodes {
        let turn = until_split(alloc, &mut search)?;
        match turn {
            Turn::Split => {}
            Turn::Over(end) => return Ok(end),
            Turn::WentOn => {
                let end = search.finished(alloc)?;
                return Ok(end);
            }
        }
    }
    Ok(End::GivenUp(Evidence::Nodes {
        nodes: search.count,
    }))
}
