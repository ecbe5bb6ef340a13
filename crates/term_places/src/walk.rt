//! The walk through a text.

ghost use Rattle.std.specs.Prelude.{◌≡◌, ◌<◌, ◌++◌, ◌∷◌, [], length, map, IsTrue, IfOk, OnOk, if◌then◌else◌};
ghost use Rattle.std.specs.List.{list_all};
ghost use Rattle.term_tree.specs.Arena.{has_parts_below, is_below};
ghost use Rattle.linear_terms.specs.Text.{chosen, inner_spots, needs_one, operands, places, spot_as};
ghost use Rattle.term_tables.specs.machinery.Table.{sort_in};
ghost use Rattle.term_places.specs.machinery.Placed.{all_placed, placed};

use crate::needs::needs_one;
use crate::parts::{operands, spot_as};
use base::Memory;
use linear_terms::{Spot, Standing};
use std::alloc::Global;
use term_tables::SortTable;
use term_tree::{Node, OpKind, TermId, Terms};

fn put_if(test: bool, id: u32, out: &mut Vec<u32>) -> Result<(), Memory>
    ensures { OnOk result (out.new.items ≡ out.old.items ++ (if test then id ∷ [] else [])) }
{
    if test {
        out.push(id)?;
    }
    Ok(())
}

/// Puts the terms of the text of this one that have an auxiliary variable behind others.
#[cycle(place)]
fn put_places(
    terms: &Terms,
    sorts: &SortTable,
    spot: Spot,
    out: &mut Vec<u32>,
) -> Result<(), Memory>
    requires { spot.id < length terms.now.nodes }
    ensures { OnOk result (out.new.items ≡ out.old.items ++ placed (sort_in sorts.now) terms.now.nodes spot) }
{
    let id = TermId(spot.id);
    let node = terms.node(id);
    put_if(needs_one(spot.standing, sorts.sort(id), node), spot.id, out)?;
    put_parts(terms, sorts, spot.id, node, out)?;
    Ok(())
}

/// Puts the terms of the text of a node's parts that have an auxiliary variable behind others, part by
/// part. The node stands at that number.
#[cycle(place)]
fn put_parts(
    terms: &Terms,
    sorts: &SortTable,
    above: u32,
    node: &Node,
    out: &mut Vec<u32>,
) -> Result<(), Memory>
    requires there { above < length terms.now.nodes }
    requires below { IsTrue (has_parts_below above node.now) }
    ensures { OnOk result (out.new.items ≡ out.old.items ++ all_placed (sort_in sorts.now) terms.now.nodes (inner_spots (sort_in sorts.now) node.now)) }
{
    match node {
        Node::Num(_) => Ok(()),
        Node::True => Ok(()),
        Node::False => Ok(()),
        Node::Var { .. } => Ok(()),
        Node::LetVar { .. } => Ok(()),
        Node::Pred { args, .. } => {
            put_all(
                terms,
                sorts,
                above,
                Standing::Argument,
                args.as_slice(),
                out,
            )
        }
        Node::Op { op, args } => put_operands(terms, sorts, above, *op, args.as_slice(), out),
        Node::Divisible { arg, .. } => put_one(terms, sorts, above, *arg, out),
        Node::Let { bound, body } => {
            put_all(terms, sorts, above, Standing::Bit, bound.as_slice(), out)?;
            put_one(terms, sorts, above, *body, out)?;
            Ok(())
        }
        Node::Forall { body, .. } => put_one(terms, sorts, above, *body, out),
        Node::Exists { body, .. } => put_one(terms, sorts, above, *body, out),
    }
}

/// Puts the terms of the text of an operation's arguments that have an auxiliary variable behind
/// others, in order.
#[cycle(place)]
fn put_operands(
    terms: &Terms,
    sorts: &SortTable,
    above: u32,
    op: OpKind,
    args: &[TermId],
    out: &mut Vec<u32>,
) -> Result<(), Memory>
    requires there { above < length terms.now.nodes }
    requires below { IsTrue (list_all (is_below above) args.now) }
    ensures { OnOk result (out.new.items ≡ out.old.items ++ all_placed (sort_in sorts.now) terms.now.nodes (operands (sort_in sorts.now) op args.now)) }
{
    match operands(sorts, op, args) {
        Some(standing) => put_all(terms, sorts, above, standing, args, out),
        None => put_choice(terms, sorts, above, args, out),
    }
}

/// Puts the terms of the text of a choice's condition and branches that have an auxiliary variable
/// behind others, in order.
#[cycle(place)]
fn put_choice(
    terms: &Terms,
    sorts: &SortTable,
    above: u32,
    args: &[TermId],
    out: &mut Vec<u32>,
) -> Result<(), Memory>
    requires there { above < length terms.now.nodes }
    requires below { IsTrue (list_all (is_below above) args.now) }
    ensures { OnOk result (out.new.items ≡ out.old.items ++ all_placed (sort_in sorts.now) terms.now.nodes (chosen args.now)) }
{
    match args {
        [] => Ok(()),
        [condition, branches @ ..] => {
            put_places(terms, sorts, spot_as(Standing::Bit, *condition), out)?;
            put_all(terms, sorts, above, Standing::Plain, branches, out)
        }
    }
}

/// Puts the terms of the text of a part that stands for itself that have an auxiliary variable behind
/// others.
#[cycle(place)]
fn put_one(
    terms: &Terms,
    sorts: &SortTable,
    above: u32,
    id: TermId,
    out: &mut Vec<u32>,
) -> Result<(), Memory>
    requires there { above < length terms.now.nodes }
    requires below { id.0 < above }
    ensures { OnOk result (out.new.items ≡ out.old.items ++ all_placed (sort_in sorts.now) terms.now.nodes (spot_as Standing.Plain id ∷ [])) }
{
    put_places(terms, sorts, spot_as(Standing::Plain, id), out)
}

/// Puts the terms of the text of some parts that stand as the same that have an auxiliary variable
/// behind others, in order.
#[cycle(place)]
fn put_all(
    terms: &Terms,
    sorts: &SortTable,
    above: u32,
    standing: Standing,
    ids: &[TermId],
    out: &mut Vec<u32>,
) -> Result<(), Memory>
    requires there { above < length terms.now.nodes }
    requires below { IsTrue (list_all (is_below above) ids.now) }
    ensures { OnOk result (out.new.items ≡ out.old.items ++ all_placed (sort_in sorts.now) terms.now.nodes (map (spot_as standing) ids.now)) }
{
    for id in ids {
        put_places(terms, sorts, spot_as(standing, *id), out)?;
    }
    Ok(())
}

/// The terms of this one's text that have an auxiliary variable, in the order of the text, a term
/// before its parts.
pub fn places(
    alloc: Global,
    terms: &Terms,
    sorts: &SortTable,
    top: TermId,
) -> Result<Vec<u32>, Memory>
    requires { top.0 < length terms.now.nodes }
    ensures { IfOk result (λ ids. ids.items ≡ places (sort_in sorts.now) terms.now.nodes top.0) }
{
    let mut ids = Vec::new(alloc);
    let spot = Spot {
        id: top.0,
        standing: Standing::Plain,
    };
    put_places(terms, sorts, spot, &mut ids)?;
    Ok(ids)
}
