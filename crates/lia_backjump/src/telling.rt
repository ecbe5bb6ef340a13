//! What the literals of a node tell.

ghost use Rattle.std.specs.Prelude.{◌≡◌, ◌<◌, ◌^◌, false, length, true};
ghost use Rattle.std.specs.List.{list_all};
ghost use Rattle.refutation_trees.specs.Split.{is_no_falsehood};
ghost use Rattle.lia_node.specs.Known.{are_known, has_short_constant};

use crate::names::{in_order, name_in_order};
use crate::nodes::Node;
use crate::numbering::PER_LITERAL;
use crate::tree::Tree;
use crate::used::DERIVED;
use base::Memory;
use lia_close::{close, close_falsehood};
use lia_divisors::close_by_parts;
use lia_guesses::point_near;
use lia_node::{Examined, are_known, examine, have_short_constants};
use lin_atoms::Lit;
use refutation_trees::Refutation;
use std::alloc::Global;

/// What a node tells.
#[derive(Drop)]
pub(crate) enum Told {
    /// A tree that closes it. Literals of the node have their numbers in it, derived ones those from `DERIVED` on.
    Closed(Tree),
    /// A point at which its literals are true.
    Point(Vec<i64>),
    /// At a vertex a variable or quotient lies between the number and the next one.
    Fraction(u32, i64),
    /// Nothing that is of use.
    Nothing,
}

/// What is told of a vertex with a fraction, where at most `parts` parts are tried.
fn at_fraction(
    alloc: Global,
    lits: &[Lit],
    reasons: &[u32],
    end: u32,
    parts: u32,
    place: (u32, i64),
) -> Result<Told, Memory>
    requires known { are_known end lits.now ≡ true }
    requires short { list_all has_short_constant lits.now ≡ true }
    requires few { end < 2 ^ 31 }
{
    let (variable, floor) = place;
    if parts == 0 {
        return Ok(Told::Fraction(variable, floor));
    }
    if let Some(point) = point_near(alloc, lits, end)? {
        return Ok(Told::Point(point));
    }
    let ordered = in_order(alloc, lits)?;
    let known = lits.len().saturating_mul(PER_LITERAL as usize);
    let found = close_by_parts(alloc, lits, ordered.as_slice(), known, end, parts)?;
    match found {
        Some(tree) => {
            let known = u32::try_from(known).unwrap_or(DERIVED);
            let mut tree = Tree::of(alloc, tree)?;
            name_in_order(&mut tree, known, end, lits, reasons);
            Ok(Told::Closed(tree))
        }
        None => Ok(Told::Fraction(variable, floor)),
    }
}

/// A tree for the literal with the number, which is false by itself.
fn by_falsehood(alloc: Global, lit: &Lit, number: u32) -> Result<Told, Memory>
    requires is_false { is_no_falsehood lit.now ≡ false }
    requires short { has_short_constant lit.now ≡ true }
{
    let tree = close_falsehood(alloc, lit, number, DERIVED as usize)?;
    Ok(Told::Closed(Tree::of(alloc, tree)?))
}

/// What is told where all is as it is asked.
fn examined(
    alloc: Global,
    lits: &[Lit],
    reasons: &[u32],
    end: u32,
    parts: u32,
) -> Result<Told, Memory>
    requires known { are_known end lits.now ≡ true }
    requires short { list_all has_short_constant lits.now ≡ true }
    requires few { end < 2 ^ 31 }
    requires each { length reasons.now ≡ length lits.now }
{
    match examine(alloc, lits, end)? {
        Examined::False(at) => by_falsehood(alloc, &lits[at], reasons[at]),
        Examined::Conflict(multipliers) => {
            let multipliers = multipliers.as_slice();
            let tree = close(alloc, lits, reasons, DERIVED as usize, end, multipliers)?;
            Ok(Told::Closed(Tree::of(alloc, tree)?))
        }
        Examined::Model(point) => Ok(Told::Point(point)),
        Examined::Fraction { variable, floor } => {
            at_fraction(alloc, lits, reasons, end, parts, (variable, floor))
        }
        Examined::Wide(_) => Ok(Told::Nothing),
    }
}

/// What the literals of the node tell. Variables of the form are below `end`.
pub(crate) fn tell(alloc: Global, node: &Node, end: u32, parts: u32) -> Result<Told, Memory> {
    let lits = node.lits.as_slice();
    let reasons = node.reasons.as_slice();
    if end >= 1 << 31 || reasons.len() != lits.len() {
        return Ok(Told::Nothing);
    }
    if !are_known(lits, end) || !have_short_constants(lits) {
        return Ok(Told::Nothing);
    }
    examined(alloc, lits, reasons, end, parts)
}
