//! A node whose bounds contradict is closed by a leaf.

ghost use Rattle.std.specs.Prelude.{◌≡◌, ◌<◌, ◌^◌, length, IfOk, true};
ghost use Rattle.std.specs.List.{list_all};
ghost use Rattle.int_rows.specs.Node.{end_of_quotients};
ghost use Rattle.lia_node.specs.Known.{are_known, has_short_constant};
ghost use Rattle.lia_node.specs.Nodes.{node_table};
ghost use Rattle.simplex_core.specs.Meaning.{IsConflict};
ghost use Rattle.lia_close.specs.Placed.{IsSoundAt, Place};
ghost use Rattle.lia_close.specs.Said.{AreReasons};
ghost use Rattle.lia_close.specs.machinery.Closing.{AreOf, all_leaf};

use crate::leaf::Leaf;
use crate::side::Taken;
use crate::taking::{all_ready, all_taken, are_short, variables};
use base::Memory;
use lia_node::are_legal;
use lin_atoms::Lit;
use refutation_trees::Refutation;
use std::alloc::Global;

/// The leaf of what was taken, with the roundings above it.
fn leaf_of(
    alloc: Global,
    lits: &[Lit],
    reasons: &[u32],
    known: usize,
    taken: &[Taken],
) -> Result<Leaf, Memory>
    requires each { length reasons.now ≡ length lits.now }
    requires there { AreOf lits.now taken.now }
    ensures { IfOk result (λ leaf. (leaf.roundings.items, leaf.multipliers.items) ≡ all_leaf lits.now reasons.now known taken.now) }
{
    let mut leaf = Leaf {
        roundings: Vec::new(alloc),
        multipliers: Vec::new(alloc),
    };
    for one in taken {
        let at = one.literal;
        leaf.take(&lits[at], one.side, reasons[at], known, one.times)?;
    }
    Ok(leaf)
}

/// A tree for a node the bounds of whose tableau contradict by these multipliers: roundings of single
/// literals, and a leaf that adds up what they give. The tree stands where `known` literals are
/// known; `reasons` has for each literal of the node the number of the first of those that give its
/// bounds: its own one, or that of what is known of its quotient. The node's quotients are numbered
/// on from `end`, and each has its name already.
pub fn close(
    alloc: Global,
    lits: &[Lit],
    reasons: &[u32],
    known: usize,
    end: u32,
    multipliers: &[i64],
) -> Result<Refutation, Memory>
    requires known { are_known end lits.now ≡ true }
    requires short { list_all has_short_constant lits.now ≡ true }
    requires few { end_of_quotients end lits.now < 2 ^ 32 }
    requires each { length reasons.now ≡ length lits.now }
    requires conflict { IsConflict (node_table end lits.now) multipliers.now }
    ensures { IfOk result (λ tree. (place : Place) → length place.known ≡ known → AreReasons place.known end lits.now reasons.now → IsSoundAt end place tree) }
{
    are_legal(lits);
    let readied = all_ready(alloc, lits, end)?;
    let variables = variables(lits, end);
    are_short(multipliers);
    let taken = all_taken(alloc, readied.as_slice(), multipliers, variables)?;
    let leaf = leaf_of(alloc, lits, reasons, known, taken.as_slice())?;
    let tree = leaf.tree(alloc)?;
    Ok(tree)
}
