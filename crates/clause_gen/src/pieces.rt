ghost use Rattle.std.specs.Prelude.{◌≡◌, ◌++◌, OnOk};
ghost use Rattle.clause_gen.specs.Generated.{leaves, children, parent, query};

use crate::piece::Piece::{Applied, ForAll, Num, One, Three, Two, Var};
use crate::piece::push_nodes;
use base::Memory;
use std::alloc::Global;
use term_tree::{Node, OpKind};

/// Every number from `low` to `high` is a node of depth 0.
pub(crate) fn leaves(
    alloc: Global,
    nodes: &mut Vec<Node>,
    low: i64,
    high: i64,
) -> Result<(), Memory>
    ensures { OnOk result (nodes.new.items ≡ nodes.old.items ++ leaves low high) }
{
    let pieces = [
        Var(0),
        Num(0),
        Two(OpKind::Eq, 0, 1),
        Num(low),
        Var(1),
        Two(OpKind::Le, 3, 4),
        Var(1),
        Num(high),
        Two(OpKind::Lt, 6, 7),
        Three(OpKind::And, 2, 5, 8),
        Var(0),
        Var(1),
        Applied(10, 11),
        Two(OpKind::Implies, 9, 12),
        ForAll(13),
    ];
    push_nodes(alloc, nodes, &pieces)
}

/// The two children of a node.
pub(crate) fn children(alloc: Global, nodes: &mut Vec<Node>) -> Result<(), Memory>
    ensures { OnOk result (nodes.new.items ≡ nodes.old.items ++ children) }
{
    let pieces = [
        Var(0),
        Num(2),
        Var(1),
        Two(OpKind::Mul, 16, 17),
        Applied(15, 18),
        Var(0),
        Num(2),
        Var(1),
        Two(OpKind::Mul, 21, 22),
        Num(1),
        Two(OpKind::Add, 23, 24),
        Applied(20, 25),
    ];
    push_nodes(alloc, nodes, &pieces)
}

/// A node stands over its two children.
pub(crate) fn parent(alloc: Global, nodes: &mut Vec<Node>) -> Result<(), Memory>
    ensures { OnOk result (nodes.new.items ≡ nodes.old.items ++ parent) }
{
    let pieces = [
        Two(OpKind::And, 19, 26),
        Var(0),
        Num(1),
        Two(OpKind::Add, 28, 29),
        Var(1),
        Applied(30, 31),
        Two(OpKind::Implies, 27, 32),
        ForAll(33),
    ];
    push_nodes(alloc, nodes, &pieces)
}

/// The root is no node.
pub(crate) fn query(
    alloc: Global,
    nodes: &mut Vec<Node>,
    depth: i64,
    start: i64,
) -> Result<(), Memory>
    ensures { OnOk result (nodes.new.items ≡ nodes.old.items ++ query depth start) }
{
    let pieces = [
        Num(depth),
        Num(start),
        Applied(35, 36),
        One(OpKind::Not, 37),
    ];
    push_nodes(alloc, nodes, &pieces)
}
