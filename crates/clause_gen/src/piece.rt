ghost use Rattle.std.specs.Prelude.{◌≡◌, ◌++◌, map, IfOk, OnOk};
ghost use Rattle.clause_gen.specs.Generated.{ids};
ghost use Rattle.clause_gen.specs.machinery.Pieces.{node_of};

use base::{Items, Memory};
use std::alloc::Global;
use term_tree::{Node, OpKind, Sort, TermId};

/// A node of the script, with its parts by number.
#[derive(Clone, Copy)]
pub(crate) enum Piece {
    Num(i64),
    /// The variable of an assertion that has this number.
    Var(u32),
    One(OpKind, u32),
    Two(OpKind, u32, u32),
    Three(OpKind, u32, u32, u32),
    /// The predicate at two arguments.
    Applied(u32, u32),
    /// For all values of the two variables.
    ForAll(u32),
}

fn terms(alloc: Global, numbers: &[u32]) -> Result<Items<TermId>, Memory>
    ensures { IfOk result (λ terms. terms ≡ ids numbers.now) }
{
    let mut terms = Items::new(alloc);
    for number in numbers {
        terms.push(TermId(*number))?;
    }
    Ok(terms)
}

fn node_of(alloc: Global, piece: Piece) -> Result<Node, Memory>
    ensures { IfOk result (λ node. node ≡ node_of piece) }
{
    Ok(match piece {
        Piece::Num(number) => Node::Num(number),
        Piece::Var(binder) => Node::Var {
            binder,
            sort: Sort::Int,
        },
        Piece::One(op, only) => Node::Op {
            op,
            args: terms(alloc, &[only])?,
        },
        Piece::Two(op, left, right) => Node::Op {
            op,
            args: terms(alloc, &[left, right])?,
        },
        Piece::Three(op, first, second, third) => Node::Op {
            op,
            args: terms(alloc, &[first, second, third])?,
        },
        Piece::Applied(depth, number) => Node::Pred {
            pred: 0,
            args: terms(alloc, &[depth, number])?,
        },
        Piece::ForAll(body) => Node::Forall {
            first: 0,
            sorts: Items::from_slice(alloc, &[Sort::Int, Sort::Int])?,
            body: TermId(body),
        },
    })
}

/// Puts the nodes of these pieces behind the others, in order.
pub(crate) fn push_nodes(
    alloc: Global,
    nodes: &mut Vec<Node>,
    pieces: &[Piece],
) -> Result<(), Memory>
    ensures { OnOk result (nodes.new.items ≡ nodes.old.items ++ map node_of pieces.now) }
{
    for piece in pieces {
        nodes.push(node_of(alloc, *piece)?)?;
    }
    Ok(())
}
