//! A guessed tree, from its nodes in order.

ghost use Rattle.std.specs.Prelude.{◌≡◌, IfOk, IfSome, OnOk, true};
ghost use Rattle.std.specs.List.{list_all};
ghost use Rattle.refutation_trees.specs.declared.tree.Refutation.TheViews.{Split};
ghost use Rattle.lia_divisors.specs.machinery.Plain.{is_plain};

use crate::chain::chain_tree;
use base::{Boxed, Memory};
use lia_guesses::{Chain, Move};
use lin_atoms::Lin;
use refutation_trees::Refutation;
use std::alloc::Global;

/// The two sides of a split.
fn split(alloc: Global, lin: Lin, low: Refutation, high: Refutation) -> Result<Refutation, Memory>
    ensures { IfOk result (λ made. made ≡ Split lin low high) }
{
    Ok(Refutation::Split {
        lin,
        below: Boxed::new(alloc, low)?,
        above: Boxed::new(alloc, high)?,
    })
}

/// The last of the trees.
fn taken(trees: &mut Vec<Refutation>) -> Option<Refutation>
    requires { list_all is_plain trees.old.items ≡ true }
    ensures rest { list_all is_plain trees.new.items ≡ true }
    ensures plain { IfSome result (λ tree. is_plain tree ≡ true) }
{
    match trees.pop() {
        Some(tree) => Some(tree),
        None => None,
    }
}

/// A tree joins the others.
fn put_tree(trees: &mut Vec<Refutation>, tree: Refutation) -> Result<(), Memory>
    requires all { list_all is_plain trees.old.items ≡ true }
    requires plain { is_plain tree ≡ true }
    ensures { OnOk result (list_all is_plain trees.new.items ≡ true) }
{
    trees.push(tree)?;
    Ok(())
}

/// A split stands above a tree and the last of the others.
fn put_over(
    alloc: Global,
    trees: &mut Vec<Refutation>,
    lin: Lin,
    low: Refutation,
) -> Result<(), Memory>
    requires all { list_all is_plain trees.old.items ≡ true }
    requires plain { is_plain low ≡ true }
    ensures { OnOk result (list_all is_plain trees.new.items ≡ true) }
{
    match taken(trees) {
        Some(high) => {
            let made = split(alloc, lin, low, high)?;
            put_tree(trees, made)?;
            Ok(())
        }
        None => Ok(()),
    }
}

/// A split stands above the last two trees.
fn put_split(alloc: Global, trees: &mut Vec<Refutation>, lin: Lin) -> Result<(), Memory>
    requires { list_all is_plain trees.old.items ≡ true }
    ensures { OnOk result (list_all is_plain trees.new.items ≡ true) }
{
    match taken(trees) {
        Some(low) => {
            put_over(alloc, trees, lin, low)?;
            Ok(())
        }
        None => Ok(()),
    }
}

/// A chain's tree joins the others.
fn put_chain(alloc: Global, trees: &mut Vec<Refutation>, chain: Chain) -> Result<(), Memory>
    requires { list_all is_plain trees.old.items ≡ true }
    ensures { OnOk result (list_all is_plain trees.new.items ≡ true) }
{
    let made = chain_tree(alloc, chain)?;
    put_tree(trees, made)?;
    Ok(())
}

fn put(alloc: Global, trees: &mut Vec<Refutation>, next: Move) -> Result<(), Memory>
    requires { list_all is_plain trees.old.items ≡ true }
    ensures { OnOk result (list_all is_plain trees.new.items ≡ true) }
{
    match next {
        Move::Split(lin) => {
            put_split(alloc, trees, lin)?;
            Ok(())
        }
        Move::Closed(chain) => {
            put_chain(alloc, trees, chain)?;
            Ok(())
        }
    }
}

/// The tree, where there is one: it names no quotient and has no cases.
pub(crate) fn tree_of(alloc: Global, moves: Vec<Move>) -> Result<Option<Refutation>, Memory>
    ensures { IfOk result (λ found. IfSome found (λ tree. is_plain tree ≡ true)) }
{
    let mut moves = moves;
    let mut trees = Vec::new(alloc);
    'back: while let Some(next) = moves.pop() {
        put(alloc, &mut trees, next)?;
    }
    Ok(taken(&mut trees))
}
