//! A tree as it is written while it is searched, and put together in the end.

ghost use Rattle.std.specs.Prelude.{◌≡◌, ◌∷◌, [], ◌++◌, length, reverse, take, drop, IfOk, OnOk};
ghost use Rattle.lia_close.specs.declared.written.Step.TheVariants.{Named, Split};
ghost use Rattle.lia_close.specs.Written.{assembled, with_step};

use base::{Boxed, Items, Memory};
use lin_atoms::Lin;
use refutation_trees::Refutation;
use std::alloc::Global;

/// A node, as the search comes to it. What is below it is written behind it, in order.
#[derive(Drop)]
pub enum Step {
    /// A form is at most 0, or at least 1: two nodes are below.
    Split(Lin),
    /// The parts of an open disjunction: `count` nodes are below.
    Cases { which: u32, count: usize },
    /// The quotient of the literal of that number gets a name: one node is below.
    Named(u32),
    /// Nothing is below that isn't in the tree.
    Closed(Refutation),
}

/// The last of the trees, where there is one, comes after those that were taken off.
fn take_off(trees: &mut Vec<Refutation>, last: &mut Items<Refutation>) -> Result<(), Memory>
    ensures last { OnOk result (last.new ≡ last.old ++ take 1 (reverse trees.old.items)) }
    ensures rest { OnOk result (reverse trees.new.items ≡ drop 1 (reverse trees.old.items)) }
{
    match trees.pop() {
        Some(tree) => {
            last.push(tree)?;
            Ok(())
        }
        None => Ok(()),
    }
}

/// The last `count` of the trees, in the order in which they are taken off.
fn last_of(
    alloc: Global,
    trees: &mut Vec<Refutation>,
    count: usize,
) -> Result<Items<Refutation>, Memory>
    ensures last { IfOk result (λ last. last ≡ take count (reverse trees.old.items)) }
    ensures rest { OnOk result (reverse trees.new.items ≡ drop count (reverse trees.old.items)) }
{
    let mut last = Items::new(alloc);
    'off: for _ in 0..count {
        take_off(trees, &mut last)?;
    }
    Ok(last)
}

/// The name of a quotient stands above the last of the trees.
fn put_name(alloc: Global, trees: &mut Vec<Refutation>, lit: u32) -> Result<(), Memory>
    ensures { OnOk result (reverse trees.new.items ≡ with_step (Named lit) (reverse trees.old.items)) }
{
    match trees.pop() {
        Some(tree) => {
            let sub = Boxed::new(alloc, tree)?;
            trees.push(Refutation::Quotient { lit, sub })?;
            Ok(())
        }
        None => Ok(()),
    }
}

/// A split stands above the last two trees.
fn put_split(alloc: Global, trees: &mut Vec<Refutation>, lin: Lin) -> Result<(), Memory>
    ensures { OnOk result (reverse trees.new.items ≡ with_step (Split lin) (reverse trees.old.items)) }
{
    let Some(low) = trees.pop() else {
        return Ok(());
    };
    let Some(high) = trees.pop() else {
        return Ok(());
    };
    let below = Boxed::new(alloc, low)?;
    let above = Boxed::new(alloc, high)?;
    trees.push(Refutation::Split { lin, below, above })?;
    Ok(())
}

/// The trees with a step before them.
fn put(alloc: Global, trees: &mut Vec<Refutation>, step: Step) -> Result<(), Memory>
    ensures { OnOk result (reverse trees.new.items ≡ with_step step (reverse trees.old.items)) }
{
    match step {
        Step::Closed(tree) => {
            trees.push(tree)?;
            Ok(())
        }
        Step::Named(lit) => put_name(alloc, trees, lit),
        Step::Split(lin) => put_split(alloc, trees, lin),
        Step::Cases { which, count } => {
            let subs = last_of(alloc, trees, count)?;
            trees.push(Refutation::Cases { which, subs })?;
            Ok(())
        }
    }
}

/// The tree that was written.
pub fn tree_of(alloc: Global, steps: Vec<Step>) -> Result<Refutation, Memory>
    requires { length (assembled steps.items []) ≡ 1 }
    ensures { IfOk result (λ tree. assembled steps.items [] ≡ tree ∷ []) }
{
    let mut steps = steps;
    let mut trees = Vec::new(alloc);
    'back: while let Some(step) = steps.pop() {
        put(alloc, &mut trees, step)?;
    }
    match trees.pop() {
        Some(tree) => Ok(tree),
        None => unreachable!(),
    }
}
