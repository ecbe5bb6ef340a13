//! Copies of trees, made from the leaves up with a stack of the nodes above.

ghost use Rattle.std.specs.Prelude.{◌≡◌, ◌+◌, ◌<◌, ◌≤◌, ◌++◌, ◌∷◌, IfOk, OnOk, drop, length, map};
ghost use Rattle.refutation_trees.specs.declared.tree.Refutation.TheViews.{Cases};
ghost use Rattle.refutation_trees.specs.machinery.Copying.{ahead, pending, pending_of, plug, plug_all, reached, whole};
ghost use Rattle.refutation_trees.specs.machinery.Sizes.{size, sizes};

use crate::tree::Refutation;
use base::{Boxed, Copied, Items, Memory};
use lin_atoms::Lin;
use std::alloc::Global;

/// A node above the tree that is copied, and what was copied of it.
#[derive(Drop)]
pub(crate) enum Frame<'a> {
    Round {
        multipliers: &'a Items<(u32, i64)>,
        divisor: i64,
    },
    Below {
        lin: &'a Lin,
        above: &'a Refutation,
    },
    Above {
        lin: &'a Lin,
        below: Boxed<Refutation>,
    },
    Cases {
        which: u32,
        subs: &'a Items<Refutation>,
        made: Items<Refutation>,
    },
    Quotient {
        lit: u32,
    },
}

/// A copy that was made, or a tree to copy next.
#[derive(Drop)]
pub(crate) enum Next<'a> {
    Up(Refutation),
    Down(&'a Refutation),
}

/// An equal tree.
pub(crate) fn copied(alloc: Global, tree: &Refutation) -> Result<Refutation, Memory>
    ensures { IfOk result (λ copied. copied ≡ tree.now) }
{
    let mut frames = Vec::new(alloc);
    let mut next = turn(alloc, tree, &mut frames)?;
    loop {
        match next {
            Next::Up(copied) => return Ok(copied),
            Next::Down(sub) => next = turn(alloc, sub, &mut frames)?,
        }
    }
}

/// Down to a leaf, and up again.
fn turn<'a>(
    alloc: Global,
    tree: &'a Refutation,
    frames: &mut Vec<Frame<'a>>,
) -> Result<Next<'a>, Memory>
    ensures whole { IfOk result (λ next. reached frames.new.items next ≡ plug_all frames.old.items tree.now) }
    ensures less { IfOk result (λ next. pending frames.new.items + ahead next + 2 ≤ pending frames.old.items + size tree.now) }
{
    let leaf = descend(alloc, tree, frames)?;
    let next = ascend(alloc, leaf, frames)?;
    Ok(next)
}

/// The copy of the first node without subs, below the frames for those on the way.
fn descend<'a>(
    alloc: Global,
    tree: &'a Refutation,
    frames: &mut Vec<Frame<'a>>,
) -> Result<Refutation, Memory>
    ensures whole { IfOk result (λ leaf. plug_all frames.new.items leaf ≡ plug_all frames.old.items tree.now) }
    ensures less { OnOk result (pending frames.new.items + 2 ≤ pending frames.old.items + size tree.now) }
{
    let mut here = tree;
    loop {
        match here {
            Refutation::Leaf { multipliers } => {
                let multipliers = Items::from_slice(alloc, multipliers.as_slice())?;
                return Ok(Refutation::Leaf { multipliers });
            }
            Refutation::Round {
                multipliers,
                divisor,
                sub,
            } => {
                let divisor = *divisor;
                frames.push(Frame::Round {
                    multipliers,
                    divisor,
                })?;
                here = sub.get();
            }
            Refutation::Split { lin, below, above } => {
                let above = above.get();
                frames.push(Frame::Below { lin, above })?;
                here = below.get();
            }
            Refutation::Cases { which, subs } => {
                let (which, made) = (*which, Items::new(alloc));
                match subs.get(0) {
                    Some(first) => {
                        frames.push(Frame::Cases { which, subs, made })?;
                        here = first;
                    }
                    None => return Ok(Refutation::Cases { which, subs: made }),
                }
            }
            Refutation::Quotient { lit, sub } => {
                frames.push(Frame::Quotient { lit: *lit })?;
                here = sub.get();
            }
        }
    }
}

/// The copies of the nodes above, up to one that has a sub to copy yet.
fn ascend<'a>(
    alloc: Global,
    tree: Refutation,
    frames: &mut Vec<Frame<'a>>,
) -> Result<Next<'a>, Memory>
    ensures whole { IfOk result (λ next. reached frames.new.items next ≡ plug_all frames.old.items tree) }
    ensures less { IfOk result (λ next. pending frames.new.items + ahead next ≤ pending frames.old.items) }
{
    let mut made = tree;
    while let Some(frame) = frames.pop() {
        match fill(alloc, frame, made, frames)? {
            Next::Up(node) => made = node,
            Next::Down(next) => return Ok(Next::Down(next)),
        }
    }
    Ok(Next::Up(made))
}

/// The copy of a node, or its next sub.
fn fill<'a>(
    alloc: Global,
    frame: Frame<'a>,
    tree: Refutation,
    frames: &mut Vec<Frame<'a>>,
) -> Result<Next<'a>, Memory>
    ensures whole { IfOk result (λ next. whole frames.new.items next ≡ plug_all frames.old.items (plug frame.entry tree)) }
    ensures less { IfOk result (λ next. pending frames.new.items + ahead next < pending frames.old.items + pending_of frame.entry) }
{
    match frame {
        Frame::Round {
            multipliers,
            divisor,
        } => {
            let sub = Boxed::new(alloc, tree)?;
            let multipliers = Items::from_slice(alloc, multipliers.as_slice())?;
            Ok(Next::Up(Refutation::Round {
                multipliers,
                divisor,
                sub,
            }))
        }
        Frame::Below { lin, above } => {
            let below = Boxed::new(alloc, tree)?;
            frames.push(Frame::Above { lin, below })?;
            Ok(Next::Down(above))
        }
        Frame::Above { lin, below } => {
            let lin = lin.copy(alloc)?;
            let above = Boxed::new(alloc, tree)?;
            Ok(Next::Up(Refutation::Split { lin, below, above }))
        }
        Frame::Cases { which, subs, made } => fill_cases(which, subs, made, tree, frames),
        Frame::Quotient { lit } => {
            let sub = Boxed::new(alloc, tree)?;
            Ok(Next::Up(Refutation::Quotient { lit, sub }))
        }
    }
}

/// The copy of the cases of a disjunction, or the next of them.
fn fill_cases<'a>(
    which: u32,
    subs: &'a Items<Refutation>,
    made: Items<Refutation>,
    tree: Refutation,
    frames: &mut Vec<Frame<'a>>,
) -> Result<Next<'a>, Memory>
    ensures whole { IfOk result (λ next. whole frames.new.items next ≡ plug_all frames.old.items (Cases which (made ++ tree ∷ drop (length made + 1) subs.now))) }
    ensures less { IfOk result (λ next. pending frames.new.items + ahead next < pending frames.old.items + (sizes (map size (drop (length made + 1) subs.now)) + 1)) }
{
    let mut made = made;
    made.push(tree)?;
    match subs.get(made.len()) {
        Some(sub) => {
            frames.push(Frame::Cases { which, subs, made })?;
            Ok(Next::Down(sub))
        }
        None => Ok(Next::Up(Refutation::Cases { which, subs: made })),
    }
}
