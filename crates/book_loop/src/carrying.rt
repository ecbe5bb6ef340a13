//! An older lemma that is lifted in place of a copy of it.

ghost use Rattle.std.specs.Prelude.{IfOk};
ghost use Rattle.search_strategy.specs.machinery.Steps.{AreFor, IsOffered};
ghost use Rattle.book_loop.specs.machinery.Steps.{HasTaken, IsFurther};

use crate::taking::offer;
use base::Memory;
use chc_core::Book;
use search_strategy::{LIFTS_OLDER, lift_by, older};
use step_rules::{LemmaPart, Step};

/// Lifts the lemma from this level to the next with the part's proofs, if the book takes it.
fn lift_once(
    book: &mut Book,
    id: u32,
    from: u32,
    part: &LemmaPart,
    nodes: u32,
) -> Result<bool, Memory>
    requires { AreFor book.old.system part.now.proofs }
    ensures further { IsFurther nodes book.old book.new }
    ensures taken { IfOk result (HasTaken book.old book.new) }
{
    let step = lift_by(book.lend().alloc, part, id, from)?;
    offer(book, step, nodes)
}

/// Lifts the lemma level by level from this one up to the part's, as far as the book takes it. Whether it
/// took any.
fn carry(book: &mut Book, id: u32, level: u32, part: &LemmaPart, nodes: u32) -> Result<bool, Memory>
    requires { AreFor book.old.system part.now.proofs }
    ensures further { IsFurther nodes book.old book.new }
    ensures taken { IfOk result (HasTaken book.old book.new) }
{
    let mut taken = false;
    for from in level..part.level {
        if !lift_once(book, id, from, part, nodes)? {
            return Ok(taken);
        }
        taken = true;
    }
    Ok(taken)
}

/// Lifts an older lemma that has the part's cube, if there is one and older lemmas are lifted.
fn carry_older(book: &mut Book, part: &LemmaPart, nodes: u32) -> Result<bool, Memory>
    requires { AreFor book.old.system part.now.proofs }
    ensures further { IsFurther nodes book.old book.new }
    ensures taken { IfOk result (HasTaken book.old book.new) }
{
    if !LIFTS_OLDER {
        return Ok(false);
    }
    match older(book.frames(), part) {
        Some((id, level)) => carry(book, id, level, part, nodes),
        None => Ok(false),
    }
}

/// Where the step learns a lemma whose cube an older one has, lifts that one in its place. Whether it
/// was lifted.
pub(crate) fn lift_older(book: &mut Book, step: &Step, nodes: u32) -> Result<bool, Memory>
    requires { IsOffered book.old.system nodes step.now }
    ensures further { IsFurther nodes book.old book.new }
    ensures taken { IfOk result (HasTaken book.old book.new) }
{
    match step {
        Step::LemmaStep(part) => carry_older(book, part, nodes),
        _ => Ok(false),
    }
}
