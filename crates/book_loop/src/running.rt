//! Turn after turn.

ghost use Rattle.std.specs.Prelude.{◌≡◌, ◌≤◌, ◌<◌, ◌+◌, None, length, take, IfOk, IfSome, OnOk, IsSome};
ghost use Rattle.book_rules.specs.Legal.{end};
ghost use Rattle.book_rules.specs.Walks.{AllOf};
ghost use Rattle.chc_core.specs.Views.{standing_of, state_of};
ghost use Rattle.obligation_turn.specs.Turns.{IsThin};
ghost use Rattle.search_strategy.specs.Runs.{CanRun};
ghost use Rattle.search_strategy.specs.machinery.Steps.{IsOffered, IsTaken};
ghost use Rattle.search_mind.specs.Minds.{IsMindFor};
ghost use Rattle.book_loop.specs.Runs.{IsOwn};
ghost use Rattle.book_loop.specs.machinery.Steps.{HasTaken, IsFurther};

use crate::carrying::lift_older;
use crate::jobs::next_job;
use crate::taking::{WORKER, has_ended, lend, offer, take};
use base::Memory;
use chc_core::Book;
use search_mind::Mind;
use search_strategy::pass_of;
use step_rules::Step;

/// The next small step, if there is one.
fn small_step(book: &Book, mind: &mut Mind, nodes: u32) -> Result<Option<Step>, Memory>
    requires can_run { CanRun book.now.system }
    requires some { 0 < nodes }
    requires goes_on { end (state_of book.now) ≡ None }
    requires thin { IsThin (standing_of book.now) }
    requires mind { IsMindFor book.now.system mind.old }
    ensures offered { IfOk result (λ found. IfSome found (IsOffered book.now.system nodes)) }
    ensures mind { OnOk result (IsMindFor book.now.system mind.new) }
{
    let lent = lend(book);
    let found = mind.small_step(&lent, nodes)?;
    Ok(found)
}

/// Offers the next small step, if there is one. Whether the book has taken it.
fn step_on(book: &mut Book, mind: &mut Mind, nodes: u32) -> Result<bool, Memory>
    requires can_run { CanRun book.old.system }
    requires some { 0 < nodes }
    requires goes_on { end (state_of book.old) ≡ None }
    requires thin { IsThin (standing_of book.old) }
    requires mind { IsMindFor book.old.system mind.old }
    ensures further { IsFurther nodes book.old book.new }
    ensures taken { IfOk result (HasTaken book.old book.new) }
    ensures mind { OnOk result (IsMindFor book.old.system mind.new) }
{
    match small_step(book, mind, nodes)? {
        Some(step) => offer(book, step, nodes),
        None => Ok(false),
    }
}

/// The step for the obligation that is asked next. A lemma is first made more general and raised.
fn next_step(book: &Book, mind: &mut Mind, nodes: u32) -> Result<Step, Memory>
    requires can_run { CanRun book.now.system }
    requires some { 0 < nodes }
    requires goes_on { end (state_of book.now) ≡ None }
    requires thin { IsThin (standing_of book.now) }
    requires mind { IsMindFor book.now.system mind.old }
    ensures taken { IfOk result (IsTaken (standing_of book.now) nodes) }
    ensures mind { OnOk result (IsMindFor book.now.system mind.new) }
{
    let job = next_job(book);
    let lent = lend(book);
    let step = mind.serve(&lent, job, nodes)?;
    Ok(step)
}

/// The book takes the step. In place of a lemma whose cube an older one has, that one is lifted.
fn take_turn(book: &mut Book, step: Step, nodes: u32) -> Result<(), Memory>
    requires goes_on { end (state_of book.old) ≡ None }
    requires taken { IsTaken (standing_of book.old) nodes step }
    ensures further { IsFurther nodes book.old book.new }
    ensures grown { OnOk result (length book.old.journal < length book.new.journal) }
{
    if lift_older(book, &step, nodes)? {
        return Ok(());
    }
    take(book, step, nodes)
}

/// Serves the obligation that is asked next.
fn serve(book: &mut Book, mind: &mut Mind, nodes: u32) -> Result<(), Memory>
    requires can_run { CanRun book.old.system }
    requires some { 0 < nodes }
    requires goes_on { end (state_of book.old) ≡ None }
    requires thin { IsThin (standing_of book.old) }
    requires mind { IsMindFor book.old.system mind.old }
    ensures further { IsFurther nodes book.old book.new }
    ensures mind { OnOk result (IsMindFor book.old.system mind.new) }
    ensures grown { OnOk result (length book.old.journal < length book.new.journal) }
{
    let step = next_step(book, mind, nodes)?;
    let pass = pass_of(book.level(), &step);
    take_turn(book, step, nodes)?;
    mind.begin(pass);
    Ok(())
}

/// One turn: a small step, or where there is none that the book takes, a step for the obligation that is
/// asked next. A journal has at most an entry for each unit, and one for each obligation that was stalled.
fn advance(book: &mut Book, mind: &mut Mind, nodes: u32) -> Result<(), Memory>
    requires can_run { CanRun book.old.system }
    requires some { 0 < nodes }
    requires goes_on { end (state_of book.old) ≡ None }
    requires thin { IsThin (standing_of book.old) }
    requires mind { IsMindFor book.old.system mind.old }
    ensures further { IsFurther nodes book.old book.new }
    ensures mind { OnOk result (IsMindFor book.old.system mind.new) }
    ensures grown { OnOk result (length book.old.journal < length book.new.journal) }
{
    if step_on(book, mind, nodes)? {
        return Ok(());
    }
    serve(book, mind, nodes)
}

/// Goes on with a book until it has ended. Each turn spends a unit or stalls an obligation, so it comes
/// to an end. Queries are given up at `nodes` inner nodes. Where memory is wanted, the book is as far as
/// it came.
pub fn search(book: &mut Book, nodes: u32) -> Result<(), Memory>
    requires can_run { CanRun book.old.system }
    requires some { 0 < nodes }
    requires thin { IsThin (standing_of book.old) }
    requires own { AllOf (IsOwn nodes) book.old.journal }
    ensures ended { OnOk result (IsSome (end (state_of book.new))) }
    ensures system { book.new.system ≡ book.old.system }
    ensures given { book.new.given ≡ book.old.given }
    ensures own { AllOf (IsOwn nodes) book.new.journal }
    ensures thin { IsThin (standing_of book.new) }
    ensures begins { take (length book.old.journal) book.new.journal ≡ book.old.journal }
{
    let mut mind = Mind::new(book.lend().alloc, WORKER);
    'turns: while !has_ended(book) {
        advance(book, &mut mind, nodes)?;
        book.replay_law();
    }
    Ok(())
}
