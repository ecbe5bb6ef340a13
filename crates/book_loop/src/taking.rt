//! Steps that the book takes.

ghost use Rattle.std.specs.Prelude.{◌≡◌, ◌<◌, None, length, IfOk, OnOk, IsSome};
ghost use Rattle.std.specs.Bool.{OnFalse, OnTrue};
ghost use Rattle.book_rules.specs.Legal.{end};
ghost use Rattle.chc_core.specs.Views.{standing_of, state_of};
ghost use Rattle.obligation_turn.specs.Turns.{GoesOn, IsThin};
ghost use Rattle.search_strategy.specs.Runs.{CanRun};
ghost use Rattle.search_strategy.specs.machinery.Steps.{IsOffered, IsTaken};
ghost use Rattle.book_loop.specs.machinery.Steps.{HasTaken, IsFurther};

use base::Memory;
use chc_core::{Book, Refused};
use step_rules::{Lent, Step};

/// The number of the only worker.
pub(crate) const WORKER: u32 = 1;

/// Whether the book has an end.
pub(crate) fn has_ended(book: &Book) -> bool
    ensures ended { OnTrue result (IsSome (end (state_of book.now))) }
    ensures goes_on { OnFalse result (end (state_of book.now) ≡ None) }
{
    match book.end() {
        Some(_) => true,
        None => false,
    }
}

/// What a turn reads of a book that goes on.
pub(crate) fn lend(book: &Book) -> Lent
    requires can_run { CanRun book.now.system }
    requires goes_on { end (state_of book.now) ≡ None }
    requires thin { IsThin (standing_of book.now) }
    ensures is { result ≡ standing_of book.now }
    ensures goes_on { GoesOn result }
{
    let _facts = book.facts();
    book.lend()
}

/// The book takes the step.
pub(crate) fn take(book: &mut Book, step: Step, nodes: u32) -> Result<(), Memory>
    requires goes_on { end (state_of book.old) ≡ None }
    requires taken { IsTaken (standing_of book.old) nodes step }
    ensures further { IsFurther nodes book.old book.new }
    ensures grown { OnOk result (length book.old.journal < length book.new.journal) }
{
    let _nodes = nodes;
    match book.commit(WORKER, step) {
        Ok(_) => Ok(()),
        Err(Refused::Memory) => Err(Memory),
        Err(Refused::Ended { end }) => {
            let _end = end;
            unreachable!()
        }
        Err(Refused::Spent { units }) => {
            let _units = units;
            unreachable!()
        }
        Err(Refused::Rule { number, by }) => {
            let _broken = (number, by);
            unreachable!()
        }
    }
}

/// Whether the book takes the step: it doesn't where it has ended, or where the step breaks a rule.
pub(crate) fn offer(book: &mut Book, step: Step, nodes: u32) -> Result<bool, Memory>
    requires { IsOffered book.old.system nodes step }
    ensures further { IsFurther nodes book.old book.new }
    ensures taken { IfOk result (HasTaken book.old book.new) }
{
    let _nodes = nodes;
    match book.commit(WORKER, step) {
        Ok(_) => Ok(true),
        Err(Refused::Memory) => Err(Memory),
        Err(Refused::Ended { .. }) => Ok(false),
        Err(Refused::Spent { .. }) => Ok(false),
        Err(Refused::Rule { .. }) => Ok(false),
    }
}
