//! The answer of a book that has ended.

ghost use Rattle.std.specs.Prelude.{◌≡◌, Some, IfOk};
ghost use Rattle.term_tree.specs.declared.refusal.Checked.{Checked as CheckedScript};
ghost use Rattle.book_rules.specs.declared.end.End.TheVariants.{Sat, Unsat};
ghost use Rattle.book_rules.specs.Legal.{end};
ghost use Rattle.chc_core.specs.Views.{state_of};
ghost use Rattle.book_answers.specs.Answers.{IsAnswerAt, IsBookOf};

use answer_text::{Answer, UnknownCause};
use base::Memory;
use book_rules::End;
use cert_derivations::lines;
use chc_core::Book;
use interpretations::{
    DefinitionStop, lemmas_of_books_have_places, sat_ends_solve_the_script, solution,
};
use std::alloc::Global;
use term_tree::Checked;

/// The lines of the derivation of false.
fn unsat(alloc: Global, book: &Book, fact: u32) -> Result<Answer, Memory>
    requires ended { end (state_of book.now) ≡ Some (Unsat fact) }
    ensures { (checked : CheckedScript) → IsBookOf checked book.now → IfOk result (IsAnswerAt checked.script book.now (Unsat fact)) }
{
    let _end = book.end();
    let facts = book.facts();
    facts.record_law();
    let steps = facts.steps_to(fact)?;
    let lines = lines(alloc, book.system(), facts, steps.as_slice())?;
    Ok(Answer::Unsat(lines))
}

/// The definitions by the lemmas of this level or more. Where a definition would have more nodes than
/// there are numbers for, no memory would hold it.
fn sat(alloc: Global, checked: &Checked, book: &Book, level: u32) -> Result<Answer, Memory>
    requires of { IsBookOf checked.now book.now }
    requires ended { end (state_of book.now) ≡ Some (Sat level) }
    ensures { IfOk result (IsAnswerAt checked.now.script book.now (Sat level)) }
{
    // Laws, which run nothing: the definitions can be made, and solve the script.
    sat_ends_solve_the_script();
    lemmas_of_books_have_places();
    book.replay_law();
    let preds = checked.script.preds.as_slice();
    let frames = book.frames();
    match solution(alloc, preds, frames, level) {
        Ok(made) => Ok(Answer::Sat(made)),
        Err(DefinitionStop::Full) => Err(Memory),
        Err(DefinitionStop::Memory) => Err(Memory),
    }
}

/// The answer of a book over the script's clauses at its end: a derivation of false, definitions that
/// are a solution, or the closed level and why there is neither.
pub fn answer_at(
    alloc: Global,
    checked: &Checked,
    book: &Book,
    ending: End,
) -> Result<Answer, Memory>
    requires of { IsBookOf checked.now book.now }
    requires ended { end (state_of book.now) ≡ Some ending }
    ensures { IfOk result (IsAnswerAt checked.now.script book.now ending) }
{
    let level = book.level();
    match ending {
        End::Unsat { fact } => unsat(alloc, book, fact),
        End::Sat { level } => sat(alloc, checked, book, level),
        End::Spent { units } => Ok(Answer::Unknown {
            level,
            cause: UnknownCause::Units(units),
        }),
        End::Stalled => Ok(Answer::Unknown {
            level,
            cause: UnknownCause::Stalled,
        }),
    }
}
