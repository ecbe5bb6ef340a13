//! The text of the answer.

ghost use Rattle.std.specs.Prelude.{◌≡◌, Some, IfOk};
ghost use Rattle.book_rules.specs.Legal.{end};
ghost use Rattle.chc_core.specs.Views.{state_of};
ghost use Rattle.answer_text.specs.Printable.{IsPrintable};
ghost use Rattle.book_answers.specs.Answers.{HasNoLowFalse, HasText, IsAnswerAt, IsBookOf};

use crate::answers::answer_at;
use answer_text::{Answer, write_answer};
use base::Memory;
use book_rules::End;
use cert_derivations::lines_of_facts_are_read_back;
use chc_core::Book;
use interpretations::definitions_are_printed;
use std::alloc::Global;
use term_tree::Checked;

/// Tells that no derivation of false by the script's clauses is as low as the closed level of a book
/// over them, however it has ended.
pub fn level_holds(checked: &Checked, book: &Book)
    requires of { IsBookOf checked.now book.now }
    ensures { HasNoLowFalse checked.now.script book.now.level }
{
    let _checked = checked;
    let _level = book.level();
}

/// Tells that the answer can be printed.
fn is_printable(checked: &Checked, book: &Book, ending: End, answer: &Answer)
    requires of { IsBookOf checked.now book.now }
    requires ended { end (state_of book.now) ≡ Some ending }
    requires answers { IsAnswerAt checked.now.script book.now ending answer.now }
    ensures { IsPrintable checked.now.script.preds answer.now }
{
    let _checked = checked;
    let _answer = answer;
    let _given = ending;
    let _end = book.end();
    let facts = book.facts();
    facts.record_law();
    let _count = facts.count();
    // Laws, which run nothing: both kinds of answers may be printed.
    lines_of_facts_are_read_back();
    definitions_are_printed();
}

/// The text of the answer at the book's end.
pub fn text_at(
    alloc: Global,
    checked: &Checked,
    book: &Book,
    ending: End,
) -> Result<Vec<u8>, Memory>
    requires of { IsBookOf checked.now book.now }
    requires ended { end (state_of book.now) ≡ Some ending }
    ensures { IfOk result (λ text. HasText checked.now.script book.now ending text.items) }
{
    let answer = answer_at(alloc, checked, book, ending)?;
    is_printable(checked, book, ending, &answer);
    let text = write_answer(alloc, &checked.script, &answer)?;
    Ok(text)
}
