//! What is printed at an end.

ghost use Rattle.std.specs.Prelude.{◌≡◌, ◌++◌, length, Some, IfOk, OnOk, decimal};
ghost use Rattle.term_tree.specs.declared.refusal.Checked.{Checked as CheckedScript};
ghost use Rattle.book_rules.specs.declared.end.End.TheVariants.{Unsat};
ghost use Rattle.book_rules.specs.Legal.{end};
ghost use Rattle.chc_core.specs.Views.{state_of};
ghost use Rattle.book_answers.specs.Answers.{IsBookOf};
ghost use Rattle.call_gen.specs.Summaries.{HasSummary, summary_text};

use base::Memory;
use book_answers::text_at;
use book_rules::End;
use chc_core::Book;
use itoa::Buffer;
use std::alloc::Global;
use term_tree::Checked;

/// Appends the number's digits.
fn push_number(out: &mut Vec<u8>, number: u64) -> Result<(), Memory>
    ensures { OnOk result (out.new.items ≡ out.old.items ++ decimal number) }
{
    let mut buffer = Buffer::new();
    out.extend_from_slice(buffer.format(number).as_bytes())?;
    Ok(())
}

/// The summary of a derivation of so many steps and that height.
fn summary(alloc: Global, steps: u64, height: u32) -> Result<Vec<u8>, Memory>
    ensures { IfOk result (λ text. text.items ≡ summary_text steps height) }
{
    let mut text = Vec::new(alloc);
    text.extend_from_slice(b"unsat steps ")?;
    push_number(&mut text, steps)?;
    text.extend_from_slice(b" height ")?;
    push_number(&mut text, u64::from(height))?;
    text.extend_from_slice(b"\n")?;
    Ok(text)
}

/// How many steps these are.
fn count_of(steps: &[u32]) -> u64
    ensures { result ≡ length steps.now }
{
    steps.len() as u64
}

/// The summary of the recorded false: on how many facts it rests, and how high it is.
fn unsat(alloc: Global, book: &Book, fact: u32) -> Result<Vec<u8>, Memory>
    requires ended { end (state_of book.now) ≡ Some (Unsat fact) }
    ensures { (checked : CheckedScript) → IsBookOf checked book.now → IfOk result (λ text. HasSummary checked.script book.now (Unsat fact) text.items) }
{
    let _end = book.end();
    let facts = book.facts();
    facts.record_law();
    let steps = facts.steps_to(fact)?;
    let height = facts.height(fact);
    let count = count_of(steps.as_slice());
    let text = summary(alloc, count, height)?;
    Ok(text)
}

/// What is printed at the book's end: the summary of false, or else what `solve` prints.
pub(crate) fn printed(
    alloc: Global,
    checked: &Checked,
    book: &Book,
    ending: End,
) -> Result<Vec<u8>, Memory>
    requires of { IsBookOf checked.now book.now }
    requires ended { end (state_of book.now) ≡ Some ending }
    ensures { IfOk result (λ text. HasSummary checked.now.script book.now ending text.items) }
{
    match ending {
        End::Unsat { fact } => unsat(alloc, book, fact),
        End::Sat { level } => text_at(alloc, checked, book, End::Sat { level }),
        End::Spent { units } => text_at(alloc, checked, book, End::Spent { units }),
        End::Stalled => text_at(alloc, checked, book, End::Stalled),
    }
}
