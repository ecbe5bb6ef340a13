ghost use Rattle.std.specs.Prelude.{◌≡◌, ◌≤◌, Ok, length, sum, vec_len, IfOk};
ghost use Rattle.base.specs.Limits.{most_bytes};
ghost use Rattle.term_tree.specs.Arena.{IsArena};
ghost use Rattle.horn_shape.specs.Clause.{IsLegalScript};
ghost use Rattle.clause_normal.specs.Reading.{system_reading};
ghost use Rattle.book_answers.specs.Answers.{IsBookOf};
ghost use Rattle.book_rules.specs.Legal.{end};
ghost use Rattle.book_rules.specs.Walks.{AllOf};
ghost use Rattle.chc_core.specs.Views.{state_of};
ghost use Rattle.shared_book.specs.Runs.{IsEntry};
ghost use Rattle.worker_pool.specs.Counts.{counts_of};
ghost use Rattle.call_words.specs.Properties.{IsInRange};
ghost use Rattle.call_solve.specs.machinery.Answers.{IsAnswerTo, IsSearched, IsToldOf};

use crate::lines::refusal_line;
use base::Memory;
use book_answers::{level_holds, text_at};
use call_words::Limits;
use chc_core::Book;
use clause_form::System;
use clause_normal::{ClauseStop, read_clauses};
use search_strategy::systems_of_scripts_can_be_run;
use sort_check::{assertions_are_legal, check_text, scripts_are_within_limits};
use std::alloc::Global;
use std::sync::Wait;
use std::thread::Threads;
use term_tree::{Checked, Refusal};
use worker_pool::{Gate, Outcome, solve};

/// What is to be written for a text.
#[derive(Drop)]
pub(crate) enum Answer {
    /// The line of its refusal.
    Refused {
        refusal: Refusal,
        line: Vec<u8>,
    },
    /// The answer of a book at its end, and how many of its entries each worker wrote.
    Answered {
        book: Book,
        counts: Vec<u64>,
        text: Vec<u8>,
    },
    /// The closed level of a book, as memory was wanted before there was an answer.
    Unfinished {
        book: Book,
        counts: Vec<u64>,
    },
}

/// The answer of the book that the workers left, if it has ended.
fn left(alloc: Global, checked: &Checked, outcome: Outcome, limits: Limits) -> Answer
    requires of { IsBookOf checked.now outcome.book }
    requires given { outcome.book.given ≡ limits.units }
    requires entries { AllOf (IsEntry limits.workers limits.nodes) outcome.book.journal }
    requires end { outcome.end ≡ end (state_of outcome.book) }
    requires by { outcome.counts.items ≡ counts_of limits.workers outcome.book.journal }
    requires each { vec_len outcome.counts ≡ limits.workers }
    requires counts { sum outcome.counts.items ≡ length outcome.book.journal }
    ensures { IsSearched limits checked.now result }
{
    let _limits = limits;
    let Outcome {
        end,
        book,
        counts,
        ..
    } = outcome;
    level_holds(checked, &book);
    match end {
        Some(end) => match text_at(alloc, checked, &book, end) {
            Ok(text) => Answer::Answered { book, counts, text },
            Err(_) => Answer::Unfinished { book, counts },
        },
        None => Answer::Unfinished { book, counts },
    }
}

/// Lets the workers search until the book over these clauses has ended, and then tells its answer.
fn searched<W: Threads + Wait + Sync, G: Gate>(
    rt: &W,
    alloc: Global,
    checked: &Checked,
    system: System,
    limits: Limits,
    gate: &G,
) -> Result<Answer, Memory>
    requires arena { IsArena checked.now.script.terms.nodes }
    requires legal { IsLegalScript checked.now.script }
    requires system { system_reading checked.now ≡ Ok system }
    requires range { IsInRange limits }
    ensures { IfOk result (IsSearched limits checked.now) }
{
    // A law, which runs nothing: these clauses can be searched.
    systems_of_scripts_can_be_run();
    let within = worker_pool::Limits {
        workers: limits.workers,
        units: limits.units,
        nodes: limits.nodes,
    };
    let outcome = solve(rt, alloc, system, within, gate)?;
    Ok(left(alloc, checked, outcome, limits))
}

/// What is to be written for a checked text.
fn answer_of<W: Threads + Wait + Sync, G: Gate>(
    rt: &W,
    alloc: Global,
    checked: &Checked,
    limits: Limits,
    gate: &G,
) -> Result<Answer, Memory>
    requires arena { IsArena checked.now.script.terms.nodes }
    requires legal { IsLegalScript checked.now.script }
    requires range { IsInRange limits }
    ensures { IfOk result (IsToldOf limits checked.now) }
{
    match read_clauses(alloc, checked) {
        Ok(system) => {
            let answer = searched(rt, alloc, checked, system, limits, gate)?;
            Ok(answer)
        }
        Err(ClauseStop::Refused(refusal)) => {
            let line = refusal_line(alloc, &refusal)?;
            Ok(Answer::Refused { refusal, line })
        }
        Err(ClauseStop::Memory) => Err(Memory),
    }
}

/// What is to be written for the bytes of an input that isn't too long: the line of its refusal, or the
/// answer of the book that its clauses open and a search within the limits ends.
pub(crate) fn answer_to<W: Threads + Wait + Sync, G: Gate>(
    rt: &W,
    alloc: Global,
    read: &[u8],
    limits: Limits,
    gate: &G,
) -> Result<Answer, Memory>
    requires short { length read.now ≤ most_bytes }
    requires range { IsInRange limits }
    ensures { IfOk result (IsAnswerTo limits read.now) }
{
    let checked = check_text(alloc, read)?;
    // Laws, which run nothing: what the checker made is a legal script.
    checked.script.terms.arena_law();
    scripts_are_within_limits();
    assertions_are_legal();
    let answer = answer_of(rt, alloc, &checked, limits, gate)?;
    Ok(answer)
}
