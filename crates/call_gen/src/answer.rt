//! From a depth and a seed to what is printed.

ghost use Rattle.std.specs.Prelude.{◌≡◌, ◌≤◌, ◌<◌, ◌^◌, ◌∷◌, [], length, IfOk};
ghost use Rattle.term_tree.specs.Arena.{IsArena};
ghost use Rattle.horn_shape.specs.Clause.{IsLegalScript};
ghost use Rattle.book_answers.specs.Answers.{IsBookOf};
ghost use Rattle.chc_core.specs.Openings.{most_units};
ghost use Rattle.chc_core.specs.Views.{standing_of};
ghost use Rattle.obligation_turn.specs.Turns.{IsThin};
ghost use Rattle.call_gen.specs.Summaries.{IsSearchedWith, generated};
ghost use Rattle.call_gen.specs.Answers.{IsMadeOf};

use crate::laws::generated_scripts_have_clauses;
use crate::script::checked_of;
use crate::summary::printed;
use base::Memory;
use book_answers::{Opened, level_holds, open};
use book_loop::search;
use chc_core::Book;
use search_strategy::systems_of_scripts_can_be_run;
use std::alloc::Global;
use term_tree::Checked;

/// What came of a generated script. The one count is that of the book's entries, which its one worker wrote.
#[derive(Drop)]
pub enum Generated {
    /// A book that has ended, and what is printed of it.
    Answered {
        book: Book,
        counts: Vec<u64>,
        text: Vec<u8>,
    },
    /// A book for which memory was wanted before there was anything to print: it has no end, or what is
    /// printed at its end had no room.
    Unfinished {
        book: Book,
        counts: Vec<u64>,
    },
}

/// The one count, of the book's entries, in the room for it.
fn counted(book: &Book, room: Vec<u64>) -> Vec<u64>
    requires { room.items ≡ 0 ∷ [] }
    ensures { result.items ≡ length book.now.journal ∷ [] }
{
    let mut counts = room;
    counts[0] = book.length();
    counts
}

/// What came of a searched book: what is printed at its end, where it has one, whether or not memory was
/// wanted before. The room for the count is handed in, so that none is wanted here but for the text.
fn left(
    alloc: Global,
    checked: &Checked,
    book: Book,
    room: Vec<u64>,
    units: u32,
    nodes: u32,
) -> Generated
    requires searched { IsSearchedWith checked.now units nodes book }
    requires room { room.items ≡ 0 ∷ [] }
    ensures { IsMadeOf checked.now units nodes result }
{
    let (_units, _nodes) = (units, nodes);
    let counts = counted(&book, room);
    match book.end() {
        Some(end) => match printed(alloc, checked, &book, end) {
            Ok(text) => Generated::Answered { book, counts, text },
            Err(_) => Generated::Unfinished { book, counts },
        },
        None => Generated::Unfinished { book, counts },
    }
}

/// Searches until the book has ended or memory is wanted, and then goes by the book's end alone: a search
/// that wants memory behind its last entry has its answer.
fn searched(
    alloc: Global,
    checked: &Checked,
    book: Book,
    room: Vec<u64>,
    units: u32,
    nodes: u32,
) -> Generated
    requires of { IsBookOf checked.now book }
    requires given { book.given ≡ units }
    requires thin { IsThin (standing_of book) }
    requires new { book.journal ≡ [] }
    requires room { room.items ≡ 0 ∷ [] }
    requires some { 0 < nodes }
    ensures { IsMadeOf checked.now units nodes result }
{
    // A law, which runs nothing: the book's clauses can be searched.
    systems_of_scripts_can_be_run();
    let mut book = book;
    let _wants = search(&mut book, nodes);
    level_holds(checked, &book);
    left(alloc, checked, book, room, units, nodes)
}

/// The book over the clauses of a generated script, in which nothing is written yet.
fn opened(
    alloc: Global,
    checked: &Checked,
    depth: u32,
    seed: u32,
    units: u32,
) -> Result<Book, Memory>
    requires is { checked.now ≡ generated depth seed }
    requires depth { depth ≤ 12 }
    requires arena { IsArena checked.now.script.terms.nodes }
    requires legal { IsLegalScript checked.now.script }
    requires units { units ≤ most_units }
    ensures of { IfOk result (IsBookOf checked.now) }
    ensures given { IfOk result (λ book. book.given ≡ units) }
    ensures new { IfOk result (λ book. book.journal ≡ []) }
    ensures thin { IfOk result (λ book. IsThin (standing_of book)) }
{
    let _seed = seed;
    // A law, which runs nothing: the script isn't refused.
    generated_scripts_have_clauses();
    let found = open(alloc, checked, units)?;
    match found {
        Opened::Book(book) => Ok(book),
        Opened::Refused(_) => unreachable!(),
    }
}

/// Opens a book over the clauses of the script that the depth and the seed give, searches it with one
/// worker until it has ended or memory is wanted, and tells what is printed of it. Room for the count is
/// taken first, so that want of memory behind the search is for the text alone.
pub fn answer_for(
    alloc: Global,
    depth: u32,
    seed: u32,
    units: u32,
    nodes: u32,
) -> Result<Generated, Memory>
    requires depth { depth ≤ 12 }
    requires seed { seed < 2 ^ 31 }
    requires units { units ≤ most_units }
    requires some { 0 < nodes }
    ensures { IfOk result (IsMadeOf (generated depth seed) units nodes) }
{
    let checked = checked_of(alloc, depth, seed)?;
    let book = opened(alloc, &checked, depth, seed, units)?;
    let room = Vec::from_slice(alloc, &[0])?;
    let answer = searched(alloc, &checked, book, room, units, nodes);
    Ok(answer)
}
