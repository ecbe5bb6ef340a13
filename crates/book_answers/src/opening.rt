//! The book that a script opens.

ghost use Rattle.std.specs.Prelude.{◌≤◌, IfOk};
ghost use Rattle.term_tree.specs.Arena.{IsArena};
ghost use Rattle.horn_shape.specs.Clause.{IsLegalScript};
ghost use Rattle.chc_core.specs.Openings.{most_units};
ghost use Rattle.book_answers.specs.Answers.{IsOpened};

use base::Memory;
use chc_core::Book;
use clause_normal::{ClauseStop, read_clauses};
use search_strategy::{begin, systems_of_scripts_can_be_run};
use std::alloc::Global;
use term_tree::{Checked, Refusal};

/// What a checked script gives.
#[derive(Drop)]
pub enum Opened {
    /// A book over its clauses, in which nothing is written yet.
    Book(Book),
    /// No book: the script is refused, or its text.
    Refused(Refusal),
}

/// Opens a book over the clauses of the script, with `units` units to spend. `Refused` is the first
/// refusal: of an assertion that isn't a Horn clause with room for its numbers, or else the stop that
/// the script has.
pub fn open(alloc: Global, checked: &Checked, units: u32) -> Result<Opened, Memory>
    requires arena { IsArena checked.now.script.terms.nodes }
    requires legal { IsLegalScript checked.now.script }
    requires units { units ≤ most_units }
    ensures { IfOk result (IsOpened checked.now units) }
{
    // A law, which runs nothing: the clauses can be searched.
    systems_of_scripts_can_be_run();
    match read_clauses(alloc, checked) {
        Ok(system) => {
            let book = begin(alloc, system, units)?;
            Ok(Opened::Book(book))
        }
        Err(ClauseStop::Refused(refusal)) => Ok(Opened::Refused(refusal)),
        Err(ClauseStop::Memory) => Err(Memory),
    }
}
