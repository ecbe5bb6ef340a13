//! The book that a search begins with.

ghost use Rattle.std.specs.Prelude.{◌≡◌, ◌≤◌, [], IfOk};
ghost use Rattle.chc_core.specs.Openings.{most_units};
ghost use Rattle.chc_core.specs.Views.{standing_of};
ghost use Rattle.obligation_turn.specs.Turns.{IsThin};
ghost use Rattle.search_strategy.specs.Runs.{CanRun};

use base::Memory;
use chc_core::Book;
use clause_form::System;
use std::alloc::Global;

/// The book that these clauses open, with `units` units to spend, as a search begins with it.
pub fn begin(alloc: Global, system: System, units: u32) -> Result<Book, Memory>
    requires can_run { CanRun system }
    requires units { units ≤ most_units }
    ensures system { IfOk result (λ book. book.system ≡ system) }
    ensures given { IfOk result (λ book. book.given ≡ units) }
    ensures new { IfOk result (λ book. book.journal ≡ []) }
    ensures thin { IfOk result (λ book. IsThin (standing_of book)) }
{
    let book = Book::new(alloc, system, units)?;
    Ok(book)
}
