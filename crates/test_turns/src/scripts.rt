//! The clauses of a script, and the book that it opens.

ghost use Rattle.std.specs.Prelude.{◌≡◌, ◌≤◌, ◌<◌, ◌^◌, [], length, IfOk};
ghost use Rattle.horn_shape.specs.Clause.{IsLegalScript};
ghost use Rattle.chc_core.specs.Openings.{most_units};
ghost use Rattle.chc_core.specs.Views.{standing_of};
ghost use Rattle.obligation_turn.specs.Turns.{IsThin};
ghost use Rattle.search_strategy.specs.Runs.{CanRun};

use base::Memory;
use chc_core::Book;
use clause_form::System;
use clause_normal::read_clauses;
use search_strategy::{begin, systems_of_scripts_can_be_run};
use sort_check::{assertions_are_legal, check_text, scripts_are_within_limits};
use std::alloc::Global;
use std::process::Abort;
use term_tree::Checked;

/// The script of a text, up to the first command that is illegal by itself.
fn checked(alloc: Global, text: &[u8]) -> Result<Checked, Memory>
    requires { length text.now < 2 ^ 32 }
    ensures { IfOk result (λ checked. IsLegalScript checked.script) }
{
    let checked = check_text(alloc, text)?;
    checked.script.terms.arena_law();
    assertions_are_legal();
    scripts_are_within_limits();
    Ok(checked)
}

/// The clauses of a script.
pub(crate) fn system_of(rt: &impl Abort, alloc: Global, text: &str) -> System
    ensures { CanRun result }
{
    systems_of_scripts_can_be_run();
    let bytes = text.as_bytes();
    assert!(rt; bytes.len() < 10_000, "a long text");
    let checked = checked(alloc, bytes).expect(rt, "memory");
    match read_clauses(alloc, &checked) {
        Ok(system) => system,
        Err(_) => panic!(rt; "a script that is refused"),
    }
}

/// The book that a script opens, with `units` units to spend.
pub(crate) fn opened(rt: &impl Abort, alloc: Global, text: &str, units: u32) -> Book
    requires units { units ≤ most_units }
    ensures can_run { CanRun result.system }
    ensures thin { IsThin (standing_of result) }
    ensures new { result.journal ≡ [] }
{
    let system = system_of(rt, alloc, text);
    begin(alloc, system, units).expect(rt, "memory")
}
