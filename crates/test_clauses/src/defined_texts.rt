//! The formula of a text under a definition.

ghost use Rattle.std.specs.Prelude.{◌≡◌, ◌<◌, ◌^◌, length, None};
ghost use Rattle.horn_shape.specs.Clause.{IsClauseOf, IsLegalScript};
ghost use Rattle.clause_normal.specs.Normal.{first_without_room};

use crate::definitions::definition_of;
use crate::texts::checked;
use clause_defined::with_definitions;
use clause_normal::{NormalStop, normal};
use horn_shape::{HornClause, clause_of, has_assertion};
use lin_atoms::Form;
use std::alloc::Global;
use std::mem;
use std::process::Abort;
use term_tree::Script;

/// The clause of the script's first assertion.
fn first_clause(rt: &impl Abort, alloc: Global, script: &Script) -> HornClause
    ensures { IsClauseOf script.now result.assertion result }
{
    assert!(rt; has_assertion(script, 0));
    match clause_of(alloc, script, 0) {
        Ok(clause) => clause,
        Err(_) => rt.panic("no clause"),
    }
}

/// The clause of the script's first assertion, where its numbers have room.
fn clause_with_room(rt: &impl Abort, alloc: Global, script: &Script) -> HornClause
    requires { IsLegalScript script.now }
    ensures { IsClauseOf script.now result.assertion result × (first_without_room script.now result ≡ None) }
{
    let clause = first_clause(rt, alloc, script);
    match normal(alloc, script, &clause) {
        Ok(made) => {
            mem::forget(made);
            clause
        }
        Err(_) => rt.panic("no normal clause"),
    }
}

/// The formula of the first assertion of a text with one predicate under the definition by the term of
/// another text, and its number of variables.
pub fn formula_under(
    rt: &impl Abort,
    alloc: Global,
    text: &[u8],
    term: &[u8],
) -> Result<(Form, u32), NormalStop>
    requires text { length text.now < 2 ^ 32 }
    requires term { length term.now < 2 ^ 31 }
{
    let checked = checked(rt, alloc, text);
    let script = &checked.script;
    let clause = clause_with_room(rt, alloc, script);
    let defs = [definition_of(rt, alloc, script, term)];
    let made = with_definitions(alloc, script, &clause, &defs);
    mem::forget(checked);
    mem::forget(clause);
    mem::forget(defs);
    made
}
