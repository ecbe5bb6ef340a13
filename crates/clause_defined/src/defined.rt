//! The instances that make an assertion false under definitions.

ghost use Rattle.std.specs.Prelude.{◌≡◌, ◌≤◌, ◌+◌, ℕ, length, nat_lt, None, Some, IfOk, OnOk, IsErrOf, false};
ghost use Rattle.term_tree.specs.Solution.{AreFormulas, DefinesEach};
ghost use Rattle.horn_shape.specs.Clause.{IsClauseOf, IsLegalScript};
ghost use Rattle.clause_form.specs.System.{most_variables};
ghost use Rattle.clause_normal.specs.Normal.{auxiliaries, first_without_room, normal_clause, top_of};
ghost use Rattle.clause_normal.specs.machinery.Making.{AreTablesOf, IsGiven};
ghost use Rattle.clause_laws.specs.Defined.{HasTooManyAt, breaking_form, breaking_variables, breaking_wide};

use crate::judging::judge_all;
use crate::putting::put_all;
use base::{MOST_VARIABLES, Memory};
use clause_form::Clause;
use clause_normal::{NormalStop, Tables, assertion_of, auxiliaries, made_own, names_of, tables_of};
use horn_shape::HornClause;
use lin_atoms::Form;
use std::alloc::Global;
use term_forms::nothing_read;
use term_tree::{Definition, Script, TermId};

/// The normal clause of an assertion that has room and few variables, also where it has more variables of
/// its own or body atoms than `normal` lets through.
fn clause_with_room(
    alloc: Global,
    script: &Script,
    tables: &Tables,
    clause: &HornClause,
    placed: &[u32],
    top: TermId,
) -> Result<Clause, Memory>
    requires given { IsGiven script.now tables.now clause.now }
    requires top { top.0 ≡ top_of script.now clause.now }
    requires placed { placed.now ≡ auxiliaries script.now clause.now }
    requires few { length clause.now.vars + length placed.now ≤ most_variables }
    requires narrow { first_without_room script.now clause.now ≡ None }
    ensures { IfOk result (λ made. made ≡ normal_clause script.now clause.now) }
{
    let names = names_of(alloc, script, clause, placed)?;
    let mut known = nothing_read(alloc);
    let made = made_own(
        alloc, script, tables, &names, &mut known, clause, placed, top,
    )?;
    Ok(made)
}

/// The formula whose points are the instances that make the assertion false under the definitions, and
/// its number of variables: the guard, then what each body atom's definition says at its arguments,
/// then that the head's definition is false there. Each has auxiliary variables of its own. `TooWide`
/// names the first term of a definition without room, where the coefficients of an argument that stands
/// at several places add up; `Count` comes after it: more than 2,048 variables. For every assertion of a
/// script in turn `with_tables` looks at each term once.
pub fn with_definitions(
    alloc: Global,
    script: &Script,
    clause: &HornClause,
    defs: &[Definition],
) -> Result<(Form, u32), NormalStop>
    requires legal { IsLegalScript script.now }
    requires clause { IsClauseOf script.now clause.now.assertion clause.now }
    requires narrow { first_without_room script.now clause.now ≡ None }
    requires defined { DefinesEach 0 script.now.preds defs.now }
    requires formulas { AreFormulas script.now.preds defs.now }
    ensures form { IfOk result (λ made. made.0 ≡ breaking_form defs.now (normal_clause script.now clause.now)) }
    ensures variables { IfOk result (λ made. made.1 ≡ breaking_variables defs.now (normal_clause script.now clause.now)) }
    ensures room { OnOk result (breaking_wide defs.now (normal_clause script.now clause.now) ≡ None) }
    ensures few { OnOk result (nat_lt most_variables (breaking_variables defs.now (normal_clause script.now clause.now)) ≡ false) }
    ensures wide { (offset : ℕ) → IsErrOf result (NormalStop.TooWide offset) → breaking_wide defs.now (normal_clause script.now clause.now) ≡ Some offset }
    ensures count { (offset : ℕ) → IsErrOf result (NormalStop.Count offset) → HasTooManyAt script.now clause.now defs.now offset }
{
    let tables = tables_of(alloc, script.preds.as_slice(), &script.terms)?;
    with_tables(alloc, script, &tables, clause, defs)
}

/// The formula whose points are the instances that make the assertion false under the definitions, and
/// its number of variables, where it is known which sorts and constant values the terms of the script
/// have. `TooWide` names the first term of a definition without room, and `Count` the assertion where
/// there are more than 2,048 variables.
pub fn with_tables(
    alloc: Global,
    script: &Script,
    tables: &Tables,
    clause: &HornClause,
    defs: &[Definition],
) -> Result<(Form, u32), NormalStop>
    requires legal { IsLegalScript script.now }
    requires tables { AreTablesOf script.now tables.now }
    requires clause { IsClauseOf script.now clause.now.assertion clause.now }
    requires narrow { first_without_room script.now clause.now ≡ None }
    requires defined { DefinesEach 0 script.now.preds defs.now }
    requires formulas { AreFormulas script.now.preds defs.now }
    ensures form { IfOk result (λ made. made.0 ≡ breaking_form defs.now (normal_clause script.now clause.now)) }
    ensures variables { IfOk result (λ made. made.1 ≡ breaking_variables defs.now (normal_clause script.now clause.now)) }
    ensures room { OnOk result (breaking_wide defs.now (normal_clause script.now clause.now) ≡ None) }
    ensures few { OnOk result (nat_lt most_variables (breaking_variables defs.now (normal_clause script.now clause.now)) ≡ false) }
    ensures wide { (offset : ℕ) → IsErrOf result (NormalStop.TooWide offset) → breaking_wide defs.now (normal_clause script.now clause.now) ≡ Some offset }
    ensures count { (offset : ℕ) → IsErrOf result (NormalStop.Count offset) → HasTooManyAt script.now clause.now defs.now offset }
{
    script.terms.arena_law();
    let assertion = assertion_of(script, clause);
    let top = assertion.term;
    let placed = auxiliaries(alloc, script, tables, clause, top)?;
    let placed = placed.as_slice();
    let count = judge_all(alloc, &script.terms, clause, placed.len(), defs)?;
    if count > MOST_VARIABLES {
        return Err(NormalStop::Count {
            offset: assertion.offset,
        });
    }
    let whole = clause_with_room(alloc, script, tables, clause, placed, top)?;
    let made = put_all(alloc, defs, whole)?;
    Ok(made)
}
