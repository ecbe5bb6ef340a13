//! Answers that a script is satisfiable.

ghost use Rattle.std.specs.Prelude.{◌≡◌, ◌<◌, ◌≤◌, ◌∷◌, [], None, IfOk};
ghost use Rattle.base.specs.Limits.{most_variables};
ghost use Rattle.term_tree.specs.Solution.{AreFormulas, DefinesEach};
ghost use Rattle.horn_shape.specs.Clause.{IsLegalScript};
ghost use Rattle.lin_atoms.specs.declared.form.Form.TheViews.{And};
ghost use Rattle.clause_normal.specs.Normal.{first_without_room, normal_clause};
ghost use Rattle.clause_normal.specs.machinery.Making.{AreTablesOf};
ghost use Rattle.clause_laws.specs.Defined.{breaking_form, breaking_variables, breaking_wide};
ghost use Rattle.answer_text.specs.declared.answer.Answer.TheVariants.{Sat};
ghost use Rattle.chc_checker.specs.Verdicts.{IsNormalScript, IsAssertionReached, Says};
ghost use Rattle.chc_checker.specs.machinery.Judging.{HaveFewArguments, IsDecided, Settles};

use crate::counting::count_all;
use crate::parting::settle;
use crate::verdict::{Hidden, Place, Unshown, Verdict};
use base::{Items, Memory};
use check_derivation::clauses_of;
use clause_defined::with_tables;
use clause_normal::{NormalStop, Tables, assertion_of, has_number, tables_of};
use horn_shape::HornClause;
use lia_cases::Decision;
use lin_atoms::Form;
use std::alloc::Global;
use term_tree::{Definition, Script};

/// The verdict by what is decided of the formula of the instances that make the assertion of that
/// number false; none where it has no point.
fn verdict_by(
    script: &Script,
    definitions: &[Definition],
    nodes: u32,
    number: u32,
    clause: &HornClause,
    vars: u32,
    decision: Decision,
) -> Option<Verdict>
    requires legal { IsLegalScript script.now }
    requires defined { DefinesEach 0 script.now.preds definitions.now }
    requires formulas { AreFormulas script.now.preds definitions.now }
    requires reached { IsAssertionReached script.now definitions.now number clause.now }
    requires vars { vars ≡ breaking_variables definitions.now (normal_clause script.now clause.now) }
    requires few { vars ≤ most_variables }
    requires wide { breaking_wide definitions.now (normal_clause script.now clause.now) ≡ None }
    requires decides { Settles (And (breaking_form definitions.now (normal_clause script.now clause.now) ∷ [])) vars nodes decision }
    ensures { IsDecided nodes script.now definitions.now number result }
{
    script.terms.arena_law();
    match decision {
        Decision::Model(point) => {
            let mut values = point;
            values.truncate(clause.vars.len());
            Some(Verdict::Wrong {
                place: Place::Instance {
                    assertion: number,
                    values: Items::from_vec(values),
                },
            })
        }
        Decision::Refuted(_) => None,
        Decision::GaveUp(gave_up) => Some(Verdict::NotShown {
            place: Hidden::Assertion(number),
            evidence: Unshown::Query(gave_up),
        }),
    }
}

/// The verdict at the assertion of that number, by the formula of the instances that make it false;
/// none where it is true.
fn decided(
    alloc: Global,
    script: &Script,
    definitions: &[Definition],
    nodes: u32,
    number: u32,
    clause: &HornClause,
    form: Form,
    vars: u32,
) -> Result<Option<Verdict>, Memory>
    requires legal { IsLegalScript script.now }
    requires defined { DefinesEach 0 script.now.preds definitions.now }
    requires formulas { AreFormulas script.now.preds definitions.now }
    requires reached { IsAssertionReached script.now definitions.now number clause.now }
    requires form { form ≡ breaking_form definitions.now (normal_clause script.now clause.now) }
    requires vars { vars ≡ breaking_variables definitions.now (normal_clause script.now clause.now) }
    requires few { vars ≤ most_variables }
    requires narrow { first_without_room script.now clause.now ≡ None }
    requires wide { breaking_wide definitions.now (normal_clause script.now clause.now) ≡ None }
    requires counted { HaveFewArguments script.now definitions.now }
    requires some { 0 < nodes }
    ensures { IfOk result (IsDecided nodes script.now definitions.now number) }
{
    script.terms.arena_law();
    has_number(assertion_of(script, clause).term);
    let decision = settle(alloc, form, vars, nodes)?;
    Ok(verdict_by(script, definitions, nodes, number, clause, vars, decision))
}

/// The verdict at the assertion of that number; none where it is true under the definitions.
fn judged(
    alloc: Global,
    script: &Script,
    tables: &Tables,
    definitions: &[Definition],
    nodes: u32,
    number: u32,
    clause: &HornClause,
) -> Result<Option<Verdict>, Memory>
    requires legal { IsLegalScript script.now }
    requires normal { IsNormalScript script.now }
    requires tables { AreTablesOf script.now tables.now }
    requires defined { DefinesEach 0 script.now.preds definitions.now }
    requires formulas { AreFormulas script.now.preds definitions.now }
    requires reached { IsAssertionReached script.now definitions.now number clause.now }
    requires counted { HaveFewArguments script.now definitions.now }
    requires some { 0 < nodes }
    ensures { IfOk result (IsDecided nodes script.now definitions.now number) }
{
    match with_tables(alloc, script, tables, clause, definitions) {
        Ok((form, vars)) => decided(
            alloc,
            script,
            definitions,
            nodes,
            number,
            clause,
            form,
            vars,
        ),
        Err(NormalStop::Memory) => Err(Memory),
        Err(NormalStop::TooWide { offset }) => Ok(Some(Verdict::Wrong {
            place: Place::Byte(offset),
        })),
        Err(NormalStop::Count { .. }) => Ok(Some(Verdict::NotShown {
            place: Hidden::Assertion(number),
            evidence: Unshown::Variables,
        })),
    }
}

/// Whether every assertion of the script is true under the definitions.
pub(crate) fn check_model(
    alloc: Global,
    script: &Script,
    definitions: &[Definition],
    nodes: u32,
) -> Result<Verdict, Memory>
    requires legal { IsLegalScript script.now }
    requires normal { IsNormalScript script.now }
    requires defined { DefinesEach 0 script.now.preds definitions.now }
    requires formulas { AreFormulas script.now.preds definitions.now }
    requires some { 0 < nodes }
    ensures { IfOk result (Says nodes script.now (Sat definitions.now)) }
{
    count_all(script, definitions);
    let clauses = clauses_of(alloc, script)?;
    let tables = tables_of(alloc, script.preds.as_slice(), &script.terms)?;
    for (index, clause) in clauses.iter().enumerate() {
        let number = index as u32 + 1;
        let found = judged(alloc, script, &tables, definitions, nodes, number, clause)?;
        if let Some(verdict) = found {
            return Ok(verdict);
        }
    }
    Ok(Verdict::Valid)
}
