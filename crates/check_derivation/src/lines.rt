//! The lines of a derivation, one after another.

ghost use Rattle.std.specs.Prelude.{◌≡◌, ℕ, suc, length, IfOk, Some};
ghost use Rattle.horn_shape.specs.Clause.{IsClauseOf, IsLegalScript};
ghost use Rattle.check_derivation.specs.Findings.{AreRightBefore, Finds, IsHornScript, IsLineReached};
ghost use Rattle.check_derivation.specs.machinery.Tests.{AreClausesOf, IsJudged, unless_right};

use crate::clauses::clauses_of;
use crate::finding::Finding;
use crate::step::is_right;
use answer_text::Line;
use base::Memory;
use horn_shape::HornClause;
use std::alloc::Global;
use term_tree::{Script, ValueStop};

fn unless_right(right: bool, number: u64) -> Option<Finding>
    ensures { result ≡ unless_right right number }
{
    if right {
        None
    } else {
        Some(Finding::WrongAt(number))
    }
}

/// What is found at the step of that number, by the clause of the assertion that it names; nothing
/// where it is right.
fn judged_by(
    alloc: Global,
    script: &Script,
    lines: &[Line],
    number: u64,
    line: &Line,
    clause: &HornClause,
) -> Result<Option<Finding>, Memory>
    requires legal { IsLegalScript script.now }
    requires reached { IsLineReached script.now lines.now number line.now }
    requires clause { (index : ℕ) × (line.now.assertion ≡ suc index) × IsClauseOf script.now index clause.now }
    ensures { IfOk result (IsJudged script.now lines.now number line.now) }
{
    script.terms.arena_law();
    match is_right(alloc, &script.terms, lines, number, line, clause) {
        Ok(right) => Ok(unless_right(right, number)),
        Err(ValueStop::ValueWide { term }) => Ok(Some(Finding::WideAt { step: number, term })),
        Err(ValueStop::Memory) => Err(Memory),
    }
}

/// What is found at the step of that number; nothing where it is right.
fn judged(
    alloc: Global,
    script: &Script,
    clauses: &[HornClause],
    lines: &[Line],
    number: u64,
    line: &Line,
) -> Result<Option<Finding>, Memory>
    requires legal { IsLegalScript script.now }
    requires clauses { AreClausesOf script.now clauses.now }
    requires reached { IsLineReached script.now lines.now number line.now }
    ensures { IfOk result (IsJudged script.now lines.now number line.now) }
{
    if line.assertion == 0 {
        return Ok(Some(Finding::WrongAt(number)));
    }
    if line.assertion > clauses.len() as u64 {
        return Ok(Some(Finding::WrongAt(number)));
    }
    let clause = &clauses[line.assertion as usize - 1];
    judged_by(alloc, script, lines, number, line, clause)
}

/// What is found of lines that are all right.
fn ended(lines: &[Line]) -> Finding
    ensures { (script : Script) → AreRightBefore script lines.now (length lines.now) → Finds script lines.now result }
{
    let count = lines.len();
    if count == 0 {
        return Finding::WrongAt(0);
    }
    let last = &lines[count - 1];
    if last.head.is_some() {
        return Finding::WrongAt(count as u64);
    }
    Finding::Derives
}

/// Whether the lines of an answer are a derivation of false by the assertions of the script, and where
/// not. Steps are taken in order, and the first that isn't right decides; the values of its terms are
/// exact up to 128 bits. The time is linear in the sizes of the script and of the evaluated terms.
pub fn check_derivation(alloc: Global, script: &Script, lines: &[Line]) -> Result<Finding, Memory>
    requires legal { IsLegalScript script.now }
    requires horn { IsHornScript script.now }
    ensures { IfOk result (Finds script.now lines.now) }
{
    let clauses = clauses_of(alloc, script)?;
    for (place, line) in lines.iter().enumerate() {
        let number = place as u64 + 1;
        let found = judged(alloc, script, clauses.as_slice(), lines, number, line)?;
        if let Some(finding) = found {
            return Ok(finding);
        }
    }
    Ok(ended(lines))
}
