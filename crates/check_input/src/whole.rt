//! Whole inputs.

ghost use Rattle.std.specs.Prelude.{◌≡◌, ◌<◌, ◌≤◌, length, Ok, IfOk};
ghost use Rattle.base.specs.Limits.{most_bytes};
ghost use Rattle.horn_shape.specs.Clause.{IsLegalScript};
ghost use Rattle.sort_check.specs.Checked.{IsCheckedText};
ghost use Rattle.clause_form.specs.System.{Clauses};
ghost use Rattle.clause_normal.specs.Reading.{system_reading};
ghost use Rattle.check_input.specs.Inputs.{IsReadAs, TellsInput};

use crate::outcome::Outcome;
use crate::parts::parts_of;
use crate::text::text_of;
use base::Memory;
use chc_checker::{check_text as check_answer_text, systems_can_be_checked};
use clause_normal::{ClauseStop, read_clauses};
use sort_check::{assertions_are_legal, check_text, scripts_are_within_limits};
use std::alloc::Global;
use term_tree::Checked;

/// The script of a text, up to the first command that is illegal by itself.
fn checked(alloc: Global, text: &[u8]) -> Result<Checked, Memory>
    requires { length text.now ≤ most_bytes }
    ensures legal { IfOk result (λ checked. IsLegalScript checked.script) }
    ensures read { IfOk result (IsCheckedText text.now) }
{
    let checked = check_text(alloc, text)?;
    checked.script.terms.arena_law();
    assertions_are_legal();
    scripts_are_within_limits();
    Ok(checked)
}

/// The verdict on the answer that begins at `start` of the input, and its text.
fn judged(
    alloc: Global,
    input: &[u8],
    script: usize,
    start: usize,
    checked: &Checked,
    nodes: u32,
) -> Result<Outcome, Memory>
    requires short { length input.now ≤ most_bytes }
    requires within { start ≤ length input.now }
    requires legal { IsLegalScript checked.now.script }
    requires read_as { IsReadAs input.now script start checked.now }
    requires accepted { (system : Clauses) × (system_reading checked.now ≡ Ok system) }
    requires some { 0 < nodes }
    ensures { IfOk result (TellsInput nodes input.now) }
{
    let _script = script;
    systems_can_be_checked();
    let verdict = check_answer_text(alloc, &checked.script, &input[start..], nodes)?;
    let text = text_of(alloc, &checked.script, start as u64, &verdict)?;
    Ok(Outcome::Judged { verdict, text })
}

/// What is found of an input of at most 2^24 bytes: the refusal of its script, or the verdict on its
/// answer, and the verdict's text. Forms are given up after `nodes` inner nodes of a split tree, at
/// least 1.
pub fn check_whole_input(alloc: Global, input: &[u8], nodes: u32) -> Result<Outcome, Memory>
    requires short { length input.now ≤ most_bytes }
    requires some { 0 < nodes }
    ensures { IfOk result (TellsInput nodes input.now) }
{
    let parts = parts_of(input);
    let checked = checked(alloc, &input[..parts.script])?;
    match read_clauses(alloc, &checked) {
        Ok(_) => judged(alloc, input, parts.script, parts.answer, &checked, nodes),
        Err(ClauseStop::Refused(refusal)) => Ok(Outcome::Refused(refusal)),
        Err(ClauseStop::Memory) => Err(Memory),
    }
}
