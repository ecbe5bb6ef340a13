//! Whole answers.

ghost use Rattle.std.specs.Prelude.{◌≡◌, ◌<◌, ◌^◌, ℕ, List, IfOk, length};
ghost use Rattle.term_tree.specs.declared.script.Script.{Script as AScript};
ghost use Rattle.horn_shape.specs.Clause.{IsLegalScript};
ghost use Rattle.answer_text.specs.declared.stop.AnswerStop.TheVariants.{BadAnswer};
ghost use Rattle.answer_text.specs.Read.{IsBad, Spells};
ghost use Rattle.chc_checker.specs.Verdicts.{IsCheckable, IsNormalScript, Judges, Says};

use crate::derivation::check_steps;
use crate::model::check_model;
use crate::reading::is_checkable;
use crate::verdict::{Place, Verdict};
use answer_text::{Answer, AnswerStop, read_answer};
use base::Memory;
use std::alloc::Global;
use term_tree::Script;

/// Whether an answer to the script is right. Assertions and steps are taken in order, and the first
/// that isn't right, or can't be told, decides. The formula of the instances that make an assertion
/// false is given up after `nodes` inner nodes of a split tree, at least 1; the values of a step's terms
/// are exact up to 128 bits.
pub fn check_answer(
    alloc: Global,
    script: &Script,
    answer: &Answer,
    nodes: u32,
) -> Result<Verdict, Memory>
    requires legal { IsLegalScript script.now }
    requires normal { IsNormalScript script.now }
    requires answer { IsCheckable script.now answer.now }
    requires some { 0 < nodes }
    ensures { IfOk result (Says nodes script.now answer.now) }
{
    match answer {
        Answer::Sat(definitions) => check_model(alloc, script, definitions.as_slice(), nodes),
        Answer::Unsat(lines) => check_steps(alloc, script, lines.as_slice()),
        Answer::Unknown { .. } => unreachable!(),
    }
}

/// The verdict on an answer that the text spells.
fn judged(
    alloc: Global,
    script: &Script,
    text: &[u8],
    answer: &Answer,
    nodes: u32,
) -> Result<Verdict, Memory>
    requires legal { IsLegalScript script.now }
    requires normal { IsNormalScript script.now }
    requires spelled { Spells script.now.preds text.now answer.now }
    requires some { 0 < nodes }
    ensures { IfOk result (Judges nodes script.now text.now) }
{
    let _text = text;
    is_checkable(script, answer);
    let verdict = check_answer(alloc, script, answer, nodes)?;
    Ok(verdict)
}

/// The verdict on a text that spells no answer, by its first fault.
fn wrong_at(offset: u64) -> Verdict
    ensures { (nodes : ℕ) (script : AScript) (text : List ℕ) → IsBad script.preds text offset → Judges nodes script text result }
{
    Verdict::Wrong {
        place: Place::Byte(offset),
    }
}

/// The verdict on a text that gave no answer.
fn stopped(stop: AnswerStop) -> Result<Verdict, Memory>
    ensures { (nodes : ℕ) (script : AScript) (text : List ℕ) → ((offset : ℕ) → stop ≡ BadAnswer offset → IsBad script.preds text offset) → IfOk result (Judges nodes script text) }
{
    match stop {
        AnswerStop::BadAnswer { offset } => Ok(wrong_at(offset)),
        AnswerStop::Memory => Err(Memory),
    }
}

/// Whether a text is a right answer to the script: `check_answer` of the sat or unsat answer that it
/// spells, or wrong at its first fault. Bytes count from the start of the text.
pub fn check_text(
    alloc: Global,
    script: &Script,
    text: &[u8],
    nodes: u32,
) -> Result<Verdict, Memory>
    requires legal { IsLegalScript script.now }
    requires normal { IsNormalScript script.now }
    requires short { length text.now < 2 ^ 32 }
    requires some { 0 < nodes }
    ensures { IfOk result (Judges nodes script.now text.now) }
{
    match read_answer(alloc, script, text) {
        Ok(answer) => judged(alloc, script, text, &answer, nodes),
        Err(stop) => stopped(stop),
    }
}
