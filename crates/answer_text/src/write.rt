//! Whole answers.

ghost use Rattle.std.specs.Prelude.{◌≡◌, ◌++◌, IfOk, OnOk};
ghost use Rattle.std.specs.List.{flat_map};
ghost use Rattle.answer_text.specs.AnswerTexts.{definition_text, step_text, answer_text};
ghost use Rattle.answer_text.specs.Lines.{level_text};
ghost use Rattle.answer_text.specs.Printable.{IsPrintable, IsAnswerText};

use crate::answer::{Answer, Line, UnknownCause};
use crate::derivation::push_step;
use crate::notices::level_line;
use crate::printed_model::push_definition;
use base::{Items, Memory};
use std::alloc::Global;
use term_tree::{Definition, Pred, Script};

/// The text of an answer to the script, in time and memory that are linear in the text.
pub fn write_answer(alloc: Global, script: &Script, answer: &Answer) -> Result<Vec<u8>, Memory>
    ensures text { IfOk result (λ text. text.items ≡ answer_text script.now.preds answer.now) }
    ensures spelling { IfOk result (λ text. IsPrintable script.now.preds answer.now → IsAnswerText script.now.preds answer.now text.items) }
{
    let text = text_of(alloc, script, answer)?;
    Ok(text)
}

fn text_of(alloc: Global, script: &Script, answer: &Answer) -> Result<Vec<u8>, Memory>
    ensures { IfOk result (λ text. text.items ≡ answer_text script.now.preds answer.now) }
{
    let mut text = Vec::new(alloc);
    match answer {
        Answer::Sat(definitions) => {
            text.extend_from_slice(b"sat\n(\n")?;
            push_definitions(&mut text, &script.preds, definitions.as_slice())?;
            text.extend_from_slice(b")\n")?;
        }
        Answer::Unsat(lines) => {
            text.extend_from_slice(b"unsat\n(derivation\n")?;
            push_steps(&mut text, &script.preds, lines.as_slice())?;
            text.extend_from_slice(b")\n")?;
        }
        Answer::Unknown { level, cause } => {
            text.extend_from_slice(b"unknown\n")?;
            push_level(&mut text, *level, *cause)?;
        }
    }
    Ok(text)
}

fn push_definitions(
    out: &mut Vec<u8>,
    preds: &Items<Pred>,
    definitions: &[Definition],
) -> Result<(), Memory>
    ensures { OnOk result (out.new.items ≡ out.old.items ++ flat_map (definition_text preds.now) definitions.now) }
{
    for definition in definitions {
        push_definition(out, preds, definition)?;
    }
    Ok(())
}

fn push_steps(out: &mut Vec<u8>, preds: &Items<Pred>, lines: &[Line]) -> Result<(), Memory>
    ensures { OnOk result (out.new.items ≡ out.old.items ++ flat_map (step_text preds.now) lines.now) }
{
    for line in lines {
        push_step(out, preds, line)?;
    }
    Ok(())
}

fn push_level(out: &mut Vec<u8>, level: u32, cause: UnknownCause) -> Result<(), Memory>
    ensures { OnOk result (out.new.items ≡ out.old.items ++ level_text level cause) }
{
    let mut line = [0; 64];
    let length = level_line(level, cause, &mut line);
    out.extend_from_slice(&line[..length])?;
    Ok(())
}
