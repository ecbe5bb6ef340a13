//! The steps of a derivation.

ghost use Rattle.std.specs.Prelude.{◌≡◌, ◌++◌, OnOk};
ghost use Rattle.answer_text.specs.AnswerTexts.{pred_text, atom_text, conclusion_text, step_numbers, step_lists, step_text};

use crate::answer::Line;
use crate::pieces::{push_after_spaces, push_numeral, push_numerals, push_values};
use crate::printed_model::push_pred;
use base::{Items, Memory};
use term_tree::{Pred, Value};

fn push_atom(
    out: &mut Vec<u8>,
    preds: &Items<Pred>,
    pred: u32,
    values: &[Value],
) -> Result<(), Memory>
    ensures { OnOk result (out.new.items ≡ out.old.items ++ atom_text (pred_text preds.now pred) values.now) }
{
    if let [] = values {
        push_pred(out, preds, pred)?;
    } else {
        out.extend_from_slice(b"(")?;
        push_pred(out, preds, pred)?;
        push_after_spaces(out, values)?;
        out.extend_from_slice(b")")?;
    }
    Ok(())
}

fn push_conclusion(
    out: &mut Vec<u8>,
    preds: &Items<Pred>,
    head: &Option<(u32, Items<Value>)>,
) -> Result<(), Memory>
    ensures { OnOk result (out.new.items ≡ out.old.items ++ conclusion_text preds.now head.now) }
{
    match head {
        None => out.extend_from_slice(b"false")?,
        Some((pred, values)) => push_atom(out, preds, *pred, values.as_slice())?,
    }
    Ok(())
}

fn push_numbers(out: &mut Vec<u8>, line: &Line) -> Result<(), Memory>
    ensures { OnOk result (out.new.items ≡ out.old.items ++ step_numbers line.now) }
{
    out.extend_from_slice(b"(step ")?;
    push_numeral(out, line.number)?;
    out.extend_from_slice(b" ")?;
    push_numeral(out, line.assertion)?;
    Ok(())
}

fn push_lists(out: &mut Vec<u8>, line: &Line) -> Result<(), Memory>
    ensures { OnOk result (out.new.items ≡ out.old.items ++ step_lists line.now) }
{
    out.extend_from_slice(b" (")?;
    push_values(out, line.values.as_slice())?;
    out.extend_from_slice(b") (")?;
    push_numerals(out, line.premises.as_slice())?;
    out.extend_from_slice(b") ")?;
    Ok(())
}

/// The line of a step.
pub fn push_step(out: &mut Vec<u8>, preds: &Items<Pred>, line: &Line) -> Result<(), Memory>
    ensures { OnOk result (out.new.items ≡ out.old.items ++ step_text preds.now line.now) }
{
    push_numbers(out, line)?;
    push_lists(out, line)?;
    push_conclusion(out, preds, &line.head)?;
    out.extend_from_slice(b")\n")?;
    Ok(())
}
