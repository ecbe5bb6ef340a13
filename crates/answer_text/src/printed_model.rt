//! A model: each predicate with its defining term.

ghost use Rattle.std.specs.Prelude.{◌≡◌, ◌++◌, OnOk, codes, slice_get};
ghost use Rattle.term_check.specs.Spelling.{sorts_of};
ghost use Rattle.answer_text.specs.Terms.{term_text};
ghost use Rattle.answer_text.specs.AnswerTexts.{declared_name, pred_text, sort_text, parameter_text, parameters_text, definition_head, definition_text};

use crate::names::push_name;
use crate::term::{push_parameter_name, push_term};
use base::{Items, Memory};
use term_tree::{Definition, Pred, Sort, TermId, Terms};

fn name_of(preds: &Items<Pred>, number: u32) -> &[u8]
    ensures { result.now ≡ declared_name (slice_get preds.now number) }
{
    match preds.get(number as usize) {
        Some(pred) => pred.name.bytes.as_slice(),
        None => &[],
    }
}

fn sorts_of(preds: &Items<Pred>, number: u32) -> &[Sort]
    ensures { result.now ≡ sorts_of preds.now number }
{
    match preds.get(number as usize) {
        Some(pred) => pred.args.as_slice(),
        None => &[],
    }
}

/// The name of the predicate of that number.
pub fn push_pred(out: &mut Vec<u8>, preds: &Items<Pred>, number: u32) -> Result<(), Memory>
    ensures { OnOk result (out.new.items ≡ out.old.items ++ pred_text preds.now number) }
{
    push_name(out, name_of(preds, number))?;
    Ok(())
}

fn sort_word(sort: Sort) -> &'static [u8]
    ensures { result.now ≡ sort_text sort }
{
    match sort {
        Sort::Int => b"Int",
        Sort::Bool => b"Bool",
    }
}

fn push_parameter(out: &mut Vec<u8>, number: usize, sort: Sort) -> Result<(), Memory>
    ensures { OnOk result (out.new.items ≡ out.old.items ++ parameter_text (number, sort)) }
{
    out.extend_from_slice(b"(")?;
    push_parameter_name(out, number as u64)?;
    out.extend_from_slice(b" ")?;
    out.extend_from_slice(sort_word(sort))?;
    out.extend_from_slice(b")")?;
    Ok(())
}

fn push_spaced_parameter(out: &mut Vec<u8>, number: usize, sort: Sort) -> Result<(), Memory>
    ensures { OnOk result (out.new.items ≡ out.old.items ++ (codes " " ++ parameter_text (number, sort))) }
{
    out.extend_from_slice(b" ")?;
    push_parameter(out, number, sort)?;
    Ok(())
}

fn push_parameters(out: &mut Vec<u8>, sorts: &[Sort]) -> Result<(), Memory>
    ensures { OnOk result (out.new.items ≡ out.old.items ++ parameters_text sorts.now) }
{
    if let [first, rest @ ..] = sorts {
        push_parameter(out, 0, *first)?;
        for (i, sort) in rest.iter().enumerate() {
            push_spaced_parameter(out, i + 1, *sort)?;
        }
    }
    Ok(())
}

/// A term, or nothing where there is none of that number.
fn push_body(out: &mut Vec<u8>, terms: &Terms, id: TermId) -> Result<(), Memory>
    ensures { OnOk result (out.new.items ≡ out.old.items ++ term_text terms.now.nodes id.0) }
{
    if (id.0 as usize) < terms.len() {
        push_term(out, terms, id)?;
    }
    Ok(())
}

fn push_head(out: &mut Vec<u8>, preds: &Items<Pred>, pred: u32) -> Result<(), Memory>
    ensures { OnOk result (out.new.items ≡ out.old.items ++ definition_head preds.now pred) }
{
    out.extend_from_slice(b"(define-fun ")?;
    push_pred(out, preds, pred)?;
    out.extend_from_slice(b" (")?;
    push_parameters(out, sorts_of(preds, pred))?;
    out.extend_from_slice(b") Bool ")?;
    Ok(())
}

/// The line of a definition.
#[tactic(auto, unfolding(crate::specs::AnswerTexts::definition_text))]
pub fn push_definition(
    out: &mut Vec<u8>,
    preds: &Items<Pred>,
    definition: &Definition,
) -> Result<(), Memory>
    ensures { OnOk result (out.new.items ≡ out.old.items ++ definition_text preds.now definition.now) }
{
    push_head(out, preds, definition.pred)?;
    push_body(out, &definition.terms, definition.body)?;
    out.extend_from_slice(b")\n")?;
    Ok(())
}
