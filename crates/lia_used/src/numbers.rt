//! Numbers of lemmas, and the lemmas of these numbers.

ghost use Rattle.std.specs.Prelude.{◌≡◌, ◌∷◌, ◌++◌, ◌+◌, [], IfOk, OnOk, length, map};
ghost use Rattle.lin_atoms.specs.declared.form.Form.TheViews.{And};
ghost use Rattle.lia_used.specs.Used.{AreNumbers, lemma_at};

use crate::uses::Uses;
use base::{Copied, Items, Memory};
use lin_atoms::Form;
use std::alloc::Global;

/// Puts the number behind others.
fn push_number(numbers: &mut Vec<u32>, number: usize) -> Result<(), Memory>
    ensures { OnOk result (numbers.new.items ≡ numbers.old.items ++ number ∷ []) }
{
    match u32::try_from(number) {
        Ok(number) => {
            numbers.push(number)?;
            Ok(())
        }
        Err(_) => Err(Memory),
    }
}

/// Puts the number of a lemma behind those of lemmas before it, where it is used.
fn push_used(uses: &Uses, numbers: &mut Vec<u32>, lemma: usize) -> Result<(), Memory>
    requires { AreNumbers lemma numbers.old.items }
    ensures { OnOk result (AreNumbers (lemma + 1) numbers.new.items) }
{
    if uses.has_lemma(lemma) {
        push_number(numbers, lemma)?;
    }
    Ok(())
}

/// The numbers of the lemmas that are used.
pub(crate) fn used_numbers(alloc: Global, uses: &Uses, lemmas: &[Form]) -> Result<Vec<u32>, Memory>
    ensures { IfOk result (λ numbers. AreNumbers (length lemmas.now) numbers.items) }
{
    let mut numbers = Vec::new(alloc);
    for (i, _) in lemmas.iter().enumerate() {
        push_used(uses, &mut numbers, i)?;
    }
    Ok(numbers)
}

/// The numbers of all lemmas.
pub(crate) fn all_numbers(alloc: Global, lemmas: &[Form]) -> Result<Vec<u32>, Memory>
    ensures numbers { IfOk result (λ numbers. AreNumbers (length lemmas.now) numbers.items) }
    ensures all { IfOk result (λ numbers. map (lemma_at lemmas.now) numbers.items ≡ lemmas.now) }
{
    let mut numbers = Vec::new(alloc);
    for (i, _) in lemmas.iter().enumerate() {
        push_number(&mut numbers, i)?;
    }
    Ok(numbers)
}

/// A copy of the lemma.
fn copy_at(alloc: Global, lemmas: &[Form], number: u32) -> Result<Form, Memory>
    ensures { IfOk result (λ lemma. lemma ≡ lemma_at lemmas.now number) }
{
    match lemmas.get(number as usize) {
        Some(lemma) => lemma.copy(alloc),
        None => Ok(Form::True),
    }
}

/// The conjunction of the formula and of the lemmas of the numbers, in order.
pub(crate) fn conjunction(
    alloc: Global,
    form: &Form,
    lemmas: &[Form],
    numbers: &[u32],
) -> Result<Form, Memory>
    ensures { IfOk result (λ whole. whole ≡ And (form.now ∷ map (lemma_at lemmas.now) numbers.now)) }
{
    let mut parts = Items::new(alloc);
    parts.push(form.copy(alloc)?)?;
    for number in numbers {
        parts.push(copy_at(alloc, lemmas, *number)?)?;
    }
    Ok(Form::And(parts))
}
