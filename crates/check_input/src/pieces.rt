//! Numbers and values, printed.

ghost use Rattle.std.specs.Prelude.{◌≡◌, ◌<◌, ◌+◌, ◌++◌, decimal, length, nat_abs, pos, slice_index_or, IfOk, OnOk};
ghost use Rattle.term_tree.specs.Truth.{as_value, as_values};
ghost use Rattle.answer_text.specs.Names.{after_spaces, number_text, spaced, truth_text, value_text};

use base::Memory;
use itoa::Buffer;
use std::alloc::Global;
use term_tree::{Sort, Value};

pub(crate) fn push_numeral(out: &mut Vec<u8>, number: u64) -> Result<(), Memory>
    ensures { OnOk result (out.new.items ≡ out.old.items ++ decimal number) }
{
    let mut buffer = Buffer::new();
    out.extend_from_slice(buffer.format(number).as_bytes())?;
    Ok(())
}

pub(crate) fn push_short(out: &mut Vec<u8>, number: u32) -> Result<(), Memory>
    ensures { OnOk result (out.new.items ≡ out.old.items ++ decimal number) }
{
    let mut buffer = Buffer::new();
    out.extend_from_slice(buffer.format(number).as_bytes())?;
    Ok(())
}

/// The sum of the two, which may have more than 64 bits.
pub(crate) fn push_sum(out: &mut Vec<u8>, start: u64, offset: u64) -> Result<(), Memory>
    ensures { OnOk result (out.new.items ≡ out.old.items ++ decimal (start + offset)) }
{
    let sum = u128::from(start) + u128::from(offset);
    let mut buffer = Buffer::new();
    out.extend_from_slice(buffer.format(sum).as_bytes())?;
    Ok(())
}

fn push_magnitude(out: &mut Vec<u8>, number: i128) -> Result<(), Memory>
    ensures { OnOk result (out.new.items ≡ out.old.items ++ decimal (nat_abs number)) }
{
    let mut buffer = Buffer::new();
    out.extend_from_slice(buffer.format(number.unsigned_abs()).as_bytes())?;
    Ok(())
}

#[tactic(auto, unfolding(answer_text::specs::Names::number_text))]
fn push_integer(out: &mut Vec<u8>, number: i128) -> Result<(), Memory>
    ensures { OnOk result (out.new.items ≡ out.old.items ++ number_text number) }
{
    if number < 0 {
        out.extend_from_slice(b"(- ")?;
        push_magnitude(out, number)?;
        out.extend_from_slice(b")")?;
    } else {
        push_magnitude(out, number)?;
    }
    Ok(())
}

fn truth_word(truth: bool) -> &'static [u8]
    ensures { result.now ≡ truth_text truth }
{
    if truth { b"true" } else { b"false" }
}

fn push_value(out: &mut Vec<u8>, value: Value) -> Result<(), Memory>
    ensures { OnOk result (out.new.items ≡ out.old.items ++ value_text value) }
{
    match value {
        Value::Int(number) => push_integer(out, number)?,
        Value::Bool(truth) => out.extend_from_slice(truth_word(truth))?,
    }
    Ok(())
}

fn push_after_spaces(out: &mut Vec<u8>, values: &[Value]) -> Result<(), Memory>
    ensures { OnOk result (out.new.items ≡ out.old.items ++ after_spaces value_text values.now) }
{
    for value in values {
        out.extend_from_slice(b" ")?;
        push_value(out, *value)?;
    }
    Ok(())
}

/// The values with one space between them.
pub(crate) fn push_values(out: &mut Vec<u8>, values: &[Value]) -> Result<(), Memory>
    ensures { OnOk result (out.new.items ≡ out.old.items ++ spaced value_text values.now) }
{
    if let [first, rest @ ..] = values {
        push_value(out, *first)?;
        push_after_spaces(out, rest)?;
    }
    Ok(())
}

fn value_at(sort: Sort, number: i64) -> Value
    ensures { result ≡ as_value sort number }
{
    match sort {
        Sort::Int => Value::Int(i128::from(number)),
        Sort::Bool => Value::Bool(number == 1),
    }
}

fn number_at(numbers: &[i64], i: usize) -> i64
    requires { i < length numbers.now }
    ensures { result ≡ slice_index_or numbers.now i (pos 0) }
{
    numbers[i]
}

/// Integers as values of the sorts, as far as both go.
pub(crate) fn values_at(
    alloc: Global,
    sorts: &[Sort],
    numbers: &[i64],
) -> Result<Vec<Value>, Memory>
    ensures { IfOk result (λ values. values.items ≡ as_values sorts.now numbers.now) }
{
    let mut values = Vec::new(alloc);
    for (i, sort) in sorts.iter().enumerate() {
        if i >= numbers.len() {
            return Ok(values);
        }
        let value = value_at(*sort, number_at(numbers, i));
        values.push(value)?;
    }
    Ok(values)
}
