//! Numbers, values and lists of them.

ghost use Rattle.std.specs.Prelude.{◌≡◌, ◌++◌, decimal, nat_abs, OnOk};
ghost use Rattle.answer_text.specs.Names.{number_text, truth_text, value_text, after_spaces, spaced};

use base::Memory;
use itoa::Buffer;
use term_tree::Value;

pub fn push_numeral(out: &mut Vec<u8>, number: u64) -> Result<(), Memory>
    ensures { OnOk result (out.new.items ≡ out.old.items ++ decimal number) }
{
    let mut buffer = Buffer::new();
    out.extend_from_slice(buffer.format(number).as_bytes())?;
    Ok(())
}

fn push_magnitude(out: &mut Vec<u8>, number: i128) -> Result<(), Memory>
    ensures { OnOk result (out.new.items ≡ out.old.items ++ decimal (nat_abs number)) }
{
    let mut buffer = Buffer::new();
    out.extend_from_slice(buffer.format(number.unsigned_abs()).as_bytes())?;
    Ok(())
}

#[tactic(auto, unfolding(crate::specs::Names::number_text))]
pub fn push_integer(out: &mut Vec<u8>, number: i128) -> Result<(), Memory>
    ensures { OnOk result (out.new.items ≡ out.old.items ++ number_text number) }
{
    if number < 0 {
        out.extend_from_slice(b"(- ")?;
        push_magnitude(out, number)?;
        out.extend_from_slice(b")")?;
    } else {
        push_magnitude(out, number)?;
    }
    Ok(())
}

fn truth_word(truth: bool) -> &'static [u8]
    ensures { result.now ≡ truth_text truth }
{
    if truth { b"true" } else { b"false" }
}

fn push_value(out: &mut Vec<u8>, value: Value) -> Result<(), Memory>
    ensures { OnOk result (out.new.items ≡ out.old.items ++ value_text value) }
{
    match value {
        Value::Int(number) => push_integer(out, number)?,
        Value::Bool(truth) => out.extend_from_slice(truth_word(truth))?,
    }
    Ok(())
}

/// Each value after a space.
pub fn push_after_spaces(out: &mut Vec<u8>, values: &[Value]) -> Result<(), Memory>
    ensures { OnOk result (out.new.items ≡ out.old.items ++ after_spaces value_text values.now) }
{
    for value in values {
        out.extend_from_slice(b" ")?;
        push_value(out, *value)?;
    }
    Ok(())
}

/// The values with one space between them.
pub fn push_values(out: &mut Vec<u8>, values: &[Value]) -> Result<(), Memory>
    ensures { OnOk result (out.new.items ≡ out.old.items ++ spaced value_text values.now) }
{
    if let [first, rest @ ..] = values {
        push_value(out, *first)?;
        push_after_spaces(out, rest)?;
    }
    Ok(())
}

fn push_more_numerals(out: &mut Vec<u8>, numbers: &[u64]) -> Result<(), Memory>
    ensures { OnOk result (out.new.items ≡ out.old.items ++ after_spaces decimal numbers.now) }
{
    for number in numbers {
        out.extend_from_slice(b" ")?;
        push_numeral(out, *number)?;
    }
    Ok(())
}

/// The numbers with one space between them.
pub fn push_numerals(out: &mut Vec<u8>, numbers: &[u64]) -> Result<(), Memory>
    ensures { OnOk result (out.new.items ≡ out.old.items ++ spaced decimal numbers.now) }
{
    if let [first, rest @ ..] = numbers {
        push_numeral(out, *first)?;
        push_more_numerals(out, rest)?;
    }
    Ok(())
}
