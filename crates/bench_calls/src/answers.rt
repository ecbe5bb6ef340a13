//! For `bench/answer_text.sh`: a derivation is made, printed and read back.

use answer_text::{Answer, Line, push_parameter_name, read_answer, write_answer};
use base::{Items, Memory};
use std::alloc::Global;
use term_tree::{Name, Pred, Script, Sort, Terms, Value};

/// How many predicates are declared, each of two numbers.
const PREDS: u64 = 4096;

fn pred(alloc: Global, number: u64) -> Result<Pred, Memory> {
    let mut bytes = Vec::new(alloc);
    push_parameter_name(&mut bytes, number)?;
    let args = Items::from_slice(alloc, &[Sort::Int, Sort::Int])?;
    Ok(Pred {
        name: Name {
            bytes: Items::from_vec(bytes),
        },
        args,
    })
}

fn script(alloc: Global) -> Result<Script, Memory> {
    let mut preds = Vec::new(alloc);
    for number in 0..PREDS {
        preds.push(pred(alloc, number)?)?;
    }
    Ok(Script {
        preds: Items::from_vec(preds),
        asserts: Items::new(alloc),
        terms: Terms::new(alloc),
    })
}

/// A step from the one before, of a predicate that changes from step to step.
fn line(alloc: Global, number: u32) -> Result<Line, Memory> {
    let pred = number.wrapping_mul(1_103_515_245) % 4096;
    let value = i128::from(number);
    let values = Items::from_slice(alloc, &[Value::Int(value), Value::Int(-value)])?;
    let arguments = Items::from_slice(alloc, &[Value::Int(value), Value::Int(-value)])?;
    let premises = Items::from_slice(alloc, &[u64::from(number)])?;
    Ok(Line {
        number: u64::from(number).wrapping_add(1),
        assertion: 2,
        values,
        premises,
        head: Some((pred, arguments)),
    })
}

fn derivation(alloc: Global, steps: u32) -> Result<Answer, Memory> {
    let mut lines = Vec::new(alloc);
    for number in 0..steps {
        lines.push(line(alloc, number)?)?;
    }
    Ok(Answer::Unsat(Items::from_vec(lines)))
}

fn printed(alloc: Global, steps: u32) -> Result<u64, Memory> {
    let script = script(alloc)?;
    let answer = derivation(alloc, steps)?;
    let text = write_answer(alloc, &script, &answer)?;
    Ok(text.len() as u64)
}

fn lines_of(answer: &Answer) -> u64 {
    match answer {
        Answer::Unsat(lines) => lines.as_slice().len() as u64,
        _ => 0,
    }
}

fn read_back(alloc: Global, steps: u32) -> Result<u64, Memory> {
    let script = script(alloc)?;
    let answer = derivation(alloc, steps)?;
    let text = write_answer(alloc, &script, &answer)?;
    if text.len() >= 1 << 32 || script.preds.len() >= 1 << 32 {
        return Ok(0);
    }
    match read_answer(alloc, &script, text.as_slice()) {
        Ok(again) => Ok(lines_of(&again)),
        Err(_) => Ok(0),
    }
}

/// The bytes of a derivation of `steps` steps, made and printed; 0 for want of memory.
#[unsafe(no_mangle)]
pub extern "C" fn answer_text_printed(alloc: Global, steps: u32) -> u64 {
    match printed(alloc, steps) {
        Ok(bytes) => bytes,
        Err(_) => 0,
    }
}

/// The steps that were read of a derivation of `steps` steps, made, printed and read back; 0 for
/// want of memory.
#[unsafe(no_mangle)]
pub extern "C" fn answer_text_read_back(alloc: Global, steps: u32) -> u64 {
    match read_back(alloc, steps) {
        Ok(lines) => lines,
        Err(_) => 0,
    }
}
