//! Verdicts in words.

use crate::verdicts::verdict;
use base::Memory;
use chc_checker::{Hidden, Place, Verdict};
use std::alloc::Global;
use std::process::Abort;

/// Integers behind one another.
fn listed(alloc: Global, numbers: &[i64]) -> Result<String, Memory> {
    let mut text = String::new(alloc);
    for number in numbers {
        let one = format!(in alloc; " {number}")?;
        text.push_str(one.as_str())?;
    }
    Ok(text)
}

fn place_told(alloc: Global, place: &Place) -> Result<String, Memory> {
    match place {
        Place::Byte(offset) => Ok(format!(in alloc; "wrong at byte {offset}")?),
        Place::Step(step) => Ok(format!(in alloc; "wrong at step {step}")?),
        Place::Instance { assertion, values } => {
            let values = listed(alloc, values.as_slice())?;
            Ok(format!(in alloc; "assertion {assertion} is false at{values}")?)
        }
    }
}

fn verdict_told(alloc: Global, verdict: &Verdict) -> Result<String, Memory> {
    match verdict {
        Verdict::Valid => Ok(String::from_str(alloc, "valid")?),
        Verdict::Wrong { place } => place_told(alloc, place),
        Verdict::NotShown { place, .. } => match place {
            Hidden::Assertion(number) => Ok(format!(in alloc; "assertion {number} isn't shown")?),
            Hidden::Step(number) => Ok(format!(in alloc; "step {number} isn't shown")?),
        },
    }
}

/// The verdict in words.
pub(crate) fn told(alloc: Global, text: &str, answer: &str, nodes: u32) -> Result<String, Memory> {
    let (text, answer) = (text.as_bytes(), answer.as_bytes());
    if text.len() > 10000 || answer.len() > 10000 || nodes == 0 {
        return Ok(String::from_str(alloc, "too long")?);
    }
    match verdict(alloc, text, answer, nodes)? {
        None => Ok(String::from_str(alloc, "no script")?),
        Some(found) => verdict_told(alloc, &found),
    }
}

/// The verdict on the answer is this one, where forms are given up after `nodes` inner nodes.
pub(crate) fn check(
    rt: &impl Abort,
    alloc: Global,
    text: &str,
    answer: &str,
    nodes: u32,
    awaited: &str,
) {
    let told = told(alloc, text, answer, nodes).expect(rt, "memory");
    assert_eq!(rt; told.as_str(), awaited, "{answer}");
}
