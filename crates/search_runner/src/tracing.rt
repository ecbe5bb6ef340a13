//! The instances on which false rests.

use base::Memory;
use run_clauses::{Derived, Tuples};
use std::alloc::Global;

/// An instance of a clause whose body tuples earlier instances give.
#[derive(Drop)]
pub struct Instance {
    /// The clause's number.
    pub clause: u32,
    /// The values of its variables.
    pub point: Vec<i64>,
    /// For each body atom the place of the instance that gives its tuple.
    pub premises: Vec<usize>,
    /// The predicate of the head, none for false.
    pub pred: Option<u32>,
    /// The head's tuple, empty for false.
    pub tuple: Vec<i64>,
}

fn mark(marks: &mut Vec<bool>, numbers: &[u32]) {
    for number in numbers {
        if let Some(own) = marks.as_mut_slice().get_mut(*number as usize) {
            *own = true;
        }
    }
}

fn is_marked(marks: &[bool], number: usize) -> bool {
    match marks.get(number) {
        Some(marked) => *marked,
        None => false,
    }
}

/// Marks what marked tuples rest on: premises have lower numbers.
fn spread(tuples: &Tuples, marks: &mut Vec<bool>) {
    let count = tuples.len();
    for back in 0..count {
        let number = count.saturating_sub(back).saturating_sub(1);
        if is_marked(marks.as_slice(), number) {
            if let Ok(number) = u32::try_from(number) {
                if let Some(one) = tuples.get(number) {
                    mark(marks, one.premises.as_slice());
                }
            }
        }
    }
}

/// For each marked number its place among them.
fn places_of(alloc: Global, marks: &[bool]) -> Result<Vec<usize>, Memory> {
    let mut places = Vec::with_capacity(alloc, marks.len())?;
    let mut next: usize = 0;
    for marked in marks {
        places.push(next)?;
        if *marked {
            next = next.saturating_add(1);
        }
    }
    Ok(places)
}

/// The places of numbers.
fn placed(alloc: Global, numbers: &[u32], places: &[usize]) -> Result<Vec<usize>, Memory> {
    let mut made = Vec::with_capacity(alloc, numbers.len())?;
    for number in numbers {
        if let Some(place) = places.get(*number as usize) {
            made.push(*place)?;
        }
    }
    Ok(made)
}

/// The instance that gave a tuple.
fn instance_of(alloc: Global, one: &Derived, places: &[usize]) -> Result<Instance, Memory> {
    Ok(Instance {
        clause: one.clause,
        point: Vec::from_slice(alloc, one.point.as_slice())?,
        premises: placed(alloc, one.premises.as_slice(), places)?,
        pred: Some(one.pred),
        tuple: Vec::from_slice(alloc, one.tuple.as_slice())?,
    })
}

/// The instances that gave the marked tuples.
fn instances(
    alloc: Global,
    tuples: &Tuples,
    marks: &[bool],
    places: &[usize],
) -> Result<Vec<Instance>, Memory> {
    let mut made = Vec::new(alloc);
    for (number, marked) in marks.iter().enumerate() {
        if *marked {
            if let Ok(number) = u32::try_from(number) {
                if let Some(one) = tuples.get(number) {
                    made.push(instance_of(alloc, one, places)?)?;
                }
            }
        }
    }
    Ok(made)
}

/// The instances on which the instance of a query rests, in order, and this one last.
pub(crate) fn trace_of(
    alloc: Global,
    tuples: &Tuples,
    clause: u32,
    point: Vec<i64>,
    premises: &[u32],
) -> Result<Vec<Instance>, Memory> {
    let mut marks = vec![in alloc; false; tuples.len()]?;
    mark(&mut marks, premises);
    spread(tuples, &mut marks);
    let places = places_of(alloc, marks.as_slice())?;
    let mut made = instances(alloc, tuples, marks.as_slice(), places.as_slice())?;
    let premises = placed(alloc, premises, places.as_slice())?;
    made.push(Instance {
        clause,
        point,
        premises,
        pred: None,
        tuple: Vec::new(alloc),
    })?;
    Ok(made)
}
