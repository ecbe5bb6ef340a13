//! Instances of a clause that were found.

use base::Memory;
use std::alloc::Global;

/// An instance whose body tuples are there.
#[derive(Drop)]
pub struct Found {
    /// The values of the clause's variables.
    pub point: Vec<i64>,
    /// For each body atom the number of its tuple.
    pub premises: Vec<u32>,
}

/// The numbers of all body atoms' tuples, where each has one.
pub(crate) fn numbers(alloc: Global, premises: &[Option<u32>]) -> Result<Option<Vec<u32>>, Memory> {
    let mut made = Vec::with_capacity(alloc, premises.len())?;
    for premise in premises {
        match premise {
            Some(number) => made.push(*number)?,
            None => return Ok(None),
        }
    }
    Ok(Some(made))
}
