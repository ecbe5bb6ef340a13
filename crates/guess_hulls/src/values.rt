//! What is made of forms, where numbers have room.

use base::Memory;
use lin_atoms::{Lin, WideStop};
use std::alloc::Global;

/// The form a number of times, and another one a number of times, where it has room.
pub(crate) fn combined(
    alloc: Global,
    k: i64,
    x: &Lin,
    m: i64,
    y: &Lin,
) -> Result<Option<Lin>, Memory> {
    match combine(alloc, k, x, m, y) {
        Ok(lin) => Ok(Some(lin)),
        Err(WideStop::Wide) => Ok(None),
        Err(WideStop::Memory) => Err(Memory),
    }
}

fn combine(alloc: Global, k: i64, x: &Lin, m: i64, y: &Lin) -> Result<Lin, WideStop> {
    let first = x.scaled(alloc, k)?;
    let second = y.scaled(alloc, m)?;
    first.added(alloc, &second)
}
