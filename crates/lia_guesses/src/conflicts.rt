//! Bounds of columns that contradict, as a leaf.

use crate::chain::Chain;
use crate::rows::taken;
use crate::sides::{Bound, Sides};
use base::Memory;
use std::alloc::Global;

/// The bound that the multiplier of this number belongs to: two for each column, that of its lower
/// bound first.
fn bound_at(sides: &[Sides], at: usize) -> Option<Bound> {
    let own = sides.get(at / 2)?;
    if at % 2 == 0 { own.lower } else { own.upper }
}

/// The bounds, each times its multiplier, below the roundings of the chain. Whether all are there.
pub(crate) fn of_conflict(
    alloc: Global,
    chain: &mut Chain,
    multipliers: &[i64],
    sides: &[Sides],
) -> Result<bool, Memory> {
    for (at, times) in multipliers.iter().enumerate() {
        if *times != 0 {
            let Some(bound) = bound_at(sides, at) else {
                return Ok(false);
            };
            let own = taken(alloc, chain, bound, *times)?;
            chain.multipliers.push(own)?;
        }
    }
    Ok(true)
}
