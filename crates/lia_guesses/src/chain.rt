//! A chain of roundings above a leaf, before it is checked.

use base::Memory;
use std::alloc::Global;

/// Multiples of literals are added up, divided and rounded.
#[derive(Drop)]
pub struct Rounding {
    pub multipliers: Vec<(u32, i64)>,
    pub divisor: i64,
}

/// Roundings where `known` literals are known, one below the other, and the multipliers of the leaf
/// below them.
#[derive(Drop)]
pub struct Chain {
    pub known: usize,
    pub roundings: Vec<Rounding>,
    pub multipliers: Vec<(u32, i64)>,
}

impl Chain {
    /// No roundings, and an empty leaf.
    pub(crate) fn new(alloc: Global, known: usize) -> Chain {
        Chain {
            known,
            roundings: Vec::new(alloc),
            multipliers: Vec::new(alloc),
        }
    }

    /// One rounding more, below the others, and the number of what it derives.
    pub(crate) fn round(
        &mut self,
        multipliers: Vec<(u32, i64)>,
        divisor: i64,
    ) -> Result<u32, Memory> {
        let Some(number) = self.known.checked_add(self.roundings.len()) else {
            return Err(Memory);
        };
        self.roundings.push(Rounding {
            multipliers,
            divisor,
        })?;
        numbered(number)
    }

    /// One rounding more, and what it derives joins the leaf.
    pub(crate) fn close(
        &mut self,
        multipliers: Vec<(u32, i64)>,
        divisor: i64,
    ) -> Result<(), Memory> {
        let number = self.round(multipliers, divisor)?;
        self.multipliers.push((number, 1))?;
        Ok(())
    }
}

/// The number as a refutation writes it, where it has room there.
pub(crate) fn numbered(number: usize) -> Result<u32, Memory> {
    match u32::try_from(number) {
        Ok(number) => Ok(number),
        Err(_) => Err(Memory),
    }
}
