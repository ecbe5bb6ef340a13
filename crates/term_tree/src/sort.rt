use base::{Copied, Memory, Same};
use std::alloc::Global;

/// A sort of SMT-LIB's theories Ints and Core.
#[derive(Clone, Copy, Debug, PartialEq, Eq)]
pub enum Sort {
    Int,
    Bool,
}

impl Same for Sort {
    fn equals(&self, other: &Sort) -> bool {
        *self == *other
    }
}

impl Copied for Sort {
    fn copy(&self, _alloc: Global) -> Result<Sort, Memory> {
        Ok(*self)
    }
}
