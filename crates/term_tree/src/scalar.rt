use base::{Copied, Memory, Same};
use std::alloc::Global;

/// A value of a sort. In contracts an integer has no bound; here it has 128 bits.
#[derive(Clone, Copy, Debug, PartialEq, Eq)]
pub enum Value {
    Int(i128),
    Bool(bool),
}

impl Same for Value {
    fn equals(&self, other: &Value) -> bool {
        *self == *other
    }
}

impl Copied for Value {
    fn copy(&self, _alloc: Global) -> Result<Value, Memory> {
        Ok(*self)
    }
}
