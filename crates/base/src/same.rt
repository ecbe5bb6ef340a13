ghost use Rattle.std.specs.Prelude.{◌≡◌, ◌↔◌, IsTrue, IfOk};

use crate::memory::Memory;
use sqlite_items::{Boxed, Items};
use std::alloc::Global;

/// Equality of what contracts see. A tree gets it from that of its parts, with no proof.
pub trait Same {
    /// Whether the two are equal, exactly, without memory.
    fn equals(&self, other: &Self) -> bool
        ensures { IsTrue result ↔ (self.now ≡ other.now) };
}

/// Copies that are equal to what was copied. A recursive type writes its `copy` as a method of its
/// own and hands it on through this trait, so that lists and boxes of it are copied too.
pub trait Copied: Drop {
    /// An equal value.
    fn copy(&self, alloc: Global) -> Result<Self, Memory>
        ensures { IfOk result (λ copied. copied ≡ self.now) };
}

impl Same for u8 {
    fn equals(&self, other: &u8) -> bool {
        *self == *other
    }
}

impl Copied for u8 {
    fn copy(&self, _alloc: Global) -> Result<u8, Memory> {
        Ok(*self)
    }
}

impl Same for u32 {
    fn equals(&self, other: &u32) -> bool {
        *self == *other
    }
}

impl Copied for u32 {
    fn copy(&self, _alloc: Global) -> Result<u32, Memory> {
        Ok(*self)
    }
}

impl Same for u64 {
    fn equals(&self, other: &u64) -> bool {
        *self == *other
    }
}

impl Copied for u64 {
    fn copy(&self, _alloc: Global) -> Result<u64, Memory> {
        Ok(*self)
    }
}

impl Same for i64 {
    fn equals(&self, other: &i64) -> bool {
        *self == *other
    }
}

impl Copied for i64 {
    fn copy(&self, _alloc: Global) -> Result<i64, Memory> {
        Ok(*self)
    }
}

impl Same for i128 {
    fn equals(&self, other: &i128) -> bool {
        *self == *other
    }
}

impl Copied for i128 {
    fn copy(&self, _alloc: Global) -> Result<i128, Memory> {
        Ok(*self)
    }
}

impl<A: Same, B: Same> Same for (A, B) {
    fn equals(&self, other: &(A, B)) -> bool {
        self.0.equals(&other.0) && self.1.equals(&other.1)
    }
}

impl<A: Copied, B: Copied> Copied for (A, B) {
    fn copy(&self, alloc: Global) -> Result<(A, B), Memory> {
        Ok((self.0.copy(alloc)?, self.1.copy(alloc)?))
    }
}

impl<T: Same> Same for Option<T> {
    fn equals(&self, other: &Option<T>) -> bool {
        match (self, other) {
            (None, None) => true,
            (Some(this), Some(that)) => this.equals(that),
            _ => false,
        }
    }
}

impl<T: Copied> Copied for Option<T> {
    fn copy(&self, alloc: Global) -> Result<Option<T>, Memory> {
        match self {
            None => Ok(None),
            Some(this) => Ok(Some(this.copy(alloc)?)),
        }
    }
}

impl<T: Same> Same for Items<T> {
    fn equals(&self, other: &Items<T>) -> bool {
        let (these, others) = (self.as_slice(), other.as_slice());
        if these.len() != others.len() {
            return false;
        }
        for (i, item) in these.iter().enumerate() {
            if !item.equals(&others[i]) {
                return false;
            }
        }
        true
    }
}

impl<T: Copied> Copied for Items<T> {
    fn copy(&self, alloc: Global) -> Result<Items<T>, Memory> {
        let mut copied = Vec::with_capacity(alloc, self.len())?;
        for item in self.as_slice() {
            copied.push(item.copy(alloc)?)?;
        }
        Ok(Items::from_vec(copied))
    }
}

impl<T: Same> Same for Boxed<T> {
    fn equals(&self, other: &Boxed<T>) -> bool {
        self.get().equals(other.get())
    }
}

impl<T: Copied> Copied for Boxed<T> {
    fn copy(&self, alloc: Global) -> Result<Boxed<T>, Memory> {
        let value = self.get().copy(alloc)?;
        Ok(Boxed::new(alloc, value)?)
    }
}
