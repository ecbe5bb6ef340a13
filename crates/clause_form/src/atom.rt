use base::{Copied, Items, Memory};
use std::alloc::Global;

/// A predicate, numbered from 0 in the order of the declarations, at variables of its clause.
pub struct Atom {
    pub pred: u32,
    pub args: Items<u32>,
}

impl Drop for Atom {
    fn drop(self) {
        let Atom { pred: _, args: _ } = self;
    }
}

impl Copied for Atom {
    fn copy(&self, alloc: Global) -> Result<Atom, Memory> {
        let args = self.args.copy(alloc)?;
        Ok(Atom {
            pred: self.pred,
            args,
        })
    }
}
