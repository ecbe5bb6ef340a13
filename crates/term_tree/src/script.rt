use crate::node::TermId;
use crate::sort::Sort;
use crate::terms::Terms;
use base::{Copied, Items, Memory, Same};
use std::alloc::Global;

/// The bytes of a symbol, without bars.
#[derive(Debug)]
pub struct Name {
    pub bytes: Items<u8>,
}

impl Drop for Name {
    fn drop(self) {
        let Name { bytes: _ } = self;
    }
}

/// A declared predicate: its name and the sorts of its arguments.
#[derive(Debug)]
pub struct Pred {
    pub name: Name,
    pub args: Items<Sort>,
}

impl Drop for Pred {
    fn drop(self) {
        let Pred { name: _, args: _ } = self;
    }
}

/// An asserted term, with the offset of its command in the text and the number of commands before it.
#[derive(Clone, Copy, Debug, PartialEq, Eq)]
pub struct Assertion {
    pub term: TermId,
    pub offset: u64,
    pub command: u32,
}

/// What the commands of a text declare and assert, in their order.
pub struct Script {
    pub preds: Items<Pred>,
    pub asserts: Items<Assertion>,
    pub terms: Terms,
}

impl Drop for Script {
    fn drop(self) {
        let Script {
            preds: _,
            asserts: _,
            terms: _,
        } = self;
    }
}

impl Same for Name {
    fn equals(&self, other: &Name) -> bool {
        self.bytes.equals(&other.bytes)
    }
}

impl Copied for Name {
    fn copy(&self, alloc: Global) -> Result<Name, Memory> {
        let bytes = Items::from_slice(alloc, self.bytes.as_slice())?;
        Ok(Name { bytes })
    }
}

impl Same for Pred {
    fn equals(&self, other: &Pred) -> bool {
        self.name.equals(&other.name) && self.args.equals(&other.args)
    }
}

impl Copied for Pred {
    fn copy(&self, alloc: Global) -> Result<Pred, Memory> {
        let name = self.name.copy(alloc)?;
        let args = self.args.copy(alloc)?;
        Ok(Pred { name, args })
    }
}
