use base::{Copied, Memory, Same};
use cube_forms::Lemma;
use std::alloc::Global;

/// A lemma that a query uses, on a body atom of its clause.
pub struct Used {
    /// The number of the atom in the body, from 0.
    pub atom: u32,
    pub lemma: Lemma,
}

impl Drop for Used {
    fn drop(self) {
        let Used { atom: _, lemma: _ } = self;
    }
}

impl Same for Used {
    fn equals(&self, other: &Used) -> bool {
        self.atom == other.atom && self.lemma.equals(&other.lemma)
    }
}

impl Copied for Used {
    fn copy(&self, alloc: Global) -> Result<Used, Memory> {
        Ok(Used {
            atom: self.atom,
            lemma: self.lemma.copy(alloc)?,
        })
    }
}
