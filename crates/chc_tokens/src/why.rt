use crate::seeing::Seen;
use crate::used::Used;
use base::{Copied, Items, Memory};
use refutation_trees::GaveUp;
use std::alloc::Global;

/// What keeps a lemma from being lifted.
pub enum Why {
    /// The head of this instance breaks it.
    Broken(Seen),
    /// The query whether an instance of the clause breaks it, under the used lemmas, was given up.
    Unknown {
        clause: u32,
        used: Items<Used>,
        evidence: GaveUp,
    },
}

impl Drop for Why {
    fn drop(self) {
        match self {
            Why::Broken(_) => {}
            Why::Unknown {
                clause: _,
                used: _,
                evidence: _,
            } => {}
        }
    }
}

impl Copied for Why {
    fn copy(&self, alloc: Global) -> Result<Why, Memory> {
        match self {
            Why::Broken(seen) => {
                let seen = seen.copy(alloc)?;
                Ok(Why::Broken(seen))
            }
            Why::Unknown {
                clause,
                used,
                evidence,
            } => {
                let used = used.copy(alloc)?;
                let evidence = evidence.copy(alloc)?;
                Ok(Why::Unknown {
                    clause: *clause,
                    used,
                    evidence,
                })
            }
        }
    }
}
